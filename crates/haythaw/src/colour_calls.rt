// The colour arithmetic on bytes. It serves the tests and the runs that compare the port with its original, and is in no header.
ghost use Rattle.std.specs.Prelude.{◌≡◌, [], ◌∷◌};
ghost use Rattle.colour.specs.Colour.{forward_of, reverse_of, average_of, undone_in};

use colour::{Block, Undone, Yuv};

// A pixel over the boundary: red, green, blue, alpha.
#[repr(C)]
#[derive(Clone, Copy)]
pub struct Pixel {
    pub bytes: [u8; 4],
}

// Y, U and V of a colour.
#[unsafe(no_mangle)]
pub extern "C" fn haythaw_forward(r: u8, g: u8, b: u8) -> Yuv
    ensures { result ≡ forward_of r g b }
{
    colour::forward(r, g, b)
}

// The pixel of Y, U and V.
#[unsafe(no_mangle)]
pub extern "C" fn haythaw_reverse(y: u8, u: u8, v: u8) -> Pixel
    ensures { result.bytes ≡ reverse_of y u v }
{
    Pixel {
        bytes: colour::reverse(y, u, v),
    }
}

// The average of a block: the even-even sample a, then right, below, diagonal.
#[unsafe(no_mangle)]
pub extern "C" fn haythaw_average(a: u8, b: u8, c: u8, d: u8) -> u8
    ensures { result ≡ average_of (a ∷ b ∷ c ∷ d ∷ []) }
{
    colour::average(Block {
        samples: [a, b, c, d],
    })
}

// The reverse filter of a block, in the same order: the value, and whether it was applied.
#[unsafe(no_mangle)]
pub extern "C" fn haythaw_filter(a: u8, b: u8, c: u8, d: u8) -> Undone
    ensures { result ≡ undone_in (a ∷ b ∷ c ∷ d ∷ []) }
{
    colour::filter(Block {
        samples: [a, b, c, d],
    })
}
