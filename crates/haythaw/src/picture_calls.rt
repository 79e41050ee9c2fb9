// A 4:4:4 picture over three lent planes and its map: their sizes in bytes, a fresh one, and one of RGBA pixels by either edge rule.
ghost use Rattle.std.specs.Prelude.{◌≡◌, [], ◌∷◌};
ghost use Rattle.picture.specs.Sizes.{allocation_size_of};
ghost use Rattle.colour.specs.declared.Matrix.TheVariants.{Full};
ghost use Rattle.from_rgba.specs.declared.edges.Edge.TheVariants.{Fresh, Filled};
ghost use Rattle.map.specs.Map.{map_size_of};
ghost use Rattle.haythaw.specs.Made.{HaythawNewOutcome, HaythawFromRgbaOutcome};
ghost use Rattle.haythaw.specs.Sizes.{size_of};

use picture::Size;

// Bytes of the three planes together.
#[unsafe(no_mangle)]
pub extern "C" fn haythaw_allocation_size(width: u16, height: u16) -> usize
    ensures { result ≡ allocation_size_of (size_of width height) }
{
    picture::allocation_size(Size { width, height })
}

// Bytes of the map.
#[unsafe(no_mangle)]
pub extern "C" fn haythaw_map_size(width: u16, height: u16) -> usize
    ensures { result ≡ map_size_of (size_of width height) }
{
    map::map_size(Size { width, height })
}

// A fresh picture: Y 0, U and V 128, and the map 0. 0, or 1.
#[unsafe(no_mangle)]
pub extern "C" fn haythaw_new(
    width: u16,
    height: u16,
    y: &mut [u8],
    u: &mut [u8],
    v: &mut [u8],
    map: &mut [u8],
) -> u32
    ensures { HaythawNewOutcome (size_of width height) y.old u.old v.old map.old
        result (y.new ∷ u.new ∷ v.new ∷ map.new ∷ []) }
{
    map_picture::new(Size { width, height }, y, u, v, map).number
}

// The picture of width x height RGBA pixels, its edge filled, and the map 2. 0, 2 or 1.
#[unsafe(no_mangle)]
pub extern "C" fn haythaw_from_rgba(
    rgba: &[u8],
    width: u16,
    height: u16,
    y: &mut [u8],
    u: &mut [u8],
    v: &mut [u8],
    map: &mut [u8],
) -> u32
    ensures { HaythawFromRgbaOutcome Full Filled rgba.now (size_of width height)
        y.old u.old v.old map.old
        result (y.new ∷ u.new ∷ v.new ∷ map.new ∷ []) }
{
    map_picture::from_rgba(rgba, Size { width, height }, y, u, v, map).number
}

// The same with padding as in a fresh picture, as the Rust has it. 0, 2 or 1.
#[unsafe(no_mangle)]
pub extern "C" fn haythaw_from_rgba_rust(
    rgba: &[u8],
    width: u16,
    height: u16,
    y: &mut [u8],
    u: &mut [u8],
    v: &mut [u8],
    map: &mut [u8],
) -> u32
    ensures { HaythawFromRgbaOutcome Full Fresh rgba.now (size_of width height)
        y.old u.old v.old map.old
        result (y.new ∷ u.new ∷ v.new ∷ map.new ∷ []) }
{
    map_picture::from_rgba_rust(rgba, Size { width, height }, y, u, v, map).number
}
