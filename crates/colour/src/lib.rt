// The colour arithmetic of one pixel or one 2x2 block: RGB to YUV and back (MS-RDPEGFX 3.3.8.3.1), the average of a block
// and the filter that undoes it (3.3.8.3.2); and the same conversion of limited range (limited).
// Promised: each call is total on bytes and answers what the formula of specs/Colour.antt says over the whole numbers, with
// division rounded down. The reverse transform takes its products from four tables (products.rt, specs/Products.antt); the rest has no
// signed number. Every sum fits 16 bits, which compilers turn into short vector code.
#![tactic(auto)]

pub mod limited; // BT.601 of limited range
pub mod products; // the four tables of products

ghost use Rattle.std.specs.Prelude.{◌≡◌, ◌+◌, ◌*◌, ◌-◌, ◌/◌, ◌<◌, min, get_or};
ghost use Rattle.std.specs.Int.Signed.{mag};
ghost use Rattle.colour.specs.Whole.{◌÷◌};
ghost use Rattle.colour.specs.Colour.{forward_of, reverse_of, average_of, undone_of, undone_in};
ghost use Rattle.colour.specs.Limited.{forward_by};
ghost use Rattle.colour.specs.Products.{
  red_v,
  green_u,
  green_v,
  blue_u,
  red_share_of,
  green_share_of,
  blue_share_of,
  Share,
  channel_of,
  shade_of,
};

// Which colour rules: full range, as AVC444 has them, or BT.601 of limited range, as video has them.
#[derive(Clone, Copy, Debug, PartialEq, Eq)]
pub enum Matrix {
    Full,
    Limited,
}

#[repr(C)]
#[derive(Clone, Copy, Debug, PartialEq, Eq)]
pub struct Yuv {
    pub y: u8,
    pub u: u8,
    pub v: u8,
}

// A pixel by value: red, green, blue, alpha.
pub type Rgba = [u8; 4];

pub use products::Table;

// The four chroma samples of a 2x2 block: the even-even one, then right, below, diagonal.
#[derive(Clone, Copy, Debug, PartialEq, Eq)]
pub struct Block {
    pub samples: [u8; 4],
}

// What the filter answers: the value, and whether it was applied.
// A flag beside the value, and no Option: C is handed it as it is, and a value that is kept is one too.
#[repr(C)]
#[derive(Clone, Copy, Debug, PartialEq, Eq)]
pub struct Undone {
    pub value: u8,
    pub applied: bool,
}

// plus - minus, clamped to a byte: `clamp_channel` on a difference.
fn fit(plus: u16, minus: u16) -> u8
    ensures { result ≡ min (plus - minus) 255 }
{
    plus.saturating_sub(minus).min(255) as u8
}

fn luma(r: u8, g: u8, b: u8) -> u8
    ensures { result ≡ (54 * r + 183 * g + 18 * b) / 256 }
{
    ((54 * u16::from(r) + 183 * u16::from(g) + 18 * u16::from(b)) / 256) as u8
}

// 32768 is 128 x 256: with it no sum is below zero, nor any answer above 255, so that there is nothing to clamp.
fn chroma_u(r: u8, g: u8, b: u8) -> u8
    ensures { result ≡ (32768 + 128 * b - (29 * r + 99 * g)) / 256 }
{
    ((32768 + 128 * u16::from(b) - (29 * u16::from(r) + 99 * u16::from(g))) / 256) as u8
}

fn chroma_v(r: u8, g: u8, b: u8) -> u8
    ensures { result ≡ (32768 + 128 * r - (116 * g + 12 * b)) / 256 }
{
    ((32768 + 128 * u16::from(r) - (116 * u16::from(g) + 12 * u16::from(b))) / 256) as u8
}

// Y, U and V of a colour. Ports `rgb_to_yuv`.
pub fn forward(r: u8, g: u8, b: u8) -> Yuv
    ensures { result ≡ forward_of r g b }
{
    let y = luma(r, g, b);
    let u = chroma_u(r, g, b);
    let v = chroma_v(r, g, b);
    Yuv { y, u, v }
}

// Y, U and V of a colour by the matrix.
pub fn forward_by(matrix: Matrix, r: u8, g: u8, b: u8) -> Yuv
    ensures { result ≡ forward_by matrix r g b }
{
    match matrix {
        Matrix::Full => forward(r, g, b),
        Matrix::Limited => limited::forward(r, g, b),
    }
}

// What a product adds to a channel: p / 256, rounded down, since (256 Y + p) / 256 is Y + p / 256.
fn share(p: i32) -> i16
    requires { mag p < 65536 }
    ensures { result ≡ p ÷ 256 }
{
    (p >> 8) as i16
}

// The four tables, each with its rule.
pub fn red_v() -> &'static Table
    ensures { result.now ≡ red_v }
{
    &products::PRODUCTS.red_v
}

pub fn green_u() -> &'static Table
    ensures { result.now ≡ green_u }
{
    &products::PRODUCTS.green_u
}

pub fn green_v() -> &'static Table
    ensures { result.now ≡ green_v }
{
    &products::PRODUCTS.green_v
}

pub fn blue_u() -> &'static Table
    ensures { result.now ≡ blue_u }
{
    &products::PRODUCTS.blue_u
}

// What V adds to red.
pub fn red_share(v: u8) -> i16
    ensures { Share result (red_share_of v) }
{
    let p = red_v()[v as usize];
    share(p)
}

// What U and V add to green: the sum of both products is rounded down, and not each of them.
pub fn green_share(u: u8, v: u8) -> i16
    ensures { Share result (green_share_of u v) }
{
    let p = green_u()[u as usize];
    let q = green_v()[v as usize];
    share(p + q)
}

// What U adds to blue.
pub fn blue_share(u: u8) -> i16
    ensures { Share result (blue_share_of u) }
{
    let p = blue_u()[u as usize];
    share(p)
}

// A channel: Y and its share, clamped to a byte.
fn channel(y: u8, s: i16) -> u8
    requires { mag s < 512 }
    ensures { result ≡ channel_of y s }
{
    let t = s + y as i16;
    if t < 0 {
        return 0;
    }
    if t < 255 { t as u8 } else { 255 }
}

// The pixel of Y and the shares of its three channels.
pub fn shade(y: u8, r: i16, g: i16, b: i16) -> Rgba
    requires { (mag r < 512) × (mag g < 512) × (mag b < 512) }
    ensures { result ≡ shade_of y r g b }
{
    let red = channel(y, r);
    let green = channel(y, g);
    let blue = channel(y, b);
    [red, green, blue, 255]
}

// The pixel of Y, U and V, its products from the four tables. Ports `yuv_to_rgba`.
pub fn reverse(y: u8, u: u8, v: u8) -> Rgba
    ensures { result ≡ reverse_of y u v }
{
    let r = red_share(v);
    let g = green_share(u, v);
    let b = blue_share(u);
    shade(y, r, g, b)
}

// The average of a block. Ports `average`.
pub fn average(b: Block) -> u8
    ensures { result ≡ average_of b.samples }
{
    let p = u16::from(b.samples[0]);
    let q = u16::from(b.samples[1]);
    let r = u16::from(b.samples[2]);
    let s = u16::from(b.samples[3]);
    ((p + q + r + s + 2) / 4) as u8
}

// a where undoing the average changes it by less than 30, else the change made: s is the sum of the other samples.
fn filtered(a: u8, s: u16) -> Undone
    ensures { result ≡ undone_of a s }
{
    let t = fit(4 * u16::from(a), s);
    if t.abs_diff(a) < 30 {
        return Undone {
            value: a,
            applied: false,
        };
    }
    Undone {
        value: t,
        applied: true,
    }
}

// The sum of a block's samples but the even-even one.
fn others(b: Block) -> u16
    ensures { result ≡ get_or b.samples 1 0 + get_or b.samples 2 0 + get_or b.samples 3 0 }
{
    let p = u16::from(b.samples[1]);
    let q = u16::from(b.samples[2]);
    let r = u16::from(b.samples[3]);
    p + q + r
}

// The even-even sample of a block as it was before it was averaged, and whether that is another one than it has now. Ports
// `reverse_filter`, which answers the value alone.
pub fn filter(b: Block) -> Undone
    ensures { result ≡ undone_in b.samples }
{
    let s = others(b);
    filtered(b.samples[0], s)
}
