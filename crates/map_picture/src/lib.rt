// A picture with its map of stale colour: a fresh one, one of RGBA pixels, and its conversion to RGBA (R57, R77).
//
// A call finds its number with the map, then runs the call that has no map (picture, from_rgba, to_rgba), then sets every block, or counts the
// pixels of blocks that are not complete. Each promises its number, its counts and every byte of every buffer: a refusal alters nothing.
#![tactic(auto)]

ghost use Rattle.std.specs.Prelude.{◌≡◌, [], ◌∷◌, length};
ghost use Rattle.colour.specs.declared.Matrix.TheVariants.{Full, Limited};
ghost use Rattle.from_rgba.specs.declared.edges.Edge.TheVariants.{Fresh, Filled};
ghost use Rattle.lent.specs.Refused.{number_of};
ghost use Rattle.map_picture.specs.Made.{from_short_of, MapNewOutcome, MapFromRgbaOutcome};
ghost use Rattle.map_picture.specs.Shown.{map_pixels_of, MapToRgbaOutcome};

use colour::Matrix;
use from_rgba::edges::Edge;
use lent::Answer;
use lent::refused::Refusal;
use picture::Size;
use to_rgba::Rect;

// What picture to RGBA answers: 0 or the number of its refusal, how many bytes it wrote, how many samples of U and of V the filter replaced,
// and how many pixels lie in blocks that are not complete. In a refusal all counts are 0.
// Numbers, and no Result: C is handed it as it is.
#[repr(C)]
#[derive(Clone, Copy)]
pub struct Pixels {
    pub number: u32,
    pub count: usize,
    pub filtered_u: usize,
    pub filtered_v: usize,
    pub stale: usize,
}

// A fresh picture, and a map of 0 (picture::new).
pub fn new(size: Size, y: &mut [u8], u: &mut [u8], v: &mut [u8], map: &mut [u8]) -> Answer
    ensures { MapNewOutcome size y.old u.old v.old map.old
        result (y.new ∷ u.new ∷ v.new ∷ map.new ∷ []) }
{
    if map::map_short(size, map.len()) {
        return Answer::refused(Refusal::PictureShort);
    }
    let fresh = picture::new(size, y, u, v);
    if fresh.number != 0 {
        return fresh;
    }
    map::boxes::set_all(map, size, 0);
    fresh
}

// Why from RGBA is refused where the map is short: 2 comes before 1.
fn from_short(size: Size, n: usize) -> Refusal
    ensures { number_of result ≡ from_short_of size n }
{
    if from_rgba::rgba_short(size, n) {
        Refusal::PixelsShort
    } else {
        Refusal::PictureShort
    }
}

// The picture of width x height pixels, converted by the matrix, its padding by the edge rule, and a map of 2 (from_rgba::with_edge).
fn with_edge(
    matrix: Matrix,
    edge: Edge,
    rgba: &[u8],
    size: Size,
    y: &mut [u8],
    u: &mut [u8],
    v: &mut [u8],
    map: &mut [u8],
) -> Answer
    ensures { MapFromRgbaOutcome matrix edge rgba.now size y.old u.old v.old map.old
        result (y.new ∷ u.new ∷ v.new ∷ map.new ∷ []) }
{
    if map::map_short(size, map.len()) {
        return Answer::refused(from_short(size, rgba.len()));
    }
    let made = from_rgba::with_edge(matrix, edge, rgba, size, y, u, v);
    if made.number != 0 {
        return made;
    }
    map::boxes::set_all(map, size, 2);
    made
}

// The picture of width x height pixels, its edge filled: each sample of the padding is the nearest one of the picture.
pub fn from_rgba(
    rgba: &[u8],
    size: Size,
    y: &mut [u8],
    u: &mut [u8],
    v: &mut [u8],
    map: &mut [u8],
) -> Answer
    ensures { MapFromRgbaOutcome Full Filled rgba.now size y.old u.old v.old map.old
        result (y.new ∷ u.new ∷ v.new ∷ map.new ∷ []) }
{
    with_edge(Matrix::Full, Edge::Filled, rgba, size, y, u, v, map)
}

// The same by BT.601 of limited range: the picture of a video.
pub fn from_rgba_limited(
    rgba: &[u8],
    size: Size,
    y: &mut [u8],
    u: &mut [u8],
    v: &mut [u8],
    map: &mut [u8],
) -> Answer
    ensures { MapFromRgbaOutcome Limited Filled rgba.now size y.old u.old v.old
        map.old result (y.new ∷ u.new ∷ v.new ∷ map.new ∷ []) }
{
    with_edge(Matrix::Limited, Edge::Filled, rgba, size, y, u, v, map)
}

// The picture of full range with padding of Y 0, U and V 128, which the last averages take in. Ports `Yuv444Frame::from_rgba`.
pub fn from_rgba_rust(
    rgba: &[u8],
    size: Size,
    y: &mut [u8],
    u: &mut [u8],
    v: &mut [u8],
    map: &mut [u8],
) -> Answer
    ensures { MapFromRgbaOutcome Full Fresh rgba.now size y.old u.old v.old map.old
        result (y.new ∷ u.new ∷ v.new ∷ map.new ∷ []) }
{
    with_edge(Matrix::Full, Edge::Fresh, rgba, size, y, u, v, map)
}

// The answer of a call that wrote nothing.
fn none(number: u32) -> Pixels
    ensures { result ≡ map_pixels_of number 0 0 0 0 }
{
    Pixels {
        number,
        count: 0,
        filtered_u: 0,
        filtered_v: 0,
        stale: 0,
    }
}

// The rectangle of the picture, clipped to it, as RGBA (to_rgba::to_rgba), and how many of its pixels lie in blocks that are not complete.
pub fn to_rgba(
    size: Size,
    y: &[u8],
    u: &[u8],
    v: &[u8],
    map: &[u8],
    rect: Rect,
    out: &mut [u8],
) -> Pixels
    ensures { MapToRgbaOutcome size y.now u.now v.now map.now rect
        out.old result (out.new ∷ []) }
{
    if map::map_short(size, map.len()) {
        return none(Refusal::PictureShort.number());
    }
    let made = to_rgba::to_rgba(size, y, u, v, rect, out);
    if made.number != 0 || made.count == 0 {
        return none(made.number);
    }
    let n = to_rgba::clipped(rect.left, rect.right, size.width);
    let h = to_rgba::clipped(rect.top, rect.bottom, size.height);
    Pixels {
        number: 0,
        count: made.count,
        filtered_u: made.filtered_u,
        filtered_v: made.filtered_v,
        stale: map::counts::stale_in(map, size, rect.left as usize, rect.top as usize, n, h),
    }
}
