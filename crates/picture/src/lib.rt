// The 4:4:4 picture: a size record by value beside three lent planes (ports `Yuv444Frame`: new, sizes).
//
// Stride and rows are width and height rounded up to 16, always worked out from the size. A plane is the first stride x rows bytes of
// its lent buffer; bytes after it never change. `new` promises its number and every byte of the three buffers, for every size and every
// length: a refusal alters nothing.
#![tactic(auto)]

ghost use Rattle.std.specs.Prelude.{◌≡◌, [], ◌∷◌, ◌*◌, ◌≤◌, length};
ghost use Rattle.lent.specs.Paint.{painted, whole};
ghost use Rattle.picture.specs.Sizes.{stride_of, rows_of, allocation_size_of, planes_short};
ghost use Rattle.picture.specs.New.{NewOutcome};

use lent::Answer;
use lent::refused::Refusal;

// A picture's width and height in pixels.
#[derive(Clone, Copy)]
pub struct Size {
    pub width: u16,
    pub height: u16,
}

// Bytes from a row's start to the next one's.
pub fn stride(size: Size) -> usize
    ensures { (result ≡ stride_of size) × (result ≤ 65536) }
{
    let width = size.width;
    lent::round_up_16(width)
}

// Rows of a plane, padding included.
pub fn rows(size: Size) -> usize
    ensures { (result ≡ rows_of size) × (result ≤ 65536) }
{
    let height = size.height;
    lent::round_up_16(height)
}

// Bytes of the three planes together (ports `Yuv444Frame::allocation_size`).
pub fn allocation_size(size: Size) -> usize
    ensures { result ≡ allocation_size_of size }
{
    3 * (rows(size) * stride(size))
}

// Refusal 1: a plane of ny, nu or nv bytes is shorter than stride x rows.
pub fn planes_short(size: Size, ny: usize, nu: usize, nv: usize) -> bool
    ensures { result ≡ planes_short size ny nu nv }
{
    let stride = stride(size);
    let rows = rows(size);
    if lent::too_short(stride, rows, ny) {
        return true;
    }
    if lent::too_short(stride, rows, nu) {
        return true;
    }
    lent::too_short(stride, rows, nv)
}

// The plane holds `value` everywhere.
pub fn fill_plane(plane: &mut [u8], stride: usize, rows: usize, value: u8)
    requires { rows * stride ≤ length plane.old }
    ensures { plane.new ≡ painted stride rows whole (λ r c. value) plane.old }
{
    let n = rows * stride;
    lent::fill(&mut plane[..n], value);
}

// A fresh picture: Y 0, U and V 128. Ports `Yuv444Frame::new`.
pub fn new(size: Size, y: &mut [u8], u: &mut [u8], v: &mut [u8]) -> Answer
    ensures { NewOutcome size y.old u.old v.old
        result (y.new ∷ u.new ∷ v.new ∷ []) }
{
    if planes_short(size, y.len(), u.len(), v.len()) {
        return Answer::refused(Refusal::PictureShort);
    }
    let stride = stride(size);
    let rows = rows(size);
    fill_plane(y, stride, rows, 0);
    fill_plane(u, stride, rows, 128);
    fill_plane(v, stride, rows, 128);
    Answer::done(0)
}
