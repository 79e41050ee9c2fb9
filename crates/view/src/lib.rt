// A 4:2:0 view over three lent planes: the sizes of its planes, the number that it is answered with, and where a row of a plane starts.
//
// A view is refused with 3 or 4 exactly as the rules' table says (proofs/Exactly.antt), for every size, stride and length. A row of a
// plane starts at row x stride (specs/Starts.antt); the row calls, which answer it as the caller's own bytes, are in `rows`. The sizes of
// a view are its fields: the caller has them by value.
#![tactic(auto)]

pub mod rows; // its rows, as parts of the caller's planes
pub mod frame; // a view with its planes

ghost use Rattle.std.specs.Prelude.{◌≡◌, [], ◌*◌, ◌≤◌, length};
ghost use Rattle.lent.specs.Outcome.{Outcome, answer_of};
ghost use Rattle.lent.specs.Refused.{number_in};
ghost use Rattle.view.specs.View.{luma_of, chroma_of, narrow, plane_short, view_number_of};
ghost use Rattle.view.specs.Starts.{values_of, row_start_of};

use lent::refused::Refusal;

#[derive(Clone, Copy)]
pub struct View {
    pub width: u16,
    pub height: u16,
    pub luma_stride: usize,
    pub chroma_stride: usize,
}

// The sizes of one plane of a view: luma, or chroma.
#[derive(Clone, Copy)]
pub struct Plane {
    pub stride: usize,
    pub width: usize,
    pub height: usize,
}

// The sizes of the luma plane.
pub fn luma(w: View) -> Plane
    ensures { result ≡ luma_of w }
{
    Plane {
        stride: w.luma_stride,
        width: w.width as usize,
        height: w.height as usize,
    }
}

// The sizes of both chroma planes.
pub fn chroma(w: View) -> Plane
    ensures { result ≡ chroma_of w }
{
    Plane {
        stride: w.chroma_stride,
        width: lent::half_up(w.width),
        height: lent::half_up(w.height),
    }
}

// Refusal 3: a stride is below its plane's width.
fn too_narrow(w: View) -> bool
    ensures { result ≡ narrow w }
{
    if w.luma_stride < w.width as usize {
        return true;
    }
    w.chroma_stride < lent::half_up(w.width)
}

// Refusal 4: a plane, of so many bytes, is shorter than its rows. U and V have one stride and one number of rows, so that the shorter of
// the two decides for both.
fn plane_too_short(w: View, ny: usize, nu: usize, nv: usize) -> bool
    ensures { result ≡ plane_short w ny nu nv }
{
    if lent::too_short(w.luma_stride, w.height as usize, ny) {
        return true;
    }
    lent::too_short(
        w.chroma_stride,
        lent::half_up(w.height),
        lent::least(nu, nv),
    )
}

// Whether these planes are a view of these sizes, or why not.
pub fn check(w: View, y: &[u8], u: &[u8], v: &[u8]) -> Result<(), Refusal>
    ensures { number_in result ≡ view_number_of w (length y.now) (length u.now) (length v.now) }
{
    if too_narrow(w) {
        return Err(Refusal::StrideNarrow);
    }
    if plane_too_short(w, y.len(), u.len(), v.len()) {
        return Err(Refusal::ViewShort);
    }
    Ok(())
}

// The same as an answer (the Rust's Yuv420Frame::new). The count is always 0.
pub fn new(w: View, y: &[u8], u: &[u8], v: &[u8]) -> lent::Answer
    ensures { Outcome (answer_of
        (view_number_of w (length y.now) (length u.now) (length v.now)) 0) [] result [] }
{
    lent::Answer {
        number: lent::refused::number(check(w, y, u, v)),
        count: 0,
    }
}

// Where row `row` starts, if there is one. A plane of len bytes holds all rows, so that the product does not wrap.
pub fn row_start(len: usize, stride: usize, rows: usize, row: usize) -> Option<usize>
    requires { rows * stride ≤ len }
    ensures { values_of result ≡ row_start_of stride rows row }
{
    if row < rows { Some(row * stride) } else { None }
}
