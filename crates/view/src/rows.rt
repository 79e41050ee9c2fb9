// The rows of a 4:2:0 view, as parts of the caller's planes.
//
// A row of an accepted view is the caller's own bytes at row x stride, its plane's width long (specs/Rows.antt), and a refused view has
// no row; bytes between width and stride or after the last row reach no answer (proofs/RowsAlike.antt).
ghost use Rattle.std.specs.Prelude.{◌≡◌, [], length};
ghost use Rattle.lent.specs.Outcome.{Outcome};
ghost use Rattle.lent.specs.Refused.{number_in};
ghost use Rattle.view.specs.View.{luma_of, chroma_of, view_number_of, PlaneFits};
ghost use Rattle.view.specs.Starts.{values_of};
ghost use Rattle.view.specs.Rows.{find_row_of, row_answer_of, RowPart};

use crate::{Plane, View};
use lent::refused::Refusal;

// A row by its place in the plane: start and length are 0 where it is absent or the view refused.
// A flag beside numbers, and no Option: C is handed it as it is.
#[repr(C)]
#[derive(Clone, Copy)]
pub struct Row {
    pub number: u32,
    pub present: bool,
    pub start: usize,
    pub length: usize,
}

// Where row `row` starts in a plane of a view that was answered so: a refused view has no row.
fn find_row(view: Result<(), Refusal>, p: Plane, len: usize, row: usize) -> Option<usize>
    requires { number_in view ≡ 0 → PlaneFits p len }
    ensures { values_of result ≡ find_row_of (number_in view) p row }
{
    match view {
        Ok(()) => crate::row_start(len, p.stride, p.height, row),
        Err(_) => None,
    }
}

// The row itself, an empty part where there is none (the Rust's plane_row).
fn row_part(view: Result<(), Refusal>, p: Plane, plane: &[u8], row: usize) -> &[u8]
    requires { number_in view ≡ 0 → PlaneFits p (length plane.now) }
    ensures { RowPart (number_in view) p row plane.entry result }
{
    let Some(at) = find_row(view, p, plane.len(), row) else {
        return &plane[..0];
    };
    let end = at + p.width;
    &plane[at..end]
}

// Its number, whether it is present, and its place.
fn row_answer(view: Result<(), Refusal>, p: Plane, len: usize, row: usize) -> Row
    requires { number_in view ≡ 0 → PlaneFits p len }
    ensures { result ≡ row_answer_of (number_in view) p row }
{
    let number = lent::refused::number(view);
    let Some(at) = find_row(view, p, len, row) else {
        return Row {
            number,
            present: false,
            start: 0,
            length: 0,
        };
    };
    Row {
        number,
        present: true,
        start: at,
        length: p.width,
    }
}

// A luma row of the view (the Rust's Yuv420Frame::luma_row). The three planes have a call each, as the Rust has: what they share is `row_part`.
pub fn luma_row<'a>(w: View, y: &'a [u8], u: &'a [u8], v: &'a [u8], row: usize) -> &'a [u8]
    ensures { RowPart (view_number_of w (length y.now) (length u.now) (length v.now))
        (luma_of w) row y.entry result }
{
    row_part(crate::check(w, y, u, v), crate::luma(w), y, row)
}

// A row of U (the Rust's Yuv420Frame::u_row).
pub fn u_row<'a>(w: View, y: &'a [u8], u: &'a [u8], v: &'a [u8], row: usize) -> &'a [u8]
    ensures { RowPart (view_number_of w (length y.now) (length u.now) (length v.now))
        (chroma_of w) row u.entry result }
{
    row_part(crate::check(w, y, u, v), crate::chroma(w), u, row)
}

// A row of V (the Rust's Yuv420Frame::v_row).
pub fn v_row<'a>(w: View, y: &'a [u8], u: &'a [u8], v: &'a [u8], row: usize) -> &'a [u8]
    ensures { RowPart (view_number_of w (length y.now) (length u.now) (length v.now))
        (chroma_of w) row v.entry result }
{
    row_part(crate::check(w, y, u, v), crate::chroma(w), v, row)
}

// Beside luma_row: the number, and the row's place.
pub fn luma_row_answer(w: View, y: &[u8], u: &[u8], v: &[u8], row: usize) -> Row
    ensures { Outcome (row_answer_of
        (view_number_of w (length y.now) (length u.now) (length v.now)) (luma_of w) row) [] result [] }
{
    row_answer(crate::check(w, y, u, v), crate::luma(w), y.len(), row)
}

// Beside u_row.
pub fn u_row_answer(w: View, y: &[u8], u: &[u8], v: &[u8], row: usize) -> Row
    ensures { Outcome (row_answer_of
        (view_number_of w (length y.now) (length u.now) (length v.now)) (chroma_of w) row) [] result [] }
{
    row_answer(crate::check(w, y, u, v), crate::chroma(w), u.len(), row)
}

// Beside v_row.
pub fn v_row_answer(w: View, y: &[u8], u: &[u8], v: &[u8], row: usize) -> Row
    ensures { Outcome (row_answer_of
        (view_number_of w (length y.now) (length u.now) (length v.now)) (chroma_of w) row) [] result [] }
{
    row_answer(crate::check(w, y, u, v), crate::chroma(w), v.len(), row)
}
