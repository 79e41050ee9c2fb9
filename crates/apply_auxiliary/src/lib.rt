// The auxiliary views go into the picture, within the rectangles of a list.
//
// A call's outcome is an equation over its inputs (specs/Auxiliary.antt): the number, and every byte of Y, U and V afterwards. A chroma
// sample is taken when some rectangle's widened area has it and the view has it for U and for V; Y is lent and never written. The laws
// that a caller leans on are in proofs/Laws.antt.
#![tactic(auto)]

ghost use Rattle.std.specs.Prelude.{◌≡◌, [], ◌∷◌, ◌*◌, ◌%◌, ◌≤◌, length};
ghost use Rattle.lent.specs.Paint.{painted};
ghost use Rattle.picture.specs.Sizes.{stride_of, rows_of};
ghost use Rattle.layout.specs.declared.Chroma.TheVariants.{CU, CV};
ghost use Rattle.layout.specs.declared.Layout.TheVariants.{V1, V2};
ghost use Rattle.rects.specs.Rects.{by};
ghost use Rattle.apply_auxiliary_rows.specs.Rows.{auxiliary_source, AreaFits};
ghost use Rattle.apply_auxiliary.specs.Auxiliary.{auxiliary_in, auxiliary_rule, auxiliary_after, ApplyAuxiliaryViewOutcome};

use apply_auxiliary_rows::v1::v1_row;
use apply_auxiliary_rows::v2::{v2_even_row, v2_row};
use layout::Layout;
use lent::Answer;
use picture::Size;
use rects::{Area, Rect};
use view::View;
use view::frame::Frame;

// The rows of the area, one after the other, by V1. Each layout has a loop of its own: in one loop for both, a row of V1 would pay for
// what the compiler keeps from row to row for V2.
fn v1_rows(u: &mut [u8], v: &mut [u8], size: Size, area: Area, frame: Frame<'_>)
    requires area_fits { AreaFits size (length u.old) area.bottom area.left area.right }
    requires area_fits_2 { AreaFits size (length v.old) area.bottom area.left area.right }
    ensures u { u.new ≡ painted (stride_of size) (rows_of size) (auxiliary_in V1 frame.entry.sizes area)
        (auxiliary_source V1 CU frame.entry.sizes frame.entry.y.now frame.entry.u.now frame.entry.v.now) u.old }
    ensures v { v.new ≡ painted (stride_of size) (rows_of size) (auxiliary_in V1 frame.entry.sizes area)
        (auxiliary_source V1 CV frame.entry.sizes frame.entry.y.now frame.entry.u.now frame.entry.v.now) v.old }
{
    for row in area.top..area.bottom {
        v1_row(u, v, size, frame, row, area.left, area.right);
    }
}

// The rows of the area by V2, two at a time: an even row takes its odd columns alone, and no test for that is left in the loop. `wide` is W.
fn v2_rows(u: &mut [u8], v: &mut [u8], size: Size, wide: usize, area: Area, frame: Frame<'_>)
    requires area_fits { AreaFits size (length u.old) area.bottom area.left area.right }
    requires area_fits_2 { AreaFits size (length v.old) area.bottom area.left area.right }
    requires top_value { (area.top % 2 ≡ 0) × (area.bottom % 2 ≡ 0) }
    ensures u { u.new ≡ painted (stride_of size) (rows_of size) (auxiliary_in (V2 wide) frame.entry.sizes area)
        (auxiliary_source (V2 wide) CU frame.entry.sizes frame.entry.y.now frame.entry.u.now frame.entry.v.now) u.old }
    ensures v { v.new ≡ painted (stride_of size) (rows_of size) (auxiliary_in (V2 wide) frame.entry.sizes area)
        (auxiliary_source (V2 wide) CV frame.entry.sizes frame.entry.y.now frame.entry.u.now frame.entry.v.now) v.old }
{
    let w = frame.sizes;
    let vy = frame.y;
    for row in (area.top..area.bottom).step_by(2) {
        v2_even_row(u, v, size, wide, w, vy, row, area.left, area.right);
        v2_row(u, v, size, wide, frame, row + 1, area.left, area.right);
    }
}

// The rows of the area, by either layout.
fn auxiliary_rows(
    layout: Layout,
    u: &mut [u8],
    v: &mut [u8],
    size: Size,
    area: Area,
    frame: Frame<'_>,
)
    requires area_fits { AreaFits size (length u.old) area.bottom area.left area.right }
    requires area_fits_2 { AreaFits size (length v.old) area.bottom area.left area.right }
    requires top_value { (area.top % 2 ≡ 0) × (area.bottom % 2 ≡ 0) }
    ensures u { u.new ≡ painted (stride_of size) (rows_of size) (auxiliary_in layout frame.entry.sizes area)
        (auxiliary_source layout CU frame.entry.sizes frame.entry.y.now frame.entry.u.now frame.entry.v.now) u.old }
    ensures v { v.new ≡ painted (stride_of size) (rows_of size) (auxiliary_in layout frame.entry.sizes area)
        (auxiliary_source layout CV frame.entry.sizes frame.entry.y.now frame.entry.u.now frame.entry.v.now) v.old }
{
    match layout {
        Layout::V1 => v1_rows(u, v, size, area, frame),
        Layout::V2(wide) => v2_rows(u, v, size, wide, area, frame),
    }
}

// What the view gives in the widened area of one rectangle.
fn auxiliary_rect(
    layout: Layout,
    u: &mut [u8],
    v: &mut [u8],
    size: Size,
    rect: Rect,
    frame: Frame<'_>,
)
    requires size_in_bounds { rows_of size * stride_of size ≤ length u.old }
    requires size_in_bounds_2 { rows_of size * stride_of size ≤ length v.old }
    ensures u { u.new ≡ painted (stride_of size) (rows_of size) (by (auxiliary_rule layout size frame.entry.sizes) rect)
        (auxiliary_source layout CU frame.entry.sizes frame.entry.y.now frame.entry.u.now frame.entry.v.now) u.old }
    ensures v { v.new ≡ painted (stride_of size) (rows_of size) (by (auxiliary_rule layout size frame.entry.sizes) rect)
        (auxiliary_source layout CV frame.entry.sizes frame.entry.y.now frame.entry.u.now frame.entry.v.now) v.old }
{
    let area = rects::chroma_block_area(size, rect.left, rect.top, rect.right, rect.bottom);
    if area.right <= area.left {
        return;
    }
    auxiliary_rows(layout, u, v, size, area, frame);
}

// What the view gives in any rectangle of the list. U and V go in one walk: of a small rectangle most of the work is to find its rows.
fn auxiliary_rects(
    layout: Layout,
    u: &mut [u8],
    v: &mut [u8],
    size: Size,
    rects: &[u16],
    frame: Frame<'_>,
)
    requires size_in_bounds { rows_of size * stride_of size ≤ length u.old }
    requires size_in_bounds_2 { rows_of size * stride_of size ≤ length v.old }
    ensures u { u.new ≡ auxiliary_after layout CU size frame.entry.sizes rects.now
        frame.entry.y.now frame.entry.u.now frame.entry.v.now u.old }
    ensures v { v.new ≡ auxiliary_after layout CV size frame.entry.sizes rects.now
        frame.entry.y.now frame.entry.u.now frame.entry.v.now v.old }
{
    for i in 0..rects.len() / 4 {
        let rect = rects::rect_at(rects, i);
        auxiliary_rect(layout, u, v, size, rect, frame);
    }
}

// The auxiliary view, of either layout, goes into the picture within the rectangles of the list (the Rust's apply_auxiliary_view).
pub fn apply_auxiliary_view(
    layout: Layout,
    size: Size,
    y: &mut [u8],
    u: &mut [u8],
    v: &mut [u8],
    rects: &[u16],
    w: View,
    vy: &[u8],
    vu: &[u8],
    vv: &[u8],
) -> Answer
    ensures { ApplyAuxiliaryViewOutcome layout size w rects.now
        vy.now vu.now vv.now y.old u.old v.old
        result (y.new ∷ u.new ∷ v.new ∷ []) }
{
    let frame = match rects::check(size, y.len(), u.len(), v.len(), rects.len(), w, vy, vu, vv) {
        Ok(frame) => frame,
        Err(refusal) => return Answer::refused(refusal),
    };
    auxiliary_rects(layout, u, v, size, rects, frame);
    Answer::done(0)
}
