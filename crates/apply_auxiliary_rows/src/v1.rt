// One row of both chroma planes takes what an auxiliary view of the layout V1 gives it.
//
// Each function promises every byte of U and of V, in the words of specs/Rows.antt: the columns of the row that the view feeds become the
// view's samples, and every other byte is as before. U and V go in one pass: a sample is taken only where the view has it for both, so
// that the row's last column is found once. A row of the view that is absent ends the work that reads it.
ghost use Rattle.std.specs.Prelude.{◌≡◌, List, ℕ, ◌+◌, ◌%◌, length};
ghost use Rattle.lent.specs.Paint.{painted};
ghost use Rattle.picture.specs.Sizes.{stride_of, rows_of};
ghost use Rattle.layout.specs.declared.Chroma.TheVariants.{CU, CV};
ghost use Rattle.layout.specs.declared.Layout.TheVariants.{V1};
ghost use Rattle.apply_auxiliary_rows.specs.Rows.{auxiliary_source, auxiliary_row, AreaFits};

use picture::Size;
use view::frame::Frame;

// V1, an odd row: U from luma row n of the view and V from row n + 8, only if both exist.
fn v1_odd_row(
    u: &mut [u8],
    v: &mut [u8],
    size: Size,
    frame: Frame<'_>,
    row: usize,
    left: usize,
    right: usize,
)
    requires area_fits { AreaFits size (length u.old) (row + 1) left right }
    requires area_fits_2 { AreaFits size (length v.old) (row + 1) left right }
    requires row_value { row % 2 ≡ 1 }
    ensures u { (vu vv : List ℕ) → u.new ≡ painted (stride_of size) (rows_of size)
        (auxiliary_row V1 frame.entry.sizes row left right)
        (auxiliary_source V1 CU frame.entry.sizes frame.entry.y.now vu vv) u.old }
    ensures v { (vu vv : List ℕ) → v.new ≡ painted (stride_of size) (rows_of size)
        (auxiliary_row V1 frame.entry.sizes row left right)
        (auxiliary_source V1 CV frame.entry.sizes frame.entry.y.now vu vv) v.old }
{
    let plane = view::luma(frame.sizes);
    let stop = right.min(plane.width);
    if stop <= left {
        return;
    }
    let n = layout::upper(row);
    let Some(second) = crate::plane_row(frame.y, plane, n + 8) else {
        return;
    };
    let Some(first) = crate::plane_row(frame.y, plane, n) else {
        return;
    };
    let line = row * picture::stride(size);
    lent::copy_both(
        &mut u[line + left..line + stop],
        &mut v[line + left..line + stop],
        &first[left..stop],
        &second[left..stop],
    );
}

// V1, the odd columns of an even row: U from the view's U and V from its V. Both have the same rows, so that one start serves both: by `plane_row` of
// each, calls over small rectangles took up to a fifth longer.
fn v1_even_row(
    u: &mut [u8],
    v: &mut [u8],
    size: Size,
    frame: Frame<'_>,
    row: usize,
    left: usize,
    right: usize,
)
    requires area_fits { AreaFits size (length u.old) (row + 1) left right }
    requires area_fits_2 { AreaFits size (length v.old) (row + 1) left right }
    requires row_value { row % 2 ≡ 0 }
    ensures u { (vy : List ℕ) → u.new ≡ painted (stride_of size) (rows_of size)
        (auxiliary_row V1 frame.entry.sizes row left right)
        (auxiliary_source V1 CU frame.entry.sizes vy frame.entry.u.now frame.entry.v.now) u.old }
    ensures v { (vy : List ℕ) → v.new ≡ painted (stride_of size) (rows_of size)
        (auxiliary_row V1 frame.entry.sizes row left right)
        (auxiliary_source V1 CV frame.entry.sizes vy frame.entry.u.now frame.entry.v.now) v.old }
{
    let wide = lent::half_up(frame.sizes.width);
    let high = lent::half_up(frame.sizes.height);
    let Some(at) = view::row_start(frame.u.len(), frame.sizes.chroma_stride, high, row / 2) else {
        return;
    };
    let stop = right.min(2 * wide);
    if stop <= left {
        return;
    }
    let line = row * picture::stride(size);
    columns::both::put_odds(
        &mut u[line + left..line + stop],
        &mut v[line + left..line + stop],
        &frame.u[at + left / 2..at + stop / 2],
        &frame.v[at + left / 2..at + stop / 2],
    );
}

// V1, one row of both chroma planes (the loop's body in the Rust's apply_auxiliary_v1).
pub fn v1_row(
    u: &mut [u8],
    v: &mut [u8],
    size: Size,
    frame: Frame<'_>,
    row: usize,
    left: usize,
    right: usize,
)
    requires area_fits { AreaFits size (length u.old) (row + 1) left right }
    requires area_fits_2 { AreaFits size (length v.old) (row + 1) left right }
    ensures u { u.new ≡ painted (stride_of size) (rows_of size)
        (auxiliary_row V1 frame.entry.sizes row left right)
        (auxiliary_source V1 CU frame.entry.sizes frame.entry.y.now frame.entry.u.now frame.entry.v.now) u.old }
    ensures v { v.new ≡ painted (stride_of size) (rows_of size)
        (auxiliary_row V1 frame.entry.sizes row left right)
        (auxiliary_source V1 CV frame.entry.sizes frame.entry.y.now frame.entry.u.now frame.entry.v.now) v.old }
{
    if row % 2 == 1 {
        v1_odd_row(u, v, size, frame, row, left, right);
    } else {
        v1_even_row(u, v, size, frame, row, left, right);
    }
}
