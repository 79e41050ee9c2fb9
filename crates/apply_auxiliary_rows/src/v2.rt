// One row of both chroma planes takes what an auxiliary view of the layout V2 gives it.
//
// Each function promises every byte of U and of V, in the words of specs/Rows.antt: the columns of the row that the view feeds become the
// view's samples, and every other byte is as before. U and V go in one pass: a row of the view has U's samples in its first half and V's
// in its second, and a sample is taken only where the view has it for both, so that the row's start and its last column are found once.
// A row of the view that is absent ends the work that reads it, and no other: the luma part and the chroma part of a row are two works.
// `wide` is W, and may be any number: whatever the rule that it comes from, what exists is taken.
ghost use Rattle.std.specs.Prelude.{◌≡◌, List, ℕ, ◌+◌, ◌%◌, ◌≤◌, length};
ghost use Rattle.lent.specs.Paint.{painted};
ghost use Rattle.picture.specs.Sizes.{stride_of, rows_of};
ghost use Rattle.view.specs.View.{luma_of, PlaneFits};
ghost use Rattle.layout.specs.declared.Chroma.TheVariants.{CU, CV};
ghost use Rattle.layout.specs.declared.Layout.TheVariants.{V2};
ghost use Rattle.columns.specs.Turns.{odd, even};
ghost use Rattle.apply_auxiliary_rows.specs.Rows.{auxiliary_source, auxiliary_row, auxiliary_only, AreaFits};

use picture::Size;
use view::View;
use view::frame::Frame;

// V2, the odd columns: from the view's luma row, of which U has the first half and V the second.
fn v2_odds(
    u: &mut [u8],
    v: &mut [u8],
    size: Size,
    wide: usize,
    w: View,
    vy: &[u8],
    row: usize,
    left: usize,
    right: usize,
)
    requires area_fits { AreaFits size (length u.old) (row + 1) left right }
    requires area_fits_2 { AreaFits size (length v.old) (row + 1) left right }
    requires plane_fits { PlaneFits (luma_of w) (length vy.now) }
    ensures u { (vu vv : List ℕ) → u.new ≡ painted (stride_of size) (rows_of size)
        (auxiliary_only odd (V2 wide) w row left right)
        (auxiliary_source (V2 wide) CU w vy.now vu vv) u.old }
    ensures v { (vu vv : List ℕ) → v.new ≡ painted (stride_of size) (rows_of size)
        (auxiliary_only odd (V2 wide) w row left right)
        (auxiliary_source (V2 wide) CV w vy.now vu vv) v.old }
{
    let stop = right.min(layout::v2_odds_below(wide, w.width));
    if stop <= left {
        return;
    }
    let Some(luma) = crate::plane_row(vy, view::luma(w), row) else {
        return;
    };
    let half = wide / 2;
    let line = row * picture::stride(size);
    columns::put_odds(&mut u[line + left..line + stop], &luma[left / 2..stop / 2]);
    columns::put_odds(
        &mut v[line + left..line + stop],
        &luma[half + left / 2..half + stop / 2],
    );
}

// V2, the even columns of an odd row: from the view's U and V rows by turns, of which U has the first half and V the second.
fn v2_evens(
    u: &mut [u8],
    v: &mut [u8],
    size: Size,
    wide: usize,
    frame: Frame<'_>,
    row: usize,
    left: usize,
    right: usize,
)
    requires area_fits { AreaFits size (length u.old) (row + 1) left right }
    requires area_fits_2 { AreaFits size (length v.old) (row + 1) left right }
    ensures u { (vy : List ℕ) → u.new ≡ painted (stride_of size) (rows_of size)
        (auxiliary_only even (V2 wide) frame.entry.sizes row left right)
        (auxiliary_source (V2 wide) CU frame.entry.sizes vy frame.entry.u.now frame.entry.v.now) u.old }
    ensures v { (vy : List ℕ) → v.new ≡ painted (stride_of size) (rows_of size)
        (auxiliary_only even (V2 wide) frame.entry.sizes row left right)
        (auxiliary_source (V2 wide) CV frame.entry.sizes vy frame.entry.u.now frame.entry.v.now) v.old }
{
    if row % 2 != 1 {
        return;
    }
    let stop = right.min(layout::v2_evens_below(wide, frame.sizes.width));
    if stop <= left {
        return;
    }
    let plane = view::chroma(frame.sizes);
    let Some(us) = crate::plane_row(frame.u, plane, row / 2) else {
        return;
    };
    let Some(vs) = crate::plane_row(frame.v, plane, row / 2) else {
        return;
    };
    let quarter = wide / 4;
    let from = left / 4;
    let to = (stop / 2 + 1) / 2;
    let line = row * picture::stride(size);
    columns::put_evens(
        &mut u[line + left..line + stop],
        &us[from..to],
        &vs[from..to],
        left / 2 % 2,
    );
    columns::put_evens(
        &mut v[line + left..line + stop],
        &us[quarter + from..quarter + to],
        &vs[quarter + from..quarter + to],
        left / 2 % 2,
    );
}

// V2, an odd row, in one pass as far as all its columns exist. Answers the column at which it stopped: what is left has one kind at most.
#[tactic(auto, using(crate::proofs::Columns::columns_empty))]
fn v2_together(
    u: &mut [u8],
    v: &mut [u8],
    size: Size,
    wide: usize,
    frame: Frame<'_>,
    row: usize,
    left: usize,
    right: usize,
) -> usize
    requires area_fits { AreaFits size (length u.old) (row + 1) left right }
    requires area_fits_2 { AreaFits size (length v.old) (row + 1) left right }
    ensures lower_bound { (left ≤ result) × (result ≤ right) × (result % 2 ≡ 0) }
    ensures u { u.new ≡ painted (stride_of size) (rows_of size)
        (auxiliary_row (V2 wide) frame.entry.sizes row left result)
        (auxiliary_source (V2 wide) CU frame.entry.sizes frame.entry.y.now frame.entry.u.now frame.entry.v.now) u.old }
    ensures v { v.new ≡ painted (stride_of size) (rows_of size)
        (auxiliary_row (V2 wide) frame.entry.sizes row left result)
        (auxiliary_source (V2 wide) CV frame.entry.sizes frame.entry.y.now frame.entry.u.now frame.entry.v.now) v.old }
{
    if row % 2 == 0 {
        return left;
    }
    let stop = right.min(layout::v2_odds_below(wide, frame.sizes.width));
    if stop <= left {
        return left;
    }
    let Some(luma) = crate::plane_row(frame.y, view::luma(frame.sizes), row) else {
        return left; // the even columns are still to do: row vh, at odd vh, has its chroma rows
    };
    let plane = view::chroma(frame.sizes);
    let Some(u_row) = crate::plane_row(frame.u, plane, row / 2) else {
        return left;
    };
    let Some(v_row) = crate::plane_row(frame.v, plane, row / 2) else {
        return left;
    };
    let (half, quarter) = (wide / 2, wide / 4);
    let from = left / 4;
    let to = (stop / 2 + 1) / 2;
    let line = row * picture::stride(size);
    columns::put_full(
        &mut u[line + left..line + stop],
        &luma[left / 2..stop / 2],
        &u_row[from..to],
        &v_row[from..to],
        left / 2 % 2,
    );
    columns::put_full(
        &mut v[line + left..line + stop],
        &luma[half + left / 2..half + stop / 2],
        &u_row[quarter + from..quarter + to],
        &v_row[quarter + from..quarter + to],
        left / 2 % 2,
    );
    stop
}

// V2, one row of both chroma planes (the loop's body in the Rust's apply_auxiliary_v2).
pub fn v2_row(
    u: &mut [u8],
    v: &mut [u8],
    size: Size,
    wide: usize,
    frame: Frame<'_>,
    row: usize,
    left: usize,
    right: usize,
)
    requires area_fits { AreaFits size (length u.old) (row + 1) left right }
    requires area_fits_2 { AreaFits size (length v.old) (row + 1) left right }
    ensures u { u.new ≡ painted (stride_of size) (rows_of size)
        (auxiliary_row (V2 wide) frame.entry.sizes row left right)
        (auxiliary_source (V2 wide) CU frame.entry.sizes frame.entry.y.now frame.entry.u.now frame.entry.v.now) u.old }
    ensures v { v.new ≡ painted (stride_of size) (rows_of size)
        (auxiliary_row (V2 wide) frame.entry.sizes row left right)
        (auxiliary_source (V2 wide) CV frame.entry.sizes frame.entry.y.now frame.entry.u.now frame.entry.v.now) v.old }
{
    let mid = v2_together(u, v, size, wide, frame, row, left, right);
    v2_odds(u, v, size, wide, frame.sizes, frame.y, row, mid, right);
    v2_evens(u, v, size, wide, frame, row, mid, right);
}

// V2, one even row of both chroma planes: its odd columns alone, since the main view has the even ones. It needs no chroma row of the view.
pub fn v2_even_row(
    u: &mut [u8],
    v: &mut [u8],
    size: Size,
    wide: usize,
    w: View,
    vy: &[u8],
    row: usize,
    left: usize,
    right: usize,
)
    requires row_value { row % 2 ≡ 0 }
    requires area_fits { AreaFits size (length u.old) (row + 1) left right }
    requires area_fits_2 { AreaFits size (length v.old) (row + 1) left right }
    requires plane_fits { PlaneFits (luma_of w) (length vy.now) }
    ensures u { (vu vv : List ℕ) → u.new ≡ painted (stride_of size) (rows_of size)
        (auxiliary_row (V2 wide) w row left right)
        (auxiliary_source (V2 wide) CU w vy.now vu vv) u.old }
    ensures v { (vu vv : List ℕ) → v.new ≡ painted (stride_of size) (rows_of size)
        (auxiliary_row (V2 wide) w row left right)
        (auxiliary_source (V2 wide) CV w vy.now vu vv) v.old }
{
    v2_odds(u, v, size, wide, w, vy, row, left, right);
}
