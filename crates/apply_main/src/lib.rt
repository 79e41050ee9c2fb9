// The main view goes into the picture: every rectangle of a list, refusals, and every byte of the three planes afterwards.
#![tactic(auto)]

pub mod rows; // one row of luma, one row of chroma

ghost use Rattle.std.specs.Prelude.{◌≡◌, [], ◌∷◌, ◌*◌, ◌%◌, ◌≤◌, length};
ghost use Rattle.lent.specs.Paint.{painted, up_to};
ghost use Rattle.lent.specs.Samples.{sample};
ghost use Rattle.lent.specs.Sizes.{half_up};
ghost use Rattle.picture.specs.Sizes.{stride_of, rows_of};
ghost use Rattle.view.specs.View.{luma_of, chroma_of};
ghost use Rattle.apply_main.specs.Rows.{MainRowsFit};
ghost use Rattle.rects.specs.Rects.{in_area, by};
ghost use Rattle.apply_main.specs.Main.{main_luma, main_chroma, halved, luma_after, chroma_after, ApplyMainViewOutcome};
ghost use Rattle.apply_main.specs.Fits.{RectFits};

use lent::Answer;
use picture::Size;
use rects::{Area, Rect};
use view::{Plane, View};

// The rows and columns of the area.
fn luma_rows(y: &mut [u8], size: Size, area: Area, from: Plane, vy: &[u8])
    requires { MainRowsFit size from (length y.old) (length vy.now)
        area.bottom area.left area.right area.right }
    ensures { y.new ≡ painted (stride_of size) (rows_of size) (up_to (in_area area) from.height)
        (sample vy.now from.stride) y.old }
{
    for row in area.top..area.bottom {
        crate::rows::luma_row(y, size, row, area.left, area.right, from, vy);
    }
}

// What the view's luma gives in one rectangle.
fn luma_rect(y: &mut [u8], size: Size, rect: Rect, w: View, vy: &[u8])
    requires { RectFits size (luma_of w) (length y.old) (length vy.now) }
    ensures { y.new ≡ painted (stride_of size) (rows_of size) (by (main_luma size w) rect)
        (sample vy.now w.luma_stride) y.old }
{
    let left = rects::luma_left(rect);
    let right = rects::luma_right(size, rect, w);
    let below = lent::least(rect.bottom as usize, size.height as usize);
    if left < right {
        let part = Area {
            left: left,
            top: rect.top as usize,
            right: right,
            bottom: below,
        };
        luma_rows(y, size, part, view::luma(w), vy);
    }
}

// What the view's luma gives in any rectangle of the list.
fn luma_rects(y: &mut [u8], size: Size, rects: &[u16], w: View, vy: &[u8])
    requires { RectFits size (luma_of w) (length y.old) (length vy.now) }
    ensures { y.new ≡ luma_after size w rects.now vy.now y.old }
{
    let count = rects.len() / 4;
    for i in 0..count {
        luma_rect(y, size, rects::rect_at(rects, i), w, vy);
    }
}

// The area's rows two at a time, where a row is neither so short nor so long that two at a time are slower. Answers the row that comes next: a
// `while`, since a `for` in steps of two would not say where it ended.
fn chroma_twos(plane: &mut [u8], size: Size, area: Area, from: Plane, samples: &[u8]) -> usize
    requires main_rows_fit { MainRowsFit size from (length plane.old) (length samples.now)
        area.bottom area.left area.right (half_up area.right) }
    requires top_value { (area.top % 2 ≡ 0) × (area.left % 2 ≡ 0) }
    ensures lower_bound { area.top ≤ result }
    ensures plane_after { plane.new ≡ painted (stride_of size) (rows_of size) (up_to (up_to (in_area area) (2 * from.height)) result)
        (halved samples.now from.stride) plane.old }
{
    let wide = area.right - area.left;
    let mut row = area.top;
    if wide < 16 {
        return row;
    }
    if 128 <= wide {
        return row;
    }
    while row + 1 < area.bottom {
        crate::rows::chroma_two(plane, size, row, area.left, area.right, from, samples);
        row += 2;
    }
    row
}

// The rows and columns of the area.
fn chroma_rows(plane: &mut [u8], size: Size, area: Area, from: Plane, samples: &[u8])
    requires main_rows_fit { MainRowsFit size from (length plane.old) (length samples.now)
        area.bottom area.left area.right (half_up area.right) }
    requires top_value { (area.top % 2 ≡ 0) × (area.left % 2 ≡ 0) }
    ensures { plane.new ≡ painted (stride_of size) (rows_of size) (up_to (in_area area) (2 * from.height))
        (halved samples.now from.stride) plane.old }
{
    let next = chroma_twos(plane, size, area, from, samples);
    for row in next..area.bottom {
        crate::rows::chroma_row(plane, size, row, area.left, area.right, from, samples);
    }
}

// What the view's U or V gives in one rectangle.
fn chroma_rect(plane: &mut [u8], size: Size, rect: Rect, w: View, samples: &[u8])
    requires { RectFits size (chroma_of w) (length plane.old) (length samples.now) }
    ensures { plane.new ≡ painted (stride_of size) (rows_of size) (by (main_chroma size w) rect)
        (halved samples.now w.chroma_stride) plane.old }
{
    let area = rects::chroma_block_area(size, rect.left, rect.top, rect.right, rect.bottom);
    let right = lent::least(area.right, w.width as usize);
    let below = lent::least(area.bottom, w.height as usize);
    if area.left < right {
        let part = Area {
            left: area.left,
            top: area.top,
            right: right,
            bottom: below,
        };
        chroma_rows(plane, size, part, view::chroma(w), samples);
    }
}

// What the view's U or V gives in any rectangle of the list. Apart from `luma_rects`: one function would take what a rectangle gives, and the words
// that say it, as parameters, and be no plainer.
fn chroma_rects(plane: &mut [u8], size: Size, rects: &[u16], w: View, samples: &[u8])
    requires { RectFits size (chroma_of w) (length plane.old) (length samples.now) }
    ensures { plane.new ≡ chroma_after size w rects.now samples.now plane.old }
{
    let count = rects.len() / 4;
    for i in 0..count {
        chroma_rect(plane, size, rects::rect_at(rects, i), w, samples);
    }
}

// The main view goes into the picture within the rectangles of the list (the Rust's apply_main_view).
pub fn apply_main_view(
    size: Size,
    y: &mut [u8],
    u: &mut [u8],
    v: &mut [u8],
    rects: &[u16],
    w: View,
    vy: &[u8],
    vu: &[u8],
    vv: &[u8],
) -> Answer
    ensures { ApplyMainViewOutcome size w rects.now
        vy.now vu.now vv.now y.old u.old v.old
        result (y.new ∷ u.new ∷ v.new ∷ []) }
{
    let checked = rects::check(size, y.len(), u.len(), v.len(), rects.len(), w, vy, vu, vv);
    if let Err(refusal) = checked {
        return Answer::refused(refusal);
    }
    luma_rects(y, size, rects, w, vy);
    chroma_rects(u, size, rects, w, vu);
    chroma_rects(v, size, rects, w, vv);
    Answer::done(0)
}
