// The apply calls over a picture and its map of stale colour (R75, R76).
//
// A call finds its number with the map, then runs the call that has no map (apply_main, apply_auxiliary), then marks: a main view sets 1, an
// auxiliary view turns 1 into 2, each in a box of blocks for each rectangle. No sample is looked at: which blocks a view completes is
// known from its size (specs/Boxes.antt), and two rectangles never complete together what neither does alone (proofs/Blocks.antt).
#![tactic(auto)]

ghost use Rattle.std.specs.Prelude.{◌≡◌, [], ◌∷◌, ◌*◌, ◌-◌, ◌/◌, ◌≤◌, min, length};
ghost use Rattle.lent.specs.Paint.{painted};
ghost use Rattle.lent.specs.Sizes.{round_up};
ghost use Rattle.rects.specs.Rects.{taken, by};
ghost use Rattle.map.specs.Map.{across_of, down_of, turned_at};
ghost use Rattle.map_apply.specs.Blocks.{map_after};
ghost use Rattle.map_apply.specs.Blocks.Call.{Main, Auxiliary};
ghost use Rattle.map_apply.specs.Boxes.{main_limits_of, auxiliary_limits_of, block_box_of, in_blocks};
ghost use Rattle.map_apply.specs.Calls.{MapMainOutcome, MapAuxiliaryOutcome};

use layout::Layout;
use lent::Answer;
use lent::refused::Refusal;
use picture::Size;
use rects::{Area, Rect};
use view::View;

// How many blocks, across and down, a view has what a call needs of.
#[derive(Clone, Copy)]
pub struct Limits {
    pub across: usize,
    pub down: usize,
}

// Those of which a main view has any chroma.
fn main_limits(w: View) -> Limits
    ensures { result ≡ main_limits_of w }
{
    Limits {
        across: lent::half_up(w.width),
        down: lent::half_up(w.height),
    }
}

// Those of which an auxiliary view has all three other samples.
fn auxiliary_limits(layout: Layout, w: View) -> Limits
    ensures { result ≡ auxiliary_limits_of layout w }
{
    let width = w.width as usize;
    let height = w.height as usize;
    match layout {
        Layout::V1 => Limits {
            across: width / 2,
            down: 8 * (height / 16) + (height % 16).saturating_sub(8),
        },
        Layout::V2(wide) => Limits {
            across: width.saturating_sub(wide / 2),
            down: height / 2,
        },
    }
}

// Where the blocks end of a rectangle that ends at `edge`, in a picture of that side: the widened area's half, below the limit. What does not
// depend on the rectangle is one number, which the compiler finds once for all of them.
fn blocks_end(edge: u16, side: u16, limit: usize) -> usize
    ensures { result ≡ min (round_up 2 (min edge side) / 2) limit }
{
    let most = lent::least(side as usize, 2 * lent::least(limit, 32768));
    (lent::least(edge as usize, most) + 1) / 2
}

// The blocks of a rectangle's widened area, below the limits.
fn block_box(size: Size, rect: Rect, limits: Limits) -> Area
    ensures { result ≡ block_box_of size limits rect.left rect.top rect.right rect.bottom }
{
    Area {
        left: rect.left as usize / 2,
        top: rect.top as usize / 2,
        right: blocks_end(rect.right, size.width, limits.across),
        bottom: blocks_end(rect.bottom, size.height, limits.down),
    }
}

// Each block of one rectangle becomes 1.
fn mark_rect(map: &mut [u8], size: Size, rect: Rect, limits: Limits)
    requires { down_of size * across_of size ≤ length map.old }
    ensures { map.new ≡ painted (across_of size) (down_of size) (by (in_blocks size limits) rect) (λ i j. 1) map.old }
{
    let any = block_box(size, rect, limits);
    if any.left < any.right {
        map::boxes::set_box(map, size, any, 1);
    }
}

// Each block of any rectangle of the list becomes 1.
fn mark_rects(map: &mut [u8], size: Size, rects: &[u16], limits: Limits)
    requires { down_of size * across_of size ≤ length map.old }
    ensures { map.new ≡ painted (across_of size) (down_of size) (taken (in_blocks size limits) rects.now)
        (λ i j. 1) map.old }
{
    let count = rects.len() / 4;
    for i in 0..count {
        mark_rect(map, size, rects::rect_at(rects, i), limits);
    }
}

// Each block of one rectangle that is 1 becomes 2.
fn complete_rect(map: &mut [u8], size: Size, rect: Rect, limits: Limits)
    requires { down_of size * across_of size ≤ length map.old }
    ensures { map.new ≡ painted (across_of size) (down_of size) (by (in_blocks size limits) rect)
        (turned_at map.old (across_of size)) map.old }
{
    let whole = block_box(size, rect, limits);
    if whole.left < whole.right {
        map::boxes::turn_box(map, size, whole);
    }
}

// Each block of any rectangle of the list that is 1 becomes 2. Apart from `mark_rects`: a block that was turned is not 1 any more, which its proof
// needs, and one function over both would take that as a parameter.
fn complete_rects(map: &mut [u8], size: Size, rects: &[u16], limits: Limits)
    requires { down_of size * across_of size ≤ length map.old }
    ensures { map.new ≡ painted (across_of size) (down_of size) (taken (in_blocks size limits) rects.now)
        (turned_at map.old (across_of size)) map.old }
{
    let count = rects.len() / 4;
    for i in 0..count {
        complete_rect(map, size, rects::rect_at(rects, i), limits);
    }
}

// The main view goes into the picture (apply_main::apply_main_view), and where it takes any chroma of a block the map becomes 1.
pub fn apply_main_view(
    size: Size,
    y: &mut [u8],
    u: &mut [u8],
    v: &mut [u8],
    map: &mut [u8],
    rects: &[u16],
    w: View,
    vy: &[u8],
    vu: &[u8],
    vv: &[u8],
) -> Answer
    ensures { MapMainOutcome size w rects.now
        vy.now vu.now vv.now
        y.old u.old v.old map.old
        result (y.new ∷ u.new ∷ v.new ∷ map.new ∷ []) }
{
    if map::map_short(size, map.len()) {
        return Answer::refused(Refusal::PictureShort);
    }
    let done = apply_main::apply_main_view(size, y, u, v, rects, w, vy, vu, vv);
    if done.number != 0 {
        return done;
    }
    mark_rects(map, size, rects, main_limits(w));
    done
}

// The auxiliary view, of either layout, goes into the picture (apply_auxiliary::apply_auxiliary_view), and where it takes all three other
// samples of a block that is 1 the map becomes 2.
pub fn apply_auxiliary_view(
    layout: Layout,
    size: Size,
    y: &mut [u8],
    u: &mut [u8],
    v: &mut [u8],
    map: &mut [u8],
    rects: &[u16],
    w: View,
    vy: &[u8],
    vu: &[u8],
    vv: &[u8],
) -> Answer
    ensures { MapAuxiliaryOutcome layout size w rects.now
        vy.now vu.now vv.now
        y.old u.old v.old map.old
        result (y.new ∷ u.new ∷ v.new ∷ map.new ∷ []) }
{
    let n = map.len();
    if map::map_short(size, n) {
        return Answer::refused(Refusal::PictureShort);
    }
    let given = apply_auxiliary::apply_auxiliary_view(layout, size, y, u, v, rects, w, vy, vu, vv);
    if given.number != 0 {
        return given;
    }
    complete_rects(map, size, rects, auxiliary_limits(layout, w));
    given
}
