// Rectangle lists, the widened area, the columns whose luma a rectangle takes, and the refusals of an apply call.
#![tactic(auto)]

ghost use Rattle.std.specs.Prelude.{◌≡◌, ◌*◌, ◌/◌, ◌<◌, min, length, IfOk};
ghost use Rattle.lent.specs.Refused.{number_in};
ghost use Rattle.view.specs.Over.{Over};
ghost use Rattle.lent.specs.Sizes.{round_up};
ghost use Rattle.rects.specs.Rects.{chroma_block_area_of, rect_at_of};
ghost use Rattle.rects.specs.Number.{apply_number_of};

use lent::refused::Refusal;
use picture::Size;
use view::View;
use view::frame::Frame;

// A rectangle of a list, or one that is shown: right and bottom are exclusive.
#[derive(Clone, Copy)]
pub struct Rect {
    pub left: u16,
    pub top: u16,
    pub right: u16,
    pub bottom: u16,
}

// Rows from top to below bottom, columns from left to below right.
#[derive(Clone, Copy)]
pub struct Area {
    pub left: usize,
    pub top: usize,
    pub right: usize,
    pub bottom: usize,
}

// Rectangle i of a list.
pub fn rect_at(rects: &[u16], i: usize) -> Rect
    requires { i < length rects.now / 4 }
    ensures { result ≡ rect_at_of rects.now i }
{
    let at = 4 * i;
    Rect {
        left: rects[at],
        top: rects[at + 1],
        right: rects[at + 2],
        bottom: rects[at + 3],
    }
}

// A left or top edge of the widened area: rounded down to even.
fn edge_down(edge: u16) -> usize
    ensures { result ≡ edge / 2 * 2 }
{
    edge as usize / 2 * 2
}

// A right or bottom edge of the widened area: clipped to the picture and rounded up to even.
fn edge_up(edge: u16, limit: u16) -> usize
    ensures { result ≡ round_up 2 (min edge limit) }
{
    let clipped = lent::least(edge as usize, limit as usize);
    lent::round_up_2(clipped as u16)
}

// The widened area of a rectangle (the Rust's chroma_block_area; an empty area is one whose edges meet or cross).
pub fn chroma_block_area(size: Size, left: u16, top: u16, right: u16, bottom: u16) -> Area
    ensures { result ≡ chroma_block_area_of size left top right bottom }
{
    Area {
        left: edge_down(left),
        top: edge_down(top),
        right: edge_up(right, size.width),
        bottom: edge_up(bottom, size.height),
    }
}

// Luma starts at the rectangle's own left edge, and not at the area's ...
pub fn luma_left(rect: Rect) -> usize
    ensures { result ≡ rect.left }
{
    rect.left as usize
}

// ... and ends at the least of right, area right and the view's width: at odd picture width one column more may be taken.
pub fn luma_right(size: Size, rect: Rect, w: View) -> usize
    ensures { result ≡ min (min rect.right (round_up 2 (min rect.right size.width))) w.width }
{
    let right = lent::least(rect.right as usize, edge_up(rect.right, size.width));
    lent::least(right, w.width as usize)
}

// The view of an apply call, or why it is refused: the picture's planes are ny, nu and nv bytes long, the list is nr numbers long.
pub fn check<'a>(
    size: Size,
    ny: usize,
    nu: usize,
    nv: usize,
    nr: usize,
    w: View,
    vy: &'a [u8],
    vu: &'a [u8],
    vv: &'a [u8],
) -> Result<Frame<'a>, Refusal>
    ensures number { number_in result
        ≡ apply_number_of size w ny nu nv nr (length vy.now) (length vu.now) (length vv.now) }
    ensures over { IfOk result (λ frame. Over frame w vy.entry vu.entry vv.entry) }
{
    if picture::planes_short(size, ny, nu, nv) {
        return Err(Refusal::PictureShort);
    }
    if nr % 4 != 0 {
        return Err(Refusal::ListUneven);
    }
    Frame::new(w, vy, vu, vv)
}
