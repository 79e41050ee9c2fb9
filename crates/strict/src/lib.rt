// Strict forms of the apply calls (R86): a list of which any rectangle is unsound is refused whole, with 12, where the clipping forms cut it.
//
// A strict call finds its number first, the list tested between 7 and 3, and answers it; with 0 it runs the clipping call of map_apply, so that
// what an accepted call leaves is what that call leaves (proofs/Laws.antt). `first_unsound` says which rectangle it was, for a log.
#![tactic(auto)]

pub mod lists; // the faults of a rectangle, and a list searched for one

ghost use Rattle.std.specs.Prelude.{◌≡◌, [], ◌∷◌, length};
ghost use Rattle.lent.specs.Refused.{number_in};
ghost use Rattle.strict.specs.Sound.{none_unsound, first_unsound_of};
ghost use Rattle.strict.specs.Calls.{strict_number_of, StrictMainOutcome, StrictAuxiliaryOutcome};

use layout::Layout;
use lent::Answer;
use lent::refused::Refusal;
use picture::Size;
use view::View;

// The first unsound rectangle of a list: whether there is one, its fault (1 to 4) and its index; both are 0 where there is none. The number is
// 0, or 7 where the list's length is no multiple of 4, and then none is looked for.
// A flag beside numbers, and no Option: C is handed it as it is.
#[repr(C)]
#[derive(Clone, Copy)]
pub struct Unsound {
    pub number: u32,
    pub present: bool,
    pub fault: u8,
    pub index: usize,
}

// The answer where no unsound rectangle is named.
fn none(number: u32) -> Unsound
    ensures { result ≡ none_unsound number }
{
    Unsound {
        number,
        present: false,
        fault: 0,
        index: 0,
    }
}

// What a log says of a list that was refused (R87).
pub fn first_unsound(size: Size, rects: &[u16]) -> Unsound
    ensures { result ≡ first_unsound_of size rects.now }
{
    if rects.len() % 4 != 0 {
        return none(Refusal::ListUneven.number());
    }
    let Some(index) = lists::first_unsound_index(size, rects) else {
        return none(0);
    };
    let fault = lists::fault_of(size, rects::rect_at(rects, index));
    Unsound {
        number: 0,
        present: true,
        fault: lists::number(fault),
        index,
    }
}

// Whether a strict call is refused, and why: the picture's planes and its map are ny, nu, nv and nm bytes long.
fn check(
    size: Size,
    ny: usize,
    nu: usize,
    nv: usize,
    nm: usize,
    rects: &[u16],
    w: View,
    vy: &[u8],
    vu: &[u8],
    vv: &[u8],
) -> Result<(), Refusal>
    ensures { number_in result ≡ strict_number_of size w rects.now ny nu nv nm
        (length vy.now) (length vu.now) (length vv.now) }
{
    if map::map_short(size, nm) {
        return Err(Refusal::PictureShort);
    }
    if picture::planes_short(size, ny, nu, nv) {
        return Err(Refusal::PictureShort);
    }
    if rects.len() % 4 != 0 {
        return Err(Refusal::ListUneven);
    }
    if lists::unsound(size, rects) {
        return Err(Refusal::RectangleUnsound);
    }
    view::check(w, vy, vu, vv)
}

// The main view goes into the picture and its map as by map_apply::apply_main_view, if every rectangle is sound.
pub fn apply_main_view_strict(
    size: Size,
    y: &mut [u8],
    u: &mut [u8],
    v: &mut [u8],
    map: &mut [u8],
    rects: &[u16],
    w: View,
    vy: &[u8],
    vu: &[u8],
    vv: &[u8],
) -> Answer
    ensures { StrictMainOutcome size w rects.now
        vy.now vu.now vv.now
        y.old u.old v.old map.old
        result (y.new ∷ u.new ∷ v.new ∷ map.new ∷ []) }
{
    let checked = check(
        size,
        y.len(),
        u.len(),
        v.len(),
        map.len(),
        rects,
        w,
        vy,
        vu,
        vv,
    );
    if let Err(refusal) = checked {
        return Answer::refused(refusal);
    }
    map_apply::apply_main_view(size, y, u, v, map, rects, w, vy, vu, vv)
}

// The auxiliary view, of either layout, goes into the picture and its map as by map_apply::apply_auxiliary_view, if every rectangle is sound.
pub fn apply_auxiliary_view_strict(
    layout: Layout,
    size: Size,
    y: &mut [u8],
    u: &mut [u8],
    v: &mut [u8],
    map: &mut [u8],
    rects: &[u16],
    w: View,
    vy: &[u8],
    vu: &[u8],
    vv: &[u8],
) -> Answer
    ensures { StrictAuxiliaryOutcome layout size w rects.now
        vy.now vu.now vv.now
        y.old u.old v.old map.old
        result (y.new ∷ u.new ∷ v.new ∷ map.new ∷ []) }
{
    let found = check(
        size,
        y.len(),
        u.len(),
        v.len(),
        map.len(),
        rects,
        w,
        vy,
        vu,
        vv,
    );
    if let Err(why) = found {
        return Answer::refused(why);
    }
    map_apply::apply_auxiliary_view(layout, size, y, u, v, map, rects, w, vy, vu, vv)
}
