// The two layouts agree (demand 3): a picture is sent one way onto one earlier picture and another way onto another, over one list. The
// demand's ways are V1 and V2, by either rule of its width; any two will do.
//
// Both then hold its luma at each pixel inside a rectangle and its chroma in each widened rectangle, and all other luma of their pixels
// and all other chroma is as before; the map of each has 2 in each block of a widened rectangle, and every other block is as before
// (agree_law/specs/Agrees.antt). `both` finds the first number that a step of either walk would give before
// it writes anything; a refusal changes no byte. Number and every lent byte are equations (agree_law/specs/Both.antt), and 0 comes with
// the theorem of both.
#![tactic(auto)]

pub mod one; // one way's calls

ghost use Rattle.std.specs.Prelude.{◌≡◌};
ghost use Rattle.lent.specs.Refused.{number_in};
ghost use Rattle.split.specs.Split.{at_entry, at_exit, split_number_of, planes};
ghost use Rattle.agree_law.specs.Through.{first_of, earlier_number_of};
ghost use Rattle.agree_law.specs.Both.{BothOutcome};

use layout::Way;
use lent::Answer;
use lent::refused::Refusal;
use picture::Size;
use split::PlaneLengths;

// Whether a step of both walks would be refused, and the first reason: the second earlier picture's is found before the first is written.
fn check(
    one: Way,
    other: Way,
    size: Size,
    from: PlaneLengths,
    main: PlaneLengths,
    auxiliary: PlaneLengths,
    first: PlaneLengths,
    first_nk: usize,
    second: PlaneLengths,
    second_nk: usize,
    nr: usize,
) -> Result<(), Refusal>
    ensures { number_in result ≡ first_of (first_of (split_number_of one size from main auxiliary) (earlier_number_of size first first_nk nr))
        (first_of (split_number_of other size from main auxiliary) (earlier_number_of size second second_nk nr)) }
{
    crate::one::check(one, size, from, main, auxiliary, first, first_nk, nr)?;
    crate::one::check(other, size, from, main, auxiliary, second, second_nk, nr)
}

// Sent one way onto the first earlier picture, then the other way onto the second, over one list, each with its map. The views' six buffers
// are the caller's, and are used for both.
pub fn both(
    one: Way,
    other: Way,
    size: Size,
    y: &[u8],
    u: &[u8],
    v: &[u8],
    rects: &[u16],
    main_y: &mut [u8],
    main_u: &mut [u8],
    main_v: &mut [u8],
    auxiliary_y: &mut [u8],
    auxiliary_u: &mut [u8],
    auxiliary_v: &mut [u8],
    first_y: &mut [u8],
    first_u: &mut [u8],
    first_v: &mut [u8],
    first_map: &mut [u8],
    second_y: &mut [u8],
    second_u: &mut [u8],
    second_v: &mut [u8],
    second_map: &mut [u8],
) -> Answer
    ensures { BothOutcome one other size rects.now (planes y.now u.now v.now)
        (at_entry main_y main_u main_v) (at_entry auxiliary_y auxiliary_u auxiliary_v)
        (at_entry first_y first_u first_v) first_map.old
        (at_entry second_y second_u second_v) second_map.old result
        (at_exit main_y main_u main_v) (at_exit auxiliary_y auxiliary_u auxiliary_v)
        (at_exit first_y first_u first_v) first_map.new
        (at_exit second_y second_u second_v) second_map.new }
{
    let from = PlaneLengths::of(y, u, v);
    let main = PlaneLengths::of(main_y, main_u, main_v);
    let auxiliary = PlaneLengths::of(auxiliary_y, auxiliary_u, auxiliary_v);
    let first = PlaneLengths::of(first_y, first_u, first_v);
    let second = PlaneLengths::of(second_y, second_u, second_v);
    let checked = check(
        one,
        other,
        size,
        from,
        main,
        auxiliary,
        first,
        first_map.len(),
        second,
        second_map.len(),
        rects.len(),
    );
    if let Err(refusal) = checked {
        return Answer::refused(refusal);
    }
    crate::one::through(
        one,
        size,
        y,
        u,
        v,
        rects,
        main_y,
        main_u,
        main_v,
        auxiliary_y,
        auxiliary_u,
        auxiliary_v,
        first_y,
        first_u,
        first_v,
        first_map,
    );
    crate::one::through(
        other,
        size,
        y,
        u,
        v,
        rects,
        main_y,
        main_u,
        main_v,
        auxiliary_y,
        auxiliary_u,
        auxiliary_v,
        second_y,
        second_u,
        second_v,
        second_map,
    )
}
