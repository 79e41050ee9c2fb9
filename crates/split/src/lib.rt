// Both views of a picture: the main view, which any 4:2:0 decoder shows, and the auxiliary view with the chroma that the main view leaves
// out, laid out as V1 or V2, by either rule of its width (ports `Yuv444Frame::split`, which has V2's 16 rule).
//
// A split promises its number, the views' sizes and every byte of the six outputs, for every size and every length (specs/Split.antt):
// each plane of a view is written whole, no byte after it changes, and a refusal writes nothing. Number and sizes are found in `number`,
// and the planes are written in `both`.
#![tactic(auto)]

pub mod both; // both views, written
pub mod number; // whether it is refused, and the answer

ghost use Rattle.std.specs.Prelude.{[], ◌∷◌};
ghost use Rattle.split.specs.Split.{at_entry, SplitOutcome, planes};

pub use crate::number::{PlaneLengths, Views, check};
use layout::Way;

// Both views of the picture, in the way that is asked for. Ports `Yuv444Frame::split`.
pub fn split(
    way: Way,
    size: picture::Size,
    y: &[u8],
    u: &[u8],
    v: &[u8],
    main_y: &mut [u8],
    main_u: &mut [u8],
    main_v: &mut [u8],
    auxiliary_y: &mut [u8],
    auxiliary_u: &mut [u8],
    auxiliary_v: &mut [u8],
) -> Views
    ensures { SplitOutcome way size (planes y.now u.now v.now)
        (at_entry main_y main_u main_v) (at_entry auxiliary_y auxiliary_u auxiliary_v) result
        (main_y.new ∷ main_u.new ∷ main_v.new
        ∷ auxiliary_y.new ∷ auxiliary_u.new ∷ auxiliary_v.new ∷ []) }
{
    let from = PlaneLengths::of(y, u, v);
    let main = PlaneLengths::of(main_y, main_u, main_v);
    let auxiliary = PlaneLengths::of(auxiliary_y, auxiliary_u, auxiliary_v);
    let checked = check(way, size, from, main, auxiliary);
    if let Err(refusal) = checked {
        return Views::refused(refusal);
    }
    crate::both::both_views(
        way,
        size,
        y,
        u,
        v,
        main_y,
        main_u,
        main_v,
        auxiliary_y,
        auxiliary_u,
        auxiliary_v,
    );
    Views::of(way, size)
}
