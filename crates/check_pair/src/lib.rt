// Whether two views, made by whatever encoder, are the split of a picture; and if not, the first sample that is wrong.
//
// A check promises its number and its whole answer, for every size, stride, length and byte (specs/Checked.antt): yes exactly when both
// views have the sizes of the split's and every visible sample is the split's (proofs/Yes.antt), else a place that is wrong while each one
// before it is right (proofs/First.antt), or none where the sizes are not the split's. Nothing is written. The number is found in `number`,
// a row's first wrong sample in `rows`, a plane's, a view's and the pair's in `planes`.
#![tactic(auto)]

pub mod number; // whether it is refused, with 1, 5, 3 or 4
pub mod planes; // the verdict on a plane, a view and both
pub mod rows; // a row of a view beside what the split has there

ghost use Rattle.std.specs.Prelude.{◌≡◌};
ghost use Rattle.lent.specs.Refused.{number_of};
ghost use Rattle.split.specs.Split.{planes};
ghost use Rattle.check_pair.specs.Verdict.{index_of, order_of};
ghost use Rattle.check_pair.specs.Checked.{answered_of, refused_with, checked_of};

use layout::Way;
use lent::refused::Refusal;
use picture::Size;
use view::View;

// Which view of a pair.
#[derive(Clone, Copy)]
pub enum Sent {
    Main,
    Auxiliary,
}

impl Sent {
    // Its number in an answer.
    fn order(self) -> u8
        ensures { result ≡ order_of self }
    {
        match self {
            Sent::Main => 0,
            Sent::Auxiliary => 1,
        }
    }
}

// Which plane of a view.
#[derive(Clone, Copy)]
pub enum Name {
    YPlane,
    UPlane,
    VPlane,
}

impl Name {
    // Its number in an answer.
    fn index(self) -> u8
        ensures { result ≡ index_of self }
    {
        match self {
            Name::YPlane => 0,
            Name::UPlane => 1,
            Name::VPlane => 2,
        }
    }
}

// The picture's planes, and their stride.
#[derive(Clone, Copy)]
pub struct Source<'a> {
    pub y: &'a [u8],
    pub u: &'a [u8],
    pub v: &'a [u8],
    pub stride: usize,
}

// A sample of a pair of views: view 0 is the main one and 1 the auxiliary one, plane 0 is Y, 1 is U and 2 is V.
#[derive(Clone, Copy)]
pub struct Where {
    pub view: u8,
    pub plane: u8,
    pub row: u16,
    pub column: u16,
}

// What is said of a pair: it is the split, its sizes are not those of the split's views, or a sample is wrong, the first one of all.
#[derive(Clone, Copy)]
pub enum Verdict {
    Same,
    Sizes,
    Wrong(Where),
}

// What a check answers: 0 or the number of its refusal, whether the views are the split, whether a place is named, and the place.
// Flags beside numbers, and no Result of an Option: C is handed it as it is; `Verdict` is the form inside.
#[repr(C)]
#[derive(Clone, Copy)]
pub struct Checked {
    pub number: u32,
    pub same: bool,
    pub named: bool,
    pub view: u8,
    pub plane: u8,
    pub row: u16,
    pub column: u16,
}

// The answer that says no and names no place.
const NO: Checked = Checked {
    number: 0,
    same: false,
    named: false,
    view: 0,
    plane: 0,
    row: 0,
    column: 0,
};

impl Checked {
    // The answer with the number of a refusal.
    fn refused(refusal: Refusal) -> Self
        ensures { result ≡ refused_with (number_of refusal) }
    {
        Checked {
            number: refusal.number(),
            ..NO
        }
    }

    // The answer with a verdict.
    fn answered(verdict: Verdict) -> Self
        ensures { result ≡ answered_of verdict }
    {
        match verdict {
            Verdict::Same => Checked { same: true, ..NO },
            Verdict::Sizes => NO,
            Verdict::Wrong(at) => Checked {
                named: true,
                view: at.view,
                plane: at.plane,
                row: at.row,
                column: at.column,
                ..NO
            },
        }
    }
}

// Whether the views `main` and `auxiliary` are the split of the picture in the way that is asked for.
pub fn check(
    way: Way,
    size: Size,
    y: &[u8],
    u: &[u8],
    v: &[u8],
    main: View,
    main_y: &[u8],
    main_u: &[u8],
    main_v: &[u8],
    auxiliary: View,
    auxiliary_y: &[u8],
    auxiliary_u: &[u8],
    auxiliary_v: &[u8],
) -> Checked
    ensures { result ≡ checked_of way size (planes y.now u.now v.now) main (planes main_y.now main_u.now main_v.now)
        auxiliary (planes auxiliary_y.now auxiliary_u.now auxiliary_v.now) }
{
    let checked = number::check(
        way,
        size,
        y,
        u,
        v,
        main,
        main_y,
        main_u,
        main_v,
        auxiliary,
        auxiliary_y,
        auxiliary_u,
        auxiliary_v,
    );
    match checked {
        Err(refusal) => Checked::refused(refusal),
        Ok((first, second)) => {
            let stride = picture::stride(size);
            let from = Source { y, u, v, stride };
            Checked::answered(planes::pair_verdict(way, size, from, first, second))
        }
    }
}
