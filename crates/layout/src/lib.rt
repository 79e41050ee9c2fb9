// Where each layout keeps a chroma sample of the picture in the auxiliary view, and whose sample each spot of that view holds.
//
// A layout is two maps (specs/Maps.antt): `spot` says where a sample lives, so that an apply call reads it there, and `place` says whose
// sample a spot holds, so that a split writes it there. Each chroma place of a block is fed once: the two maps undo each other, proved
// for V1 and V2 by one record (specs/Fed.antt). The functions below are the numbers that the code above takes from the maps.
#![tactic(auto)]

ghost use Rattle.std.specs.Prelude.{◌≡◌, ◌+◌, ◌*◌, ◌/◌, ◌%◌, ◌<◌};
ghost use Rattle.lent.specs.Sizes.{round_up};
ghost use Rattle.layout.specs.Maps.{upper_of, wide_of, layout_of, exact_layout_of};
ghost use Rattle.layout.specs.Exists.{v2_odds_below_of, v2_evens_below_of};

// Which chroma plane of the picture.
#[derive(Clone, Copy)]
pub enum Chroma {
    CU,
    CV,
}

// How V2 finds its W: the view's width rounded up to 16, or the picture's rounded up to 32.
#[derive(Clone, Copy)]
pub enum WidthRule {
    To16,
    To32,
}

// Where an auxiliary view keeps the picture's chroma: V1, or V2 with its W, the width that is halved and quartered between U and V.
#[derive(Clone, Copy)]
pub enum Layout {
    V1,
    V2(usize),
}

// How a picture is sent: as V1, or as V2 by a rule (the Rust's Avc444Layout, whose V2 goes by the 16 rule).
#[derive(Clone, Copy)]
pub enum Way {
    AsV1,
    AsV2(WidthRule),
}

// V1: the luma row of the auxiliary view that has U of an odd row of the picture; V is 8 rows below (apply_auxiliary_v1, split).
pub fn upper(row: usize) -> usize
    ensures { result ≡ upper_of row }
{
    row - row % 16 + row % 16 / 2
}

// A width rounded up to two macroblocks.
pub fn round_up_32(n: u16) -> usize
    ensures { result ≡ round_up 32 n }
{
    (n as usize + 31) / 32 * 32
}

// V2: W, for a picture of width pw and a view of width vw (by the 16 rule as in apply_auxiliary_v2).
pub fn v2_width(rule: WidthRule, pw: u16, vw: u16) -> usize
    ensures { result ≡ wide_of rule pw vw }
{
    match rule {
        WidthRule::To16 => lent::round_up_16(vw),
        WidthRule::To32 => round_up_32(pw),
    }
}

// The layout of a view of width vw that was sent this way, for a picture of width pw.
pub fn layout_of(way: Way, pw: u16, vw: u16) -> Layout
    ensures { result ≡ layout_of way pw vw }
{
    match way {
        Way::AsV1 => Layout::V1,
        Way::AsV2(rule) => Layout::V2(v2_width(rule, pw, vw)),
    }
}

// The layout of a view from a server that does not round: W is the picture's own width. For apply alone; where it is no multiple of 4, two
// samples of chroma share a spot of the view (proofs/Exact.antt).
pub fn exact_layout(pw: u16) -> Layout
    ensures { result ≡ exact_layout_of pw }
{
    Layout::V2(pw as usize)
}

// V2: both samples of an odd column exist exactly below this column.
pub fn v2_odds_below(wide: usize, vw: u16) -> usize
    ensures { result ≡ v2_odds_below_of wide vw }
{
    let there = vw as usize;
    let half = wide / 2;
    if there < half {
        return 0;
    }
    2 * (there - half)
}

// V2: both samples of an even column of an odd row exist exactly below this column.
pub fn v2_evens_below(wide: usize, vw: u16) -> usize
    ensures { result ≡ v2_evens_below_of wide vw }
{
    let there = lent::half_up(vw);
    let quarter = wide / 4;
    if there < quarter {
        return 0;
    }
    4 * (there - quarter)
}
