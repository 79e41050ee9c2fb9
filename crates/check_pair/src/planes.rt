// The first wrong sample of a plane, of a view and of both: row by row, plane by plane, view by view; and the verdict on the pair.
ghost use Rattle.std.specs.Prelude.{◌≡◌, false, length};
ghost use Rattle.picture.specs.Sizes.{stride_of, planes_short};
ghost use Rattle.split.specs.Number.{split_wide_of, too_large};
ghost use Rattle.check_pair.specs.Verdict.{part_of, index_of, order_of, held_of, first_in, plane_verdict_of, view_verdict_of};
ghost use Rattle.check_pair.specs.Verdict.{pair_verdict_of, verdict_of};
ghost use Rattle.check_pair.specs.Rows.{PlaneWhole, ViewWhole, EachPlane, planes_in, planes_of};

use crate::{Name, Sent, Source, Verdict, Where};
use layout::{Layout, Way};
use picture::Size;
use view::Plane;
use view::frame::Frame;

// The first wrong sample of a plane, counted row by row; where there is none, how many it has.
fn plane_first(
    sent: Sent,
    layout: Layout,
    name: Name,
    plane: &[u8],
    p: Plane,
    from: Source<'_>,
) -> usize
    requires { EachPlane from (λ m. PlaneWhole name layout p (length plane.now) m from.stride) }
    ensures { result ≡ first_in (held_of sent layout from.entry.stride (planes_in from.entry) (part_of name)) p plane.now }
{
    let n = p.width;
    for line in 0..p.height {
        let start = line * p.stride;
        let found = crate::rows::held_row(sent, layout, name, &plane[start..start + n], from, line);
        if found < n {
            return line * n + found;
        }
    }
    p.height * n
}

// The first wrong sample of a plane, if there is one.
#[tactic(auto, unfolding(crate::specs::Verdict::plane_verdict_of))]
fn plane_verdict(
    sent: Sent,
    layout: Layout,
    name: Name,
    plane: &[u8],
    p: Plane,
    from: Source<'_>,
) -> Option<Where>
    requires { EachPlane from (λ m. PlaneWhole name layout p (length plane.now) m from.stride) }
    ensures { verdict_of result ≡ plane_verdict_of (order_of sent) (index_of name)
        (held_of sent layout from.entry.stride (planes_in from.entry) (part_of name)) p plane.now }
{
    let found = plane_first(sent, layout, name, plane, p, from);
    if found < p.height * p.width {
        Some(Where {
            view: sent.order(),
            plane: name.index(),
            row: (found / p.width) as u16,
            column: (found % p.width) as u16,
        })
    } else {
        None
    }
}

// The first wrong sample of a view, if there is one: of Y, then of U, then of V.
#[tactic(auto, unfolding(crate::specs::Verdict::view_verdict_of))]
fn view_verdict(sent: Sent, layout: Layout, frame: Frame<'_>, from: Source<'_>) -> Option<Where>
    requires { EachPlane from (λ m. ViewWhole layout frame.sizes m from.stride) }
    ensures { verdict_of result ≡ view_verdict_of sent layout from.entry.stride (planes_in from.entry) frame.entry.sizes (planes_of frame.entry) }
{
    let luma = view::luma(frame.sizes);
    if let Some(at) = plane_verdict(sent, layout, Name::YPlane, frame.y, luma, from) {
        return Some(at);
    }
    let chroma = view::chroma(frame.sizes);
    if let Some(at) = plane_verdict(sent, layout, Name::UPlane, frame.u, chroma, from) {
        return Some(at);
    }
    plane_verdict(sent, layout, Name::VPlane, frame.v, chroma, from)
}

// The verdict on both views: their sizes, then the main view, then the auxiliary one.
#[tactic(auto, unfolding(crate::specs::Verdict::pair_verdict_of))]
pub fn pair_verdict(
    way: Way,
    size: Size,
    from: Source<'_>,
    main: Frame<'_>,
    auxiliary: Frame<'_>,
) -> Verdict
    requires long { planes_short size (length from.y.now) (length from.u.now) (length from.v.now) ≡ false }
    requires small { too_large (split_wide_of way size) size ≡ false }
    requires stride { from.stride ≡ stride_of size }
    ensures { result ≡ pair_verdict_of way size (planes_in from.entry) main.entry.sizes (planes_of main.entry)
        auxiliary.entry.sizes (planes_of auxiliary.entry) }
{
    if !crate::number::sizes_agree(way, size, main.sizes)
        || !crate::number::sizes_agree(way, size, auxiliary.sizes)
    {
        return Verdict::Sizes;
    }
    let layout = split::number::split_layout(way, size);
    if let Some(at) = view_verdict(Sent::Main, layout, main, from) {
        return Verdict::Wrong(at);
    }
    match view_verdict(Sent::Auxiliary, layout, auxiliary, from) {
        Some(at) => Verdict::Wrong(at),
        None => Verdict::Same,
    }
}
