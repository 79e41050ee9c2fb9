// One walk: a picture is split in the way that it is sent, and its views go into an earlier picture over a list of rectangles, by the calls themselves.
//
// Whatever the way, the earlier picture then holds the picture's luma at each pixel inside a rectangle and its chroma in each widened
// rectangle, and all other luma of its pixels and all other chroma is as before; its map of stale colour has 2 in each block of a widened
// rectangle, and every other block is as before (agree_law/specs/Agrees.antt). `through` finds the first number that a step would give before
// it writes anything; a refusal changes no byte. Number and every lent byte are equations (agree_law/specs/Through.antt), and 0 comes with
// the theorem.
ghost use Rattle.std.specs.Prelude.{◌≡◌};
ghost use Rattle.lent.specs.Refused.{number_in};
ghost use Rattle.split.specs.Split.{at_entry, at_exit, split_number_of, planes};
ghost use Rattle.agree_law.specs.Through.{view_in, first_of, earlier_number_of, ThroughOutcome};

use layout::Way;
use lent::Answer;
use lent::refused::Refusal;
use picture::Size;
use split::PlaneLengths;
use view::View;

// What the apply calls can refuse: 1, which covers the map, its length being nk, or 7. The views of a split are neither narrow nor short, so
// 3 and 4 cannot arise.
fn check_earlier(size: Size, earlier: PlaneLengths, nk: usize, nr: usize) -> Result<(), Refusal>
    ensures { number_in result ≡ earlier_number_of size earlier nk nr }
{
    if picture::planes_short(size, earlier.y, earlier.u, earlier.v) {
        return Err(Refusal::PictureShort);
    }
    if map::map_short(size, nk) {
        return Err(Refusal::PictureShort);
    }
    if nr % 4 != 0 {
        return Err(Refusal::ListUneven);
    }
    Ok(())
}

// Whether a step would be refused, and the first reason: the split's, or an apply call's.
pub fn check(
    way: Way,
    size: Size,
    from: PlaneLengths,
    main: PlaneLengths,
    auxiliary: PlaneLengths,
    earlier: PlaneLengths,
    nk: usize,
    nr: usize,
) -> Result<(), Refusal>
    ensures { number_in result ≡ first_of (split_number_of way size from main auxiliary) (earlier_number_of size earlier nk nr) }
{
    split::check(way, size, from, main, auxiliary)?;
    check_earlier(size, earlier, nk, nr)
}

// The size of both views, as a split answers it.
fn view_of(views: split::Views) -> View
    ensures { result ≡ view_in views }
{
    View {
        width: views.width,
        height: views.height,
        luma_stride: views.luma_stride,
        chroma_stride: views.chroma_stride,
    }
}

// The picture y, u, v is split this way, and the main view and then the auxiliary view go into the earlier picture qy, qu, qv, whose map is
// q_map, over the list. The views' six buffers are the caller's.
pub fn through(
    way: Way,
    size: Size,
    y: &[u8],
    u: &[u8],
    v: &[u8],
    rects: &[u16],
    main_y: &mut [u8],
    main_u: &mut [u8],
    main_v: &mut [u8],
    auxiliary_y: &mut [u8],
    auxiliary_u: &mut [u8],
    auxiliary_v: &mut [u8],
    qy: &mut [u8],
    qu: &mut [u8],
    qv: &mut [u8],
    q_map: &mut [u8],
) -> Answer
    ensures { ThroughOutcome way size rects.now (planes y.now u.now v.now)
        (at_entry main_y main_u main_v) (at_entry auxiliary_y auxiliary_u auxiliary_v) (at_entry qy qu qv) q_map.old result
        (at_exit main_y main_u main_v) (at_exit auxiliary_y auxiliary_u auxiliary_v) (at_exit qy qu qv) q_map.new }
{
    let from = PlaneLengths::of(y, u, v);
    let main = PlaneLengths::of(main_y, main_u, main_v);
    let auxiliary = PlaneLengths::of(auxiliary_y, auxiliary_u, auxiliary_v);
    let earlier = PlaneLengths::of(qy, qu, qv);
    let checked = check(
        way,
        size,
        from,
        main,
        auxiliary,
        earlier,
        q_map.len(),
        rects.len(),
    );
    if let Err(refusal) = checked {
        return Answer::refused(refusal);
    }
    let views = split::split(
        way,
        size,
        y,
        u,
        v,
        main_y,
        main_u,
        main_v,
        auxiliary_y,
        auxiliary_u,
        auxiliary_v,
    );
    let w = view_of(views);
    let layout = layout::layout_of(way, size.width, w.width);
    map_apply::apply_main_view(size, qy, qu, qv, q_map, rects, w, main_y, main_u, main_v);
    map_apply::apply_auxiliary_view(
        layout,
        size,
        qy,
        qu,
        qv,
        q_map,
        rects,
        w,
        auxiliary_y,
        auxiliary_u,
        auxiliary_v,
    )
}
