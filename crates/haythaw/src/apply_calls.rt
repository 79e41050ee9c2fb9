// Views go into a picture and its map, within the rectangles of a list.
ghost use Rattle.std.specs.Prelude.{[], ◌∷◌};
ghost use Rattle.layout.specs.Maps.{layout_of, exact_layout_of};
ghost use Rattle.layout.specs.declared.Layout.TheVariants.{V1};
ghost use Rattle.layout.specs.declared.Way.TheVariants.{AsV2};
ghost use Rattle.layout.specs.declared.WidthRule.TheVariants.{To16, To32};
ghost use Rattle.haythaw.specs.Apply.{HaythawApplyMainViewOutcome, HaythawApplyAuxiliaryOutcome};
ghost use Rattle.haythaw.specs.Sizes.{sizes_of, size_of};

use layout::{Layout, Way, WidthRule};
use picture::Size;
use view::View;

// The main view: luma within the rectangles, chroma within the blocks that they touch; the map becomes 1 there. 0, 1, 7, 3 or 4.
#[unsafe(no_mangle)]
pub extern "C" fn haythaw_apply_main_view(
    width: u16,
    height: u16,
    y: &mut [u8],
    u: &mut [u8],
    v: &mut [u8],
    map: &mut [u8],
    rects: &[u16],
    view_width: u16,
    view_height: u16,
    luma_stride: usize,
    chroma_stride: usize,
    view_y: &[u8],
    view_u: &[u8],
    view_v: &[u8],
) -> u32
    ensures { HaythawApplyMainViewOutcome
        (size_of width height) (sizes_of view_width view_height luma_stride chroma_stride)
        rects.now view_y.now view_u.now view_v.now
        y.old u.old v.old map.old
        result (y.new ∷ u.new ∷ v.new ∷ map.new ∷ []) }
{
    let w = View {
        width: view_width,
        height: view_height,
        luma_stride,
        chroma_stride,
    };
    let size = Size { width, height };
    map_apply::apply_main_view(size, y, u, v, map, rects, w, view_y, view_u, view_v).number
}

// The auxiliary view of layout V1: the chroma that the main view leaves out, within the blocks that the rectangles touch; Y is lent and
// never written, and the map of a block that is 1 becomes 2 where the view completes it. 0, 1, 7, 3 or 4.
#[unsafe(no_mangle)]
pub extern "C" fn haythaw_apply_auxiliary_v1(
    width: u16,
    height: u16,
    y: &mut [u8],
    u: &mut [u8],
    v: &mut [u8],
    map: &mut [u8],
    rects: &[u16],
    view_width: u16,
    view_height: u16,
    luma_stride: usize,
    chroma_stride: usize,
    view_y: &[u8],
    view_u: &[u8],
    view_v: &[u8],
) -> u32
    ensures { HaythawApplyAuxiliaryOutcome
        V1 (size_of width height) (sizes_of view_width view_height luma_stride chroma_stride)
        rects.now view_y.now view_u.now view_v.now
        y.old u.old v.old map.old
        result (y.new ∷ u.new ∷ v.new ∷ map.new ∷ []) }
{
    let w = View {
        width: view_width,
        height: view_height,
        luma_stride,
        chroma_stride,
    };
    let size = Size { width, height };
    map_apply::apply_auxiliary_view(
        Layout::V1,
        size,
        y,
        u,
        v,
        map,
        rects,
        w,
        view_y,
        view_u,
        view_v,
    )
    .number
}

// The auxiliary view of layout V2 by the 16 rule, W being the view's width rounded up to 16; all else as above.
#[unsafe(no_mangle)]
pub extern "C" fn haythaw_apply_auxiliary_v2(
    width: u16,
    height: u16,
    y: &mut [u8],
    u: &mut [u8],
    v: &mut [u8],
    map: &mut [u8],
    rects: &[u16],
    view_width: u16,
    view_height: u16,
    luma_stride: usize,
    chroma_stride: usize,
    view_y: &[u8],
    view_u: &[u8],
    view_v: &[u8],
) -> u32
    ensures { HaythawApplyAuxiliaryOutcome
        (layout_of (AsV2 To16) width view_width) (size_of width height) (sizes_of view_width view_height luma_stride chroma_stride)
        rects.now view_y.now view_u.now view_v.now
        y.old u.old v.old map.old
        result (y.new ∷ u.new ∷ v.new ∷ map.new ∷ []) }
{
    let w = View {
        width: view_width,
        height: view_height,
        luma_stride,
        chroma_stride,
    };
    let size = Size { width, height };
    let layout = layout::layout_of(Way::AsV2(WidthRule::To16), width, view_width);
    map_apply::apply_auxiliary_view(
        layout, size, y, u, v, map, rects, w, view_y, view_u, view_v,
    ).number
}

// The auxiliary view of layout V2 by the 32 rule, W being the picture's width rounded up to 32; all else as above.
#[unsafe(no_mangle)]
pub extern "C" fn haythaw_apply_auxiliary_v2_32(
    width: u16,
    height: u16,
    y: &mut [u8],
    u: &mut [u8],
    v: &mut [u8],
    map: &mut [u8],
    rects: &[u16],
    view_width: u16,
    view_height: u16,
    luma_stride: usize,
    chroma_stride: usize,
    view_y: &[u8],
    view_u: &[u8],
    view_v: &[u8],
) -> u32
    ensures { HaythawApplyAuxiliaryOutcome
        (layout_of (AsV2 To32) width view_width) (size_of width height) (sizes_of view_width view_height luma_stride chroma_stride)
        rects.now view_y.now view_u.now view_v.now
        y.old u.old v.old map.old
        result (y.new ∷ u.new ∷ v.new ∷ map.new ∷ []) }
{
    let w = View {
        width: view_width,
        height: view_height,
        luma_stride,
        chroma_stride,
    };
    let size = Size { width, height };
    let layout = layout::layout_of(Way::AsV2(WidthRule::To32), width, view_width);
    map_apply::apply_auxiliary_view(
        layout, size, y, u, v, map, rects, w, view_y, view_u, view_v,
    ).number
}

// The auxiliary view of layout V2 by the rule Exact, W being the picture's width as it is; all else as above.
#[unsafe(no_mangle)]
pub extern "C" fn haythaw_apply_auxiliary_v2_exact(
    width: u16,
    height: u16,
    y: &mut [u8],
    u: &mut [u8],
    v: &mut [u8],
    map: &mut [u8],
    rects: &[u16],
    view_width: u16,
    view_height: u16,
    luma_stride: usize,
    chroma_stride: usize,
    view_y: &[u8],
    view_u: &[u8],
    view_v: &[u8],
) -> u32
    ensures { HaythawApplyAuxiliaryOutcome
        (exact_layout_of width) (size_of width height) (sizes_of view_width view_height luma_stride chroma_stride)
        rects.now view_y.now view_u.now view_v.now
        y.old u.old v.old map.old
        result (y.new ∷ u.new ∷ v.new ∷ map.new ∷ []) }
{
    let w = View {
        width: view_width,
        height: view_height,
        luma_stride,
        chroma_stride,
    };
    let size = Size { width, height };
    let layout = layout::exact_layout(width);
    map_apply::apply_auxiliary_view(
        layout, size, y, u, v, map, rects, w, view_y, view_u, view_v,
    ).number
}
