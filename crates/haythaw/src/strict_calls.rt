// The strict forms of the calls of apply_calls: a list of which any rectangle is unsound is refused whole, with 12. And which one it was.
ghost use Rattle.std.specs.Prelude.{◌≡◌, [], ◌∷◌};
ghost use Rattle.layout.specs.Maps.{layout_of, exact_layout_of};
ghost use Rattle.layout.specs.declared.Layout.TheVariants.{V1};
ghost use Rattle.layout.specs.declared.Way.TheVariants.{AsV2};
ghost use Rattle.layout.specs.declared.WidthRule.TheVariants.{To16, To32};
ghost use Rattle.strict.specs.Sound.{first_unsound_of};
ghost use Rattle.haythaw.specs.Sizes.{sizes_of, size_of};
ghost use Rattle.haythaw.specs.Strict.{HaythawApplyMainViewStrictOutcome, HaythawApplyAuxiliaryStrictOutcome};

use layout::{Layout, Way, WidthRule};
use picture::Size;
use view::View;

// Which rectangle of a list is the first unsound one, and what its fault is, for a log; it looks at the list alone. Its number is 0 or 7.
#[unsafe(no_mangle)]
pub extern "C" fn haythaw_first_unsound(width: u16, height: u16, rects: &[u16]) -> strict::Unsound
    ensures { result ≡ first_unsound_of (size_of width height) rects.now }
{
    strict::first_unsound(Size { width, height }, rects)
}

// The main view, as by `haythaw_apply_main_view`, if every rectangle of the list is sound. 0, 1, 7, 12, 3 or 4.
#[unsafe(no_mangle)]
pub extern "C" fn haythaw_apply_main_view_strict(
    width: u16,
    height: u16,
    y: &mut [u8],
    u: &mut [u8],
    v: &mut [u8],
    map: &mut [u8],
    rects: &[u16],
    view_width: u16,
    view_height: u16,
    luma_stride: usize,
    chroma_stride: usize,
    view_y: &[u8],
    view_u: &[u8],
    view_v: &[u8],
) -> u32
    ensures { HaythawApplyMainViewStrictOutcome
        (size_of width height) (sizes_of view_width view_height luma_stride chroma_stride)
        rects.now view_y.now view_u.now view_v.now
        y.old u.old v.old map.old
        result (y.new ∷ u.new ∷ v.new ∷ map.new ∷ []) }
{
    let w = View {
        width: view_width,
        height: view_height,
        luma_stride,
        chroma_stride,
    };
    let size = Size { width, height };
    strict::apply_main_view_strict(size, y, u, v, map, rects, w, view_y, view_u, view_v).number
}

// The auxiliary view of layout V1, as by `haythaw_apply_auxiliary_v1`, if every rectangle of the list is sound. 0, 1, 7, 12, 3 or 4.
#[unsafe(no_mangle)]
pub extern "C" fn haythaw_apply_auxiliary_v1_strict(
    width: u16,
    height: u16,
    y: &mut [u8],
    u: &mut [u8],
    v: &mut [u8],
    map: &mut [u8],
    rects: &[u16],
    view_width: u16,
    view_height: u16,
    luma_stride: usize,
    chroma_stride: usize,
    view_y: &[u8],
    view_u: &[u8],
    view_v: &[u8],
) -> u32
    ensures { HaythawApplyAuxiliaryStrictOutcome
        V1 (size_of width height) (sizes_of view_width view_height luma_stride chroma_stride)
        rects.now view_y.now view_u.now view_v.now
        y.old u.old v.old map.old
        result (y.new ∷ u.new ∷ v.new ∷ map.new ∷ []) }
{
    let w = View {
        width: view_width,
        height: view_height,
        luma_stride,
        chroma_stride,
    };
    let size = Size { width, height };
    strict::apply_auxiliary_view_strict(
        Layout::V1,
        size,
        y,
        u,
        v,
        map,
        rects,
        w,
        view_y,
        view_u,
        view_v,
    )
    .number
}

// The same of layout V2 by the 16 rule, as by `haythaw_apply_auxiliary_v2`. 0, 1, 7, 12, 3 or 4.
#[unsafe(no_mangle)]
pub extern "C" fn haythaw_apply_auxiliary_v2_strict(
    width: u16,
    height: u16,
    y: &mut [u8],
    u: &mut [u8],
    v: &mut [u8],
    map: &mut [u8],
    rects: &[u16],
    view_width: u16,
    view_height: u16,
    luma_stride: usize,
    chroma_stride: usize,
    view_y: &[u8],
    view_u: &[u8],
    view_v: &[u8],
) -> u32
    ensures { HaythawApplyAuxiliaryStrictOutcome
        (layout_of (AsV2 To16) width view_width) (size_of width height) (sizes_of view_width view_height luma_stride chroma_stride)
        rects.now view_y.now view_u.now view_v.now
        y.old u.old v.old map.old
        result (y.new ∷ u.new ∷ v.new ∷ map.new ∷ []) }
{
    let w = View {
        width: view_width,
        height: view_height,
        luma_stride,
        chroma_stride,
    };
    let size = Size { width, height };
    let layout = layout::layout_of(Way::AsV2(WidthRule::To16), width, view_width);
    strict::apply_auxiliary_view_strict(
        layout, size, y, u, v, map, rects, w, view_y, view_u, view_v,
    ).number
}

// The same of layout V2 by the 32 rule, as by `haythaw_apply_auxiliary_v2_32`. 0, 1, 7, 12, 3 or 4.
#[unsafe(no_mangle)]
pub extern "C" fn haythaw_apply_auxiliary_v2_32_strict(
    width: u16,
    height: u16,
    y: &mut [u8],
    u: &mut [u8],
    v: &mut [u8],
    map: &mut [u8],
    rects: &[u16],
    view_width: u16,
    view_height: u16,
    luma_stride: usize,
    chroma_stride: usize,
    view_y: &[u8],
    view_u: &[u8],
    view_v: &[u8],
) -> u32
    ensures { HaythawApplyAuxiliaryStrictOutcome
        (layout_of (AsV2 To32) width view_width) (size_of width height) (sizes_of view_width view_height luma_stride chroma_stride)
        rects.now view_y.now view_u.now view_v.now
        y.old u.old v.old map.old
        result (y.new ∷ u.new ∷ v.new ∷ map.new ∷ []) }
{
    let w = View {
        width: view_width,
        height: view_height,
        luma_stride,
        chroma_stride,
    };
    let size = Size { width, height };
    let layout = layout::layout_of(Way::AsV2(WidthRule::To32), width, view_width);
    strict::apply_auxiliary_view_strict(
        layout, size, y, u, v, map, rects, w, view_y, view_u, view_v,
    ).number
}

// The same of layout V2 by the rule Exact, as by `haythaw_apply_auxiliary_v2_exact`. 0, 1, 7, 12, 3 or 4.
#[unsafe(no_mangle)]
pub extern "C" fn haythaw_apply_auxiliary_v2_exact_strict(
    width: u16,
    height: u16,
    y: &mut [u8],
    u: &mut [u8],
    v: &mut [u8],
    map: &mut [u8],
    rects: &[u16],
    view_width: u16,
    view_height: u16,
    luma_stride: usize,
    chroma_stride: usize,
    view_y: &[u8],
    view_u: &[u8],
    view_v: &[u8],
) -> u32
    ensures { HaythawApplyAuxiliaryStrictOutcome
        (exact_layout_of width) (size_of width height) (sizes_of view_width view_height luma_stride chroma_stride)
        rects.now view_y.now view_u.now view_v.now
        y.old u.old v.old map.old
        result (y.new ∷ u.new ∷ v.new ∷ map.new ∷ []) }
{
    let w = View {
        width: view_width,
        height: view_height,
        luma_stride,
        chroma_stride,
    };
    let size = Size { width, height };
    let layout = layout::exact_layout(width);
    strict::apply_auxiliary_view_strict(
        layout, size, y, u, v, map, rects, w, view_y, view_u, view_v,
    ).number
}
