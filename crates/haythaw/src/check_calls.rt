// Whether two views are the split of a picture, and if not, the first sample that is wrong.
ghost use Rattle.std.specs.Prelude.{◌≡◌};
ghost use Rattle.layout.specs.declared.Way.TheVariants.{AsV1, AsV2};
ghost use Rattle.layout.specs.declared.WidthRule.TheVariants.{To16, To32};
ghost use Rattle.split.specs.Split.{planes};
ghost use Rattle.check_pair.specs.Checked.{checked_of};
ghost use Rattle.haythaw.specs.Sizes.{sizes_of, size_of};

use check_pair::Checked;
use layout::{Way, WidthRule};
use picture::Size;
use view::View;

// Whether the two views are the split of the picture, the auxiliary one in layout V1: yes; a place, the first that is wrong;
// or no place, where the sizes are not the split's. Or 1, 5, 3 or 4. Nothing is written.
#[unsafe(no_mangle)]
pub extern "C" fn haythaw_check_v1(
    width: u16,
    height: u16,
    y: &[u8],
    u: &[u8],
    v: &[u8],
    main_width: u16,
    main_height: u16,
    main_luma_stride: usize,
    main_chroma_stride: usize,
    main_y: &[u8],
    main_u: &[u8],
    main_v: &[u8],
    auxiliary_width: u16,
    auxiliary_height: u16,
    auxiliary_luma_stride: usize,
    auxiliary_chroma_stride: usize,
    auxiliary_y: &[u8],
    auxiliary_u: &[u8],
    auxiliary_v: &[u8],
) -> Checked
    ensures { result ≡ checked_of AsV1 (size_of width height) (planes y.now u.now v.now)
        (sizes_of main_width main_height main_luma_stride main_chroma_stride) (planes main_y.now main_u.now main_v.now)
        (sizes_of auxiliary_width auxiliary_height auxiliary_luma_stride auxiliary_chroma_stride)
        (planes auxiliary_y.now auxiliary_u.now auxiliary_v.now) }
{
    let main = View {
        width: main_width,
        height: main_height,
        luma_stride: main_luma_stride,
        chroma_stride: main_chroma_stride,
    };
    let auxiliary = View {
        width: auxiliary_width,
        height: auxiliary_height,
        luma_stride: auxiliary_luma_stride,
        chroma_stride: auxiliary_chroma_stride,
    };
    check_pair::check(
        Way::AsV1,
        Size { width, height },
        y,
        u,
        v,
        main,
        main_y,
        main_u,
        main_v,
        auxiliary,
        auxiliary_y,
        auxiliary_u,
        auxiliary_v,
    )
}

// Whether the two views are the split of the picture, the auxiliary one in layout V2 by the 16 rule: yes; a place, the first that is wrong;
// or no place, where the sizes are not the split's. Or 1, 5, 3 or 4. Nothing is written.
#[unsafe(no_mangle)]
pub extern "C" fn haythaw_check_v2(
    width: u16,
    height: u16,
    y: &[u8],
    u: &[u8],
    v: &[u8],
    main_width: u16,
    main_height: u16,
    main_luma_stride: usize,
    main_chroma_stride: usize,
    main_y: &[u8],
    main_u: &[u8],
    main_v: &[u8],
    auxiliary_width: u16,
    auxiliary_height: u16,
    auxiliary_luma_stride: usize,
    auxiliary_chroma_stride: usize,
    auxiliary_y: &[u8],
    auxiliary_u: &[u8],
    auxiliary_v: &[u8],
) -> Checked
    ensures { result ≡ checked_of (AsV2 To16) (size_of width height) (planes y.now u.now v.now)
        (sizes_of main_width main_height main_luma_stride main_chroma_stride) (planes main_y.now main_u.now main_v.now)
        (sizes_of auxiliary_width auxiliary_height auxiliary_luma_stride auxiliary_chroma_stride)
        (planes auxiliary_y.now auxiliary_u.now auxiliary_v.now) }
{
    let main = View {
        width: main_width,
        height: main_height,
        luma_stride: main_luma_stride,
        chroma_stride: main_chroma_stride,
    };
    let auxiliary = View {
        width: auxiliary_width,
        height: auxiliary_height,
        luma_stride: auxiliary_luma_stride,
        chroma_stride: auxiliary_chroma_stride,
    };
    check_pair::check(
        Way::AsV2(WidthRule::To16),
        Size { width, height },
        y,
        u,
        v,
        main,
        main_y,
        main_u,
        main_v,
        auxiliary,
        auxiliary_y,
        auxiliary_u,
        auxiliary_v,
    )
}

// Whether the two views are the split of the picture, the auxiliary one in layout V2 by the 32 rule: yes; a place, the first that is wrong;
// or no place, where the sizes are not the split's. Or 1, 5, 3 or 4. Nothing is written.
#[unsafe(no_mangle)]
pub extern "C" fn haythaw_check_v2_32(
    width: u16,
    height: u16,
    y: &[u8],
    u: &[u8],
    v: &[u8],
    main_width: u16,
    main_height: u16,
    main_luma_stride: usize,
    main_chroma_stride: usize,
    main_y: &[u8],
    main_u: &[u8],
    main_v: &[u8],
    auxiliary_width: u16,
    auxiliary_height: u16,
    auxiliary_luma_stride: usize,
    auxiliary_chroma_stride: usize,
    auxiliary_y: &[u8],
    auxiliary_u: &[u8],
    auxiliary_v: &[u8],
) -> Checked
    ensures { result ≡ checked_of (AsV2 To32) (size_of width height) (planes y.now u.now v.now)
        (sizes_of main_width main_height main_luma_stride main_chroma_stride) (planes main_y.now main_u.now main_v.now)
        (sizes_of auxiliary_width auxiliary_height auxiliary_luma_stride auxiliary_chroma_stride)
        (planes auxiliary_y.now auxiliary_u.now auxiliary_v.now) }
{
    let main = View {
        width: main_width,
        height: main_height,
        luma_stride: main_luma_stride,
        chroma_stride: main_chroma_stride,
    };
    let auxiliary = View {
        width: auxiliary_width,
        height: auxiliary_height,
        luma_stride: auxiliary_luma_stride,
        chroma_stride: auxiliary_chroma_stride,
    };
    check_pair::check(
        Way::AsV2(WidthRule::To32),
        Size { width, height },
        y,
        u,
        v,
        main,
        main_y,
        main_u,
        main_v,
        auxiliary,
        auxiliary_y,
        auxiliary_u,
        auxiliary_v,
    )
}
