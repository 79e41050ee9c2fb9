// Both views of a picture.
ghost use Rattle.std.specs.Prelude.{[], ◌∷◌};
ghost use Rattle.layout.specs.declared.Way.TheVariants.{AsV1, AsV2};
ghost use Rattle.layout.specs.declared.WidthRule.TheVariants.{To16, To32};
ghost use Rattle.split.specs.Split.{at_entry, SplitOutcome, planes};
ghost use Rattle.haythaw.specs.Sizes.{size_of};

use layout::{Way, WidthRule};
use picture::Size;
use split::Views;

// Both views of the picture, the auxiliary one in layout V1, and their sizes and strides; or 1, 5 or 6.
#[unsafe(no_mangle)]
pub extern "C" fn haythaw_split_v1(
    width: u16,
    height: u16,
    y: &[u8],
    u: &[u8],
    v: &[u8],
    main_y: &mut [u8],
    main_u: &mut [u8],
    main_v: &mut [u8],
    auxiliary_y: &mut [u8],
    auxiliary_u: &mut [u8],
    auxiliary_v: &mut [u8],
) -> Views
    ensures { SplitOutcome AsV1 (size_of width height) (planes y.now u.now v.now)
        (at_entry main_y main_u main_v) (at_entry auxiliary_y auxiliary_u auxiliary_v) result
        (main_y.new ∷ main_u.new ∷ main_v.new
        ∷ auxiliary_y.new ∷ auxiliary_u.new ∷ auxiliary_v.new ∷ []) }
{
    split::split(
        Way::AsV1,
        Size { width, height },
        y,
        u,
        v,
        main_y,
        main_u,
        main_v,
        auxiliary_y,
        auxiliary_u,
        auxiliary_v,
    )
}

// Both views of the picture, the auxiliary one in layout V2 by the 16 rule, and their sizes and strides; or 1, 5 or 6.
#[unsafe(no_mangle)]
pub extern "C" fn haythaw_split_v2(
    width: u16,
    height: u16,
    y: &[u8],
    u: &[u8],
    v: &[u8],
    main_y: &mut [u8],
    main_u: &mut [u8],
    main_v: &mut [u8],
    auxiliary_y: &mut [u8],
    auxiliary_u: &mut [u8],
    auxiliary_v: &mut [u8],
) -> Views
    ensures { SplitOutcome (AsV2 To16) (size_of width height) (planes y.now u.now v.now)
        (at_entry main_y main_u main_v) (at_entry auxiliary_y auxiliary_u auxiliary_v) result
        (main_y.new ∷ main_u.new ∷ main_v.new
        ∷ auxiliary_y.new ∷ auxiliary_u.new ∷ auxiliary_v.new ∷ []) }
{
    split::split(
        Way::AsV2(WidthRule::To16),
        Size { width, height },
        y,
        u,
        v,
        main_y,
        main_u,
        main_v,
        auxiliary_y,
        auxiliary_u,
        auxiliary_v,
    )
}

// Both views of the picture, the auxiliary one in layout V2 by the 32 rule, both as wide as the picture's width rounded up to 32, and their
// sizes and strides; or 1, 5 or 6.
#[unsafe(no_mangle)]
pub extern "C" fn haythaw_split_v2_32(
    width: u16,
    height: u16,
    y: &[u8],
    u: &[u8],
    v: &[u8],
    main_y: &mut [u8],
    main_u: &mut [u8],
    main_v: &mut [u8],
    auxiliary_y: &mut [u8],
    auxiliary_u: &mut [u8],
    auxiliary_v: &mut [u8],
) -> Views
    ensures { SplitOutcome (AsV2 To32) (size_of width height) (planes y.now u.now v.now)
        (at_entry main_y main_u main_v) (at_entry auxiliary_y auxiliary_u auxiliary_v) result
        (main_y.new ∷ main_u.new ∷ main_v.new
        ∷ auxiliary_y.new ∷ auxiliary_u.new ∷ auxiliary_v.new ∷ []) }
{
    split::split(
        Way::AsV2(WidthRule::To32),
        Size { width, height },
        y,
        u,
        v,
        main_y,
        main_u,
        main_v,
        auxiliary_y,
        auxiliary_u,
        auxiliary_v,
    )
}
