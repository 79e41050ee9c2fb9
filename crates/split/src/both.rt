// Both views of a picture whose planes and outputs are long enough: the main view, then the auxiliary one in the layout of the way that is
// asked for.
//
// Promised: every byte of the planes of both views, and no byte after them. `split` tests the lengths first.
ghost use Rattle.std.specs.Prelude.{length};
ghost use Rattle.picture.specs.Sizes.{stride_of, rows_of};
ghost use Rattle.split_views.specs.Views.{at_entry, at_exit, main_sample, auxiliary_sample, Written, planes};
ghost use Rattle.split.specs.Number.{split_layout_of, split_wide_of};
ghost use Rattle.split_views.specs.Fits.{MacroblocksFit, Room};

use layout::Way;

// Both views of a picture, where all that is lent is long enough.
pub fn both_views(
    way: Way,
    size: picture::Size,
    y: &[u8],
    u: &[u8],
    v: &[u8],
    main_y: &mut [u8],
    main_u: &mut [u8],
    main_v: &mut [u8],
    auxiliary_y: &mut [u8],
    auxiliary_u: &mut [u8],
    auxiliary_v: &mut [u8],
)
    requires macroblocks_fit { MacroblocksFit (length y.now) (stride_of size) (rows_of size) }
    requires macroblocks_fit_2 { MacroblocksFit (length u.now) (stride_of size) (rows_of size) }
    requires macroblocks_fit_3 { MacroblocksFit (length v.now) (stride_of size) (rows_of size) }
    requires room { Room (length main_y.old) (length main_u.old) (length main_v.old)
        (split_wide_of way size) (rows_of size) }
    requires room_2 { Room (length auxiliary_y.old) (length auxiliary_u.old) (length auxiliary_v.old)
        (split_wide_of way size) (rows_of size) }
    ensures written { Written (split_wide_of way size) (rows_of size)
        (main_sample (stride_of size) (planes y.now u.now v.now))
        (at_entry main_y main_u main_v) (at_exit main_y main_u main_v) }
    ensures written_2 { Written (split_wide_of way size) (rows_of size)
        (auxiliary_sample (split_layout_of way size) (stride_of size) u.now v.now)
        (at_entry auxiliary_y auxiliary_u auxiliary_v) (at_exit auxiliary_y auxiliary_u auxiliary_v) }
{
    let stride = picture::stride(size);
    let rows = picture::rows(size);
    let wide = crate::number::view_width(way, size);
    let layout = crate::number::split_layout(way, size);
    split_views::main_view(y, u, v, stride, wide, rows, main_y, main_u, main_v);
    split_views::auxiliary::auxiliary_view(
        layout,
        u,
        v,
        stride,
        wide,
        rows,
        auxiliary_y,
        auxiliary_u,
        auxiliary_v,
    );
}
