// What both views of a split hold (specs/Views.antt), and the planes of the main view; those of the auxiliary
// view are written in `auxiliary`.
//
// Each writer promises every byte of the plane that it is lent, and no byte after it. One row at a time, by the writers of split_rows.
#![tactic(auto)]

pub mod auxiliary; // the auxiliary view
pub mod auxiliary_rows; // one row of it

ghost use Rattle.std.specs.Prelude.{◌≡◌, ◌+◌, ◌*◌, ◌/◌, ◌<◌, ◌≤◌, length};
ghost use Rattle.lent.specs.Paint.{painted, whole};
ghost use Rattle.split_views.specs.Views.{at_entry, at_exit, seen, main_sample, Written, planes};
ghost use Rattle.split_views.specs.Fits.{MacroblocksFit, Room};

// The luma plane, and 0 past the stride.
fn main_luma(out: &mut [u8], plane: &[u8], stride: usize, wide: usize, rows: usize)
    requires wide_in_bounds { rows * wide ≤ length out.old }
    requires stride_in_bounds { rows * stride ≤ length plane.now }
    requires stride_le_wide { stride ≤ wide }
    ensures { out.new ≡ painted wide rows whole (seen 0 plane.now stride) out.old }
{
    for row in 0..rows {
        let line = row * wide;
        split_rows::copy_wide(&mut out[line..line + wide], plane, stride, row, 0);
    }
}

// Of the plane's even rows every second sample, from column `first` on, and 128 past the stride: the main view's chroma, and V1's.
pub fn half_plane(
    out: &mut [u8],
    plane: &[u8],
    stride: usize,
    wide: usize,
    rows: usize,
    first: usize,
)
    requires wide_in_bounds { rows / 2 * (wide / 2) ≤ length out.old }
    requires macroblocks_fit { MacroblocksFit (length plane.now) stride rows }
    requires stride_le_wide { stride ≤ wide }
    requires first_bound { first < 2 }
    ensures { out.new ≡ painted (wide / 2) (rows / 2) whole
        (λ r c. seen 128 plane.now stride (2 * r) (2 * c + first)) out.old }
{
    let half = wide / 2;
    for row in 0..rows / 2 {
        let line = row * half;
        split_rows::picked_wide::<2>(
            &mut out[line..line + half],
            plane,
            stride,
            2 * row,
            first,
            128,
        );
    }
}

// The main view, of the width `wide`: the luma plane and the even-even chroma.
pub fn main_view(
    y: &[u8],
    u: &[u8],
    v: &[u8],
    stride: usize,
    wide: usize,
    rows: usize,
    main_y: &mut [u8],
    main_u: &mut [u8],
    main_v: &mut [u8],
)
    requires macroblocks_fit { MacroblocksFit (length y.now) stride rows }
    requires macroblocks_fit_2 { MacroblocksFit (length u.now) stride rows }
    requires macroblocks_fit_3 { MacroblocksFit (length v.now) stride rows }
    requires stride_le_wide { stride ≤ wide }
    requires room { Room (length main_y.old) (length main_u.old) (length main_v.old) wide rows }
    ensures { Written wide rows (main_sample stride (planes y.now u.now v.now))
        (at_entry main_y main_u main_v) (at_exit main_y main_u main_v) }
{
    main_luma(main_y, y, stride, wide, rows);
    half_plane(main_u, u, stride, wide, rows, 0);
    half_plane(main_v, v, stride, wide, rows, 0);
}
