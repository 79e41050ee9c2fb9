// The planes of the auxiliary view of a split, in either layout.
//
// Each writer promises every byte of the plane that it is lent, and no byte after it: what the auxiliary view holds is said by layout's
// map alone (specs/Views.antt). One row at a time, by the writers of `auxiliary_rows` and of split_rows.
ghost use Rattle.std.specs.Prelude.{◌≡◌, ◌+◌, ◌*◌, ◌/◌, ◌<◌, ◌≤◌, length};
ghost use Rattle.lent.specs.Paint.{painted, whole};
ghost use Rattle.layout.specs.Maps.{PY, view_wide_of};
ghost use Rattle.split_views.specs.Views.{at_entry, at_exit, auxiliary_sample, v2_chroma_sample, Written, planes};
ghost use Rattle.split_views.specs.Fits.{MacroblocksFit, WideEnough, Room};
ghost use Rattle.split_views.specs.Chroma.{chroma_sample};

use layout::Layout;

// The luma plane.
fn luma(layout: Layout, out: &mut [u8], u: &[u8], v: &[u8], stride: usize, wide: usize, rows: usize)
    requires wide_in_bounds { rows * wide ≤ length out.old }
    requires macroblocks_fit { MacroblocksFit (length u.now) stride rows }
    requires macroblocks_fit_2 { MacroblocksFit (length v.now) stride rows }
    requires wide_enough { WideEnough stride wide }
    requires wide_value { wide ≡ view_wide_of layout stride }
    ensures { out.new ≡ painted wide rows whole
        (auxiliary_sample layout stride u.now v.now PY) out.old }
{
    for row in 0..rows {
        let line = row * wide;
        crate::auxiliary_rows::luma_row(
            layout,
            &mut out[line..line + wide],
            u,
            v,
            stride,
            wide,
            row,
        );
    }
}

// V2's U plane, or its V plane: odd rows of the picture, from column 0 or 2 on.
fn v2_chroma(
    out: &mut [u8],
    u: &[u8],
    v: &[u8],
    stride: usize,
    wide: usize,
    rows: usize,
    first: usize,
)
    requires wide_in_bounds { rows / 2 * (wide / 2) ≤ length out.old }
    requires macroblocks_fit { MacroblocksFit (length u.now) stride rows }
    requires macroblocks_fit_2 { MacroblocksFit (length v.now) stride rows }
    requires wide_enough { WideEnough stride wide }
    requires first_bound { first < 4 }
    ensures { out.new ≡ painted (wide / 2) (rows / 2) whole
        (λ r. v2_chroma_sample wide stride u.now v.now first (2 * r + 1)) out.old }
{
    let half = wide / 2;
    for row in 0..rows / 2 {
        let line = row * half;
        crate::auxiliary_rows::v2_chroma_row(
            &mut out[line..line + half],
            u,
            v,
            stride,
            wide,
            2 * row + 1,
            first,
        );
    }
}

// The U plane, or the V plane: in V1 from the picture's plane of the same name, `own`, in V2 from both, every fourth column from `first` on.
#[tactic(auto, unfolding(crate::specs::Chroma::chroma_sample))]
fn chroma(
    layout: Layout,
    out: &mut [u8],
    own: &[u8],
    u: &[u8],
    v: &[u8],
    stride: usize,
    wide: usize,
    rows: usize,
    first: usize,
)
    requires wide_in_bounds { rows / 2 * (wide / 2) ≤ length out.old }
    requires macroblocks_fit { MacroblocksFit (length own.now) stride rows }
    requires macroblocks_fit_2 { MacroblocksFit (length u.now) stride rows }
    requires macroblocks_fit_3 { MacroblocksFit (length v.now) stride rows }
    requires wide_enough { WideEnough stride wide }
    requires wide_value { wide ≡ view_wide_of layout stride }
    requires first_bound { first < 4 }
    ensures { out.new ≡ painted (wide / 2) (rows / 2) whole
        (chroma_sample layout stride own.now u.now v.now first) out.old }
{
    match layout {
        Layout::V1 => crate::half_plane(out, own, stride, wide, rows, 1),
        Layout::V2(_) => v2_chroma(out, u, v, stride, wide, rows, first),
    }
}

// The auxiliary view, of the width that its layout has.
pub fn auxiliary_view(
    layout: Layout,
    u: &[u8],
    v: &[u8],
    stride: usize,
    wide: usize,
    rows: usize,
    auxiliary_y: &mut [u8],
    auxiliary_u: &mut [u8],
    auxiliary_v: &mut [u8],
)
    requires macroblocks_fit { MacroblocksFit (length u.now) stride rows }
    requires macroblocks_fit_2 { MacroblocksFit (length v.now) stride rows }
    requires wide_enough { WideEnough stride wide }
    requires wide_value { wide ≡ view_wide_of layout stride }
    requires room { Room (length auxiliary_y.old) (length auxiliary_u.old) (length auxiliary_v.old) wide rows }
    ensures { Written wide rows (auxiliary_sample layout stride u.now v.now)
        (at_entry auxiliary_y auxiliary_u auxiliary_v) (at_exit auxiliary_y auxiliary_u auxiliary_v) }
{
    luma(layout, auxiliary_y, u, v, stride, wide, rows);
    chroma(layout, auxiliary_u, u, u, v, stride, wide, rows, 0);
    chroma(layout, auxiliary_v, v, u, v, stride, wide, rows, 2);
}
