// One row of a plane of the auxiliary view of a split, in either layout.
//
// Each writer promises every byte of the row that it is lent: what it holds is said by layout's map alone (split_views, specs/Views.antt).
ghost use Rattle.std.specs.Prelude.{◌≡◌, ◌+◌, ◌*◌, ◌%◌, ◌<◌, ◌≤◌, length};
ghost use Rattle.lent.specs.Paint.{paint, every};
ghost use Rattle.layout.specs.Maps.{PY, view_wide_of};
ghost use Rattle.layout.specs.declared.Layout.TheVariants.{V1, V2};
ghost use Rattle.split_views.specs.Views.{auxiliary_sample, v2_chroma_sample};
ghost use Rattle.split_views.specs.Fits.{BlockFits, WideEnough};

use layout::Layout;

// V1, a luma row: of 16 the first 8 are odd rows of U, the others odd rows of V.
fn v1_luma_row(out: &mut [u8], u: &[u8], v: &[u8], stride: usize, row: usize)
    requires out_len { length out.old ≡ stride }
    requires block_fits { BlockFits (length u.now) stride row }
    requires block_fits_2 { BlockFits (length v.now) stride row }
    ensures { out.new ≡ paint every (auxiliary_sample V1 stride u.now v.now PY row)
        out.old }
{
    let within = row % 16;
    let block = row - within;
    if within < 8 {
        split_rows::copy_row(out, u, stride, block + 2 * within + 1);
    } else {
        split_rows::copy_row(out, v, stride, block + 2 * (within - 8) + 1);
    }
}

// V2, a luma row: the odd columns of U, then those of V, each with 128 past the stride.
fn v2_luma_row(out: &mut [u8], u: &[u8], v: &[u8], stride: usize, wide: usize, row: usize)
    requires out_len { length out.old ≡ wide }
    requires wide_enough { WideEnough stride wide }
    requires stride_value { stride % 16 ≡ 0 }
    requires stride_in_bounds { row * stride + stride ≤ length u.now }
    requires stride_in_bounds_2 { row * stride + stride ≤ length v.now }
    ensures { out.new ≡ paint every (auxiliary_sample (V2 wide) stride u.now v.now PY row)
        out.old }
{
    let half = wide / 2;
    split_rows::picked_wide::<2>(&mut out[0..half], u, stride, row, 1, 128);
    split_rows::picked_wide::<2>(&mut out[half..wide], v, stride, row, 1, 128);
}

// A luma row, in either layout.
pub fn luma_row(
    layout: Layout,
    out: &mut [u8],
    u: &[u8],
    v: &[u8],
    stride: usize,
    wide: usize,
    row: usize,
)
    requires out_len { length out.old ≡ wide }
    requires wide_enough { WideEnough stride wide }
    requires wide_value { wide ≡ view_wide_of layout stride }
    requires stride_value { stride % 16 ≡ 0 }
    requires block_fits { BlockFits (length u.now) stride row }
    requires block_fits_2 { BlockFits (length v.now) stride row }
    ensures { out.new ≡ paint every (auxiliary_sample layout stride u.now v.now PY row)
        out.old }
{
    match layout {
        Layout::V1 => v1_luma_row(out, u, v, stride, row),
        Layout::V2(_) => v2_luma_row(out, u, v, stride, wide, row),
    }
}

// V2, a chroma row: every fourth column of row `row` of the picture, from `first` on, U's and then V's, each with 128 past the stride.
pub fn v2_chroma_row(
    out: &mut [u8],
    u: &[u8],
    v: &[u8],
    stride: usize,
    wide: usize,
    row: usize,
    first: usize,
)
    requires out_value { 2 * length out.old ≡ wide }
    requires wide_enough { WideEnough stride wide }
    requires stride_value { stride % 16 ≡ 0 }
    requires stride_in_bounds { row * stride + stride ≤ length u.now }
    requires stride_in_bounds_2 { row * stride + stride ≤ length v.now }
    requires first_bound { first < 4 }
    ensures { out.new ≡ paint every (v2_chroma_sample wide stride u.now v.now first row)
        out.old }
{
    let half = wide / 2;
    let quarter = wide / 4;
    split_rows::picked_wide::<4>(&mut out[0..quarter], u, stride, row, first, 128);
    split_rows::picked_wide::<4>(&mut out[quarter..half], v, stride, row, first, 128);
}
