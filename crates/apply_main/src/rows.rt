// One row of the main view goes into a picture's plane: luma as it stands, chroma each sample at two columns.
ghost use Rattle.std.specs.Prelude.{◌≡◌, ◌+◌, ◌*◌, ◌%◌, ◌≤◌, length};
ghost use Rattle.lent.specs.Paint.{painted, every, row_part, up_to};
ghost use Rattle.lent.specs.Samples.{sample};
ghost use Rattle.lent.specs.Sizes.{half_up};
ghost use Rattle.picture.specs.Sizes.{stride_of, rows_of};
ghost use Rattle.apply_main.specs.Rows.{halved, MainRowsFit};

use picture::Size;
use view::Plane;

// Row `row` of Y takes the columns from left to below right of the view's row, where the view has that row.
pub fn luma_row(
    y: &mut [u8],
    size: Size,
    row: usize,
    left: usize,
    right: usize,
    from: Plane,
    vy: &[u8],
)
    requires { MainRowsFit size from (length y.old) (length vy.now) (row + 1) left right right }
    ensures { y.new ≡ painted (stride_of size) (rows_of size)
        (up_to (row_part every row left right) from.height) (sample vy.now from.stride) y.old }
{
    let Some(start) = view::row_start(vy.len(), from.stride, from.height, row) else {
        return;
    };
    let line = row * picture::stride(size);
    lent::copy(
        &mut y[line + left..line + right],
        &vy[start + left..start + right],
    );
}

// Row `row` of U or V takes the columns from left to below right of the view's row row/2, each sample at two columns.
pub fn chroma_row(
    plane: &mut [u8],
    size: Size,
    row: usize,
    left: usize,
    right: usize,
    from: Plane,
    samples: &[u8],
)
    requires main_rows_fit { MainRowsFit size from (length plane.old) (length samples.now) (row + 1) left right (half_up right) }
    requires left_value { left % 2 ≡ 0 }
    ensures { plane.new ≡ painted (stride_of size) (rows_of size)
        (up_to (row_part every row left right) (2 * from.height)) (halved samples.now from.stride)
        plane.old }
{
    let Some(start) = view::row_start(samples.len(), from.stride, from.height, row / 2) else {
        return;
    };
    let line = row * picture::stride(size);
    let first = start + left / 2;
    let end = start + (right + 1) / 2;
    lent::spread(&mut plane[line + left..line + right], &samples[first..end]);
}

// Rows `row`, which is even, and row + 1 of U or V take the same columns of the view's row row/2, as by `chroma_row` twice.
pub fn chroma_two(
    plane: &mut [u8],
    size: Size,
    row: usize,
    left: usize,
    right: usize,
    from: Plane,
    samples: &[u8],
)
    requires main_rows_fit { MainRowsFit size from (length plane.old) (length samples.now) (row + 2) left right (half_up right) }
    requires row_value { (row % 2 ≡ 0) × (left % 2 ≡ 0) × (left + 16 ≤ right) }
    ensures { plane.new ≡ painted (stride_of size) (rows_of size)
        (up_to (row_part every (row + 1) left right) (2 * from.height)) (halved samples.now from.stride)
        (painted (stride_of size) (rows_of size)
        (up_to (row_part every row left right) (2 * from.height)) (halved samples.now from.stride) plane.old) }
{
    let Some(start) = view::row_start(samples.len(), from.stride, from.height, row / 2) else {
        return;
    };
    let stride = picture::stride(size);
    let line = row * stride + left;
    let first = start + left / 2;
    let end = start + (right + 1) / 2;
    lent::twice::spread(
        plane,
        line,
        line + stride,
        right - left,
        &samples[first..end],
    );
}
