// A 4:2:0 view over three lent planes: its number, and its rows.
ghost use Rattle.std.specs.Prelude.{◌≡◌, [], length};
ghost use Rattle.lent.specs.Outcome.{Outcome};
ghost use Rattle.view.specs.View.{luma_of, chroma_of, view_number_of};
ghost use Rattle.view.specs.Rows.{row_answer_of};
ghost use Rattle.haythaw.specs.Sizes.{sizes_of};

use view::View;

// 0, or the refusal of a view.
#[unsafe(no_mangle)]
pub extern "C" fn haythaw_view(
    view_width: u16,
    view_height: u16,
    luma_stride: usize,
    chroma_stride: usize,
    view_y: &[u8],
    view_u: &[u8],
    view_v: &[u8],
) -> u32
    ensures { result ≡ view_number_of (sizes_of view_width view_height luma_stride chroma_stride)
        (length view_y.now) (length view_u.now) (length view_v.now) }
{
    let w = View {
        width: view_width,
        height: view_height,
        luma_stride: luma_stride,
        chroma_stride: chroma_stride,
    };
    lent::refused::number(view::check(w, view_y, view_u, view_v))
}

// The place of a luma row in view_y.
#[unsafe(no_mangle)]
pub extern "C" fn haythaw_luma_row(
    view_width: u16,
    view_height: u16,
    luma_stride: usize,
    chroma_stride: usize,
    view_y: &[u8],
    view_u: &[u8],
    view_v: &[u8],
    row: usize,
) -> view::rows::Row
    ensures { Outcome (row_answer_of (view_number_of (sizes_of view_width view_height luma_stride chroma_stride)
        (length view_y.now) (length view_u.now) (length view_v.now))
        (luma_of (sizes_of view_width view_height luma_stride chroma_stride)) row) [] result [] }
{
    let w = View {
        width: view_width,
        height: view_height,
        luma_stride: luma_stride,
        chroma_stride: chroma_stride,
    };
    view::rows::luma_row_answer(w, view_y, view_u, view_v, row)
}

// The place of a row of U in view_u.
#[unsafe(no_mangle)]
pub extern "C" fn haythaw_u_row(
    view_width: u16,
    view_height: u16,
    luma_stride: usize,
    chroma_stride: usize,
    view_y: &[u8],
    view_u: &[u8],
    view_v: &[u8],
    row: usize,
) -> view::rows::Row
    ensures { Outcome (row_answer_of (view_number_of (sizes_of view_width view_height luma_stride chroma_stride)
        (length view_y.now) (length view_u.now) (length view_v.now))
        (chroma_of (sizes_of view_width view_height luma_stride chroma_stride)) row) [] result [] }
{
    let w = View {
        width: view_width,
        height: view_height,
        luma_stride: luma_stride,
        chroma_stride: chroma_stride,
    };
    view::rows::u_row_answer(w, view_y, view_u, view_v, row)
}

// The place of a row of V in view_v.
#[unsafe(no_mangle)]
pub extern "C" fn haythaw_v_row(
    view_width: u16,
    view_height: u16,
    luma_stride: usize,
    chroma_stride: usize,
    view_y: &[u8],
    view_u: &[u8],
    view_v: &[u8],
    row: usize,
) -> view::rows::Row
    ensures { Outcome (row_answer_of (view_number_of (sizes_of view_width view_height luma_stride chroma_stride)
        (length view_y.now) (length view_u.now) (length view_v.now))
        (chroma_of (sizes_of view_width view_height luma_stride chroma_stride)) row) [] result [] }
{
    let w = View {
        width: view_width,
        height: view_height,
        luma_stride: luma_stride,
        chroma_stride: chroma_stride,
    };
    view::rows::v_row_answer(w, view_y, view_u, view_v, row)
}
