// Both conversions to RGBA: of a rectangle of a picture, and of a view.
ghost use Rattle.std.specs.Prelude.{[], ◌∷◌};
ghost use Rattle.colour.specs.Colour.{reverse_of};
ghost use Rattle.to_rgba.specs.View.{ViewToRgbaOutcome};
ghost use Rattle.map_picture.specs.Shown.{MapToRgbaOutcome};
ghost use Rattle.haythaw.specs.Sizes.{sizes_of, size_of, rect_of};

use colour::Matrix;
use map_picture::Pixels;
use picture::Size;
use to_rgba::Rect;
use view::View;

// The rectangle of the picture, clipped to it, as RGBA, how many bytes were written, how many samples of U and of V were filtered, and how
// many pixels are stale; or 1 or 6.
#[unsafe(no_mangle)]
pub extern "C" fn haythaw_to_rgba(
    width: u16,
    height: u16,
    y: &[u8],
    u: &[u8],
    v: &[u8],
    map: &[u8],
    left: u16,
    top: u16,
    right: u16,
    bottom: u16,
    out: &mut [u8],
) -> Pixels
    ensures { MapToRgbaOutcome (size_of width height) y.now u.now v.now map.now
        (rect_of left top right bottom) out.old result (out.new ∷ []) }
{
    let rect = Rect {
        left,
        top,
        right,
        bottom,
    };
    map_picture::to_rgba(Size { width, height }, y, u, v, map, rect, out)
}

// The view as RGBA, and how many bytes were written; or 3, 4 or 6.
#[unsafe(no_mangle)]
pub extern "C" fn haythaw_view_to_rgba(
    view_width: u16,
    view_height: u16,
    luma_stride: usize,
    chroma_stride: usize,
    view_y: &[u8],
    view_u: &[u8],
    view_v: &[u8],
    out: &mut [u8],
) -> lent::Answer
    ensures { ViewToRgbaOutcome reverse_of (sizes_of view_width view_height luma_stride chroma_stride)
        view_y.now view_u.now view_v.now out.old result (out.new ∷ []) }
{
    let w = View {
        width: view_width,
        height: view_height,
        luma_stride,
        chroma_stride,
    };
    to_rgba::view_to_rgba(Matrix::Full, w, view_y, view_u, view_v, out)
}
