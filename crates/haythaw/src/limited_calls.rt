// Video of limited range, BT.601: a view as RGBA, and a picture of RGBA pixels.
ghost use Rattle.std.specs.Prelude.{[], ◌∷◌};
ghost use Rattle.colour.specs.Limited.{limited_reverse_of};
ghost use Rattle.colour.specs.declared.Matrix.TheVariants.{Limited};
ghost use Rattle.from_rgba.specs.declared.edges.Edge.TheVariants.{Filled};
ghost use Rattle.to_rgba.specs.View.{ViewToRgbaOutcome};
ghost use Rattle.haythaw.specs.Made.{HaythawFromRgbaOutcome};
ghost use Rattle.haythaw.specs.Sizes.{sizes_of, size_of};

use colour::Matrix;
use picture::Size;
use view::View;

// The view of limited range as RGBA, and how many bytes were written; or 3, 4 or 6.
#[unsafe(no_mangle)]
pub extern "C" fn haythaw_view_to_rgba_limited(
    view_width: u16,
    view_height: u16,
    luma_stride: usize,
    chroma_stride: usize,
    view_y: &[u8],
    view_u: &[u8],
    view_v: &[u8],
    out: &mut [u8],
) -> lent::Answer
    ensures { ViewToRgbaOutcome limited_reverse_of (sizes_of view_width view_height luma_stride chroma_stride)
        view_y.now view_u.now view_v.now out.old result (out.new ∷ []) }
{
    let w = View {
        width: view_width,
        height: view_height,
        luma_stride,
        chroma_stride,
    };
    to_rgba::view_to_rgba(Matrix::Limited, w, view_y, view_u, view_v, out)
}

// The picture of width x height RGBA pixels in limited range, its edge filled, and the map 2. 0, 2 or 1.
#[unsafe(no_mangle)]
pub extern "C" fn haythaw_from_rgba_limited(
    rgba: &[u8],
    width: u16,
    height: u16,
    y: &mut [u8],
    u: &mut [u8],
    v: &mut [u8],
    map: &mut [u8],
) -> u32
    ensures { HaythawFromRgbaOutcome Limited Filled rgba.now (size_of width height)
        y.old u.old v.old map.old
        result (y.new ∷ u.new ∷ v.new ∷ map.new ∷ []) }
{
    map_picture::from_rgba_limited(rgba, Size { width, height }, y, u, v, map).number
}
