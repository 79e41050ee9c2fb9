// A 4:4:4 picture from RGBA pixels (ports `Yuv444Frame::from_rgba`).
//
// Each pixel is converted by the colour matrix (rows), the padding is put by the edge rule (edges), and then U and V of each even row and even
// column are replaced by their block's average (averages). The edge rule fills the edge, or leaves the padding as the Rust does. The call promises
// its number and every byte of the three buffers, for every input, matrix, size and length: a refusal alters nothing.
#![tactic(auto)]

pub mod averages; // the average of each 2x2 block
pub mod edges; // the padding
pub mod rows; // the converted pixels

ghost use Rattle.std.specs.Prelude.{◌≡◌, [], ◌∷◌, ◌*◌, ◌≤◌, length};
ghost use Rattle.lent.specs.Refused.{number_in};
ghost use Rattle.lent.specs.Samples.{sample};
ghost use Rattle.picture.specs.Sizes.{stride_of, rows_of, plane_of};
ghost use Rattle.from_rgba.specs.Averaged.{averaged};
ghost use Rattle.from_rgba.specs.Rows.{RoomFor};
ghost use Rattle.from_rgba.specs.FromRgba.{
  with_edge,
  luma_plane,
  chroma_u_plane,
  chroma_v_plane,
  rgba_short,
  from_number_of,
  FromRgbaOutcome,
};

use crate::edges::Edge;
use colour::Matrix;
use lent::Answer;
use lent::refused::Refusal;
use picture::Size;

// Refusal 2: n bytes of RGBA are fewer than width x height x 4.
pub fn rgba_short(size: Size, n: usize) -> bool
    ensures { result ≡ rgba_short size n }
{
    let width = size.width as usize;
    let height = size.height as usize;
    n < width * height * 4
}

// Whether the call is refused, and why: the input has n bytes, and the planes ny, nu and nv.
fn check(size: Size, n: usize, ny: usize, nu: usize, nv: usize) -> Result<(), Refusal>
    ensures { number_in result ≡ from_number_of size n ny nu nv }
{
    if rgba_short(size, n) {
        return Err(Refusal::PixelsShort);
    }
    if picture::planes_short(size, ny, nu, nv) {
        return Err(Refusal::PictureShort);
    }
    Ok(())
}

// U or V of a plane whose pixels are converted: its padding by the edge rule, then the averages.
fn finish_chroma(edge: Edge, plane: &mut [u8], size: Size)
    requires { rows_of size * stride_of size ≤ length plane.old }
    ensures { plane.new ≡ plane_of size
        (averaged (with_edge edge size (sample plane.old (stride_of size)))) plane.old }
{
    crate::edges::put_edge(edge, plane, size.width, size.height);
    let stride = picture::stride(size);
    let rows = picture::rows(size);
    crate::averages::average_plane(plane, stride, rows);
}

// The three planes: the converted pixels, the padding, the averages of U and V.
fn make_planes(
    matrix: Matrix,
    edge: Edge,
    rgba: &[u8],
    size: Size,
    y: &mut [u8],
    u: &mut [u8],
    v: &mut [u8],
)
    requires { RoomFor size.width size.height (length rgba.now) (length y.old) (length u.old) (length v.old) }
    ensures y { y.new ≡ plane_of size (with_edge edge size (luma_plane matrix size rgba.now)) y.old }
    ensures u { u.new ≡ plane_of size (averaged (with_edge edge size (chroma_u_plane matrix size rgba.now)))
        u.old }
    ensures v { v.new ≡ plane_of size (averaged (with_edge edge size (chroma_v_plane matrix size rgba.now)))
        v.old }
{
    crate::rows::convert_planes(matrix, rgba, size.width, size.height, y, u, v);
    crate::edges::put_edge(edge, y, size.width, size.height);
    finish_chroma(edge, u, size);
    finish_chroma(edge, v, size);
}

// A picture from width x height pixels of four bytes, converted by the matrix; what follows them, and their alpha, is ignored. Its padding is by
// the edge rule: Filled, each sample of it is the nearest one of the picture; or Fresh, Y 0, U and V 128, which the last averages take in.
// Ports `Yuv444Frame::from_rgba`, which has full range and the second.
pub fn with_edge(
    matrix: Matrix,
    edge: Edge,
    rgba: &[u8],
    size: Size,
    y: &mut [u8],
    u: &mut [u8],
    v: &mut [u8],
) -> Answer
    ensures { FromRgbaOutcome matrix edge rgba.now size y.old u.old v.old
        result (y.new ∷ u.new ∷ v.new ∷ []) }
{
    let checked = check(size, rgba.len(), y.len(), u.len(), v.len());
    if let Err(refusal) = checked {
        return Answer::refused(refusal);
    }
    make_planes(matrix, edge, rgba, size, y, u, v);
    Answer::done(0)
}
