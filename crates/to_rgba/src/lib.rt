// Both conversions to RGBA: of a picture, any rectangle of it, and of a view.
//
// Each promises its number, its count and every byte of the output, for every input (specs/Picture.antt, specs/View.antt); neither asks
// anything of its caller. What holds of rows of pixels is said once, over the rule that makes a pixel (specs/Pictured.antt); the rule
// and the writers of one row are in to_rgba_rows.
#![tactic(auto)]

ghost use Rattle.std.specs.Prelude.{◌≡◌, [], ◌∷◌, length, ◌+◌, ◌*◌, ◌≤◌, IfOk};
ghost use Rattle.colour.specs.Limited.{reverse_by};
ghost use Rattle.lent.specs.Paint.{painted, whole};
ghost use Rattle.lent.specs.Pixels.{bytes};
ghost use Rattle.lent.specs.Refused.{number_in};
ghost use Rattle.to_rgba_rows.specs.Rules.{pixel_at, view_pixel_at, in_both};
ghost use Rattle.to_rgba_rows.specs.Fits.{PixelRowsFit, ViewLinesFit};
ghost use Rattle.view.specs.Over.{Over};
ghost use Rattle.to_rgba.specs.Pictured.{pictured, shifted};
ghost use Rattle.to_rgba.specs.Picture.{clipped_of, filtered_rows_of, pixels_of, to_rgba_number_of, ToRgbaOutcome};
ghost use Rattle.to_rgba.specs.View.{view_to_rgba_count_of, view_to_rgba_number_of, view_to_rgba_of, ViewToRgbaOutcome};

use colour::Matrix;
use lent::Answer;
use lent::refused::Refusal;
use picture::Size;
pub use rects::Rect;
use to_rgba_rows::picture_rows::Filtered;
use view::View;
use view::frame::Frame;

// What picture to RGBA answers: 0 or the number of its refusal, how many bytes it wrote, and how many samples of U and of V the filter
// replaced. In a refusal all counts are 0.
// Numbers, and no Result: wrong programs name the counts of its refusal (count_in_a_refusal).
#[repr(C)]
#[derive(Clone, Copy)]
pub struct Pixels {
    pub number: u32,
    pub count: usize,
    pub filtered_u: usize,
    pub filtered_v: usize,
}

// h rows of n pixels from row `top` and column `left` of the picture on, and how many samples of them were filtered.
fn put_rows(
    out: &mut [u8],
    y: &[u8],
    u: &[u8],
    v: &[u8],
    stride: usize,
    rows: usize,
    left: usize,
    top: usize,
    n: usize,
    h: usize,
) -> Filtered
    requires { PixelRowsFit (length out.old) (length y.now) (length u.now) (length v.now) stride rows left top n h }
    ensures out_after { out.new ≡ pictured n h
        (shifted top left (pixel_at stride y.now u.now v.now)) out.old }
    ensures value { result ≡ in_both (filtered_rows_of stride left top n h) u.now v.now }
{
    let wide = 4 * n;
    let mut filtered_u = 0;
    let mut filtered_v = 0;
    for r in 0..h {
        let start = r * wide;
        let filtered = to_rgba_rows::picture_rows::put_row(
            &mut out[start..start + wide],
            y,
            u,
            v,
            stride,
            rows,
            top + r,
            left,
            n,
        );
        filtered_u += filtered.u;
        filtered_v += filtered.v;
    }
    Filtered {
        u: filtered_u,
        v: filtered_v,
    }
}

// How far it is from a to b, or to n where that is nearer: 0 where it is not after a.
pub fn clipped(a: u16, b: u16, n: u16) -> usize
    ensures { result ≡ clipped_of a b n }
{
    b.min(n).saturating_sub(a) as usize
}

// Whether picture to RGBA is refused, and why: ny, nu, nv and nout are the lengths of the planes and the output.
fn check(
    size: Size,
    count: usize,
    ny: usize,
    nu: usize,
    nv: usize,
    nout: usize,
) -> Result<(), Refusal>
    ensures { number_in result ≡ to_rgba_number_of size count ny nu nv nout }
{
    if picture::planes_short(size, ny, nu, nv) {
        return Err(Refusal::PictureShort);
    }
    if nout < count {
        return Err(Refusal::OutputShort);
    }
    Ok(())
}

// The answer of a call that wrote nothing.
fn none(number: u32) -> Pixels
    ensures { result ≡ pixels_of number 0 0 0 }
{
    Pixels {
        number,
        count: 0,
        filtered_u: 0,
        filtered_v: 0,
    }
}

// The rectangle of the picture, clipped to it, as RGBA, and how many samples were filtered. Ports `Yuv444Frame::to_rgba`, which does not
// count.
pub fn to_rgba(size: Size, y: &[u8], u: &[u8], v: &[u8], rect: Rect, out: &mut [u8]) -> Pixels
    ensures { ToRgbaOutcome size y.now u.now v.now rect
        out.old result (out.new ∷ []) }
{
    let n = clipped(rect.left, rect.right, size.width);
    let h = clipped(rect.top, rect.bottom, size.height);
    let count = 4 * (n * h);
    let checked = check(size, count, y.len(), u.len(), v.len(), out.len());
    if let Err(refusal) = checked {
        return none(refusal.number());
    }
    if count == 0 {
        return none(0);
    }
    let filtered = put_rows(
        out,
        y,
        u,
        v,
        picture::stride(size),
        picture::rows(size),
        rect.left as usize,
        rect.top as usize,
        n,
        h,
    );
    Pixels {
        number: 0,
        count,
        filtered_u: filtered.u,
        filtered_v: filtered.v,
    }
}

// At most two rows of a view from the even row `row` on, by the matrix.
fn put_lines(matrix: Matrix, out: &mut [u8], frame: Frame<'_>, row: usize, lines: usize)
    requires { ViewLinesFit (length out.old) (length frame.y.now) (length frame.u.now) (length frame.v.now)
        frame.sizes.luma_stride frame.sizes.chroma_stride row frame.sizes.width lines }
    ensures { let f = frame.entry in out.new ≡ painted (4 * f.sizes.width) lines whole
        (λ l. bytes (view_pixel_at (reverse_by matrix) f.sizes.luma_stride f.sizes.chroma_stride f.y.now f.u.now f.v.now (row + l))) out.old }
{
    let Frame { sizes, y, u, v } = frame;
    let luma = sizes.luma_stride;
    let chroma = sizes.chroma_stride;
    let n = sizes.width as usize;
    match matrix {
        Matrix::Full => {
            to_rgba_rows::view_rows::view_lines(out, y, u, v, luma, chroma, row, n, lines);
        }
        Matrix::Limited => {
            to_rgba_rows::limited_rows::limited_lines(out, y, u, v, luma, chroma, row, n, lines);
        }
    }
}

// The rows of a view, by the matrix, two at a time, since two rows share their chroma.
fn view_rows(matrix: Matrix, out: &mut [u8], frame: Frame<'_>)
    requires { view_to_rgba_count_of frame.sizes ≤ length out.old }
    ensures { let f = frame.entry in out.new ≡ view_to_rgba_of (reverse_by matrix) f.sizes f.y.now f.u.now f.v.now out.old }
{
    let wide = 4 * frame.sizes.width as usize;
    let h = frame.sizes.height as usize;
    for r in (0..h).step_by(2) {
        let start = r * wide;
        let lines = (h - r).min(2);
        put_lines(
            matrix,
            &mut out[start..start + lines * wide],
            frame,
            r,
            lines,
        );
    }
}

// The view, where it is accepted and the output, of nout bytes, holds what would be written; or why view to RGBA is refused.
fn check_view<'a>(
    w: View,
    count: usize,
    y: &'a [u8],
    u: &'a [u8],
    v: &'a [u8],
    nout: usize,
) -> Result<Frame<'a>, Refusal>
    ensures number { number_in result ≡ view_to_rgba_number_of w count
        (length y.now) (length u.now) (length v.now) nout }
    ensures over { IfOk result (λ frame. Over frame w y.entry u.entry v.entry) }
{
    let frame = Frame::new(w, y, u, v)?;
    if nout < count {
        return Err(Refusal::OutputShort);
    }
    Ok(frame)
}

// The view as RGBA, by the matrix. Ports `Yuv420Frame::to_rgba`, which has full range.
pub fn view_to_rgba(matrix: Matrix, w: View, y: &[u8], u: &[u8], v: &[u8], out: &mut [u8]) -> Answer
    ensures { ViewToRgbaOutcome (reverse_by matrix) w y.now u.now v.now
        out.old result (out.new ∷ []) }
{
    let count = 4 * (w.width as usize * w.height as usize);
    let frame = match check_view(w, count, y, u, v, out.len()) {
        Ok(frame) => frame,
        Err(refusal) => return Answer::refused(refusal),
    };
    view_rows(matrix, out, frame);
    Answer::done(count)
}
