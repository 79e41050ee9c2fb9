// The rows of a picture that is made from RGBA pixels: padding, then the converted pixels, before the averages.
//
// `convert_planes` promises every byte of the three planes, by either colour matrix; bytes after them stay. A width and a height are all that
// it needs of a picture, so it stands below the size record.
ghost use Rattle.std.specs.Prelude.{◌≡◌, not, cond, ◌+◌, ◌*◌, ◌≤◌, length, get_or};
ghost use Rattle.lent.specs.Paint.{paint, painted, every, whole};
ghost use Rattle.lent.specs.Sizes.{round_up};
ghost use Rattle.from_rgba.specs.Rows.{
  colour_at,
  colour_apart,
  input_at,
  inside,
  padding_from_of,
  line_of,
  line_painted,
  PixelsFit,
  LineFits,
  RoomFor,
};

use colour::Matrix;

// The column from which row `row` is padding.
fn padding_from(width: u16, height: u16, row: usize) -> usize
    ensures { result ≡ padding_from_of width height row }
{
    if row < height as usize {
        return width as usize;
    }
    0
}

// All of the plane but the picture's own rows and columns holds `value`.
fn pad_plane(plane: &mut [u8], width: u16, height: u16, value: u8)
    requires { round_up 16 height * round_up 16 width ≤ length plane.old }
    ensures { plane.new ≡ painted (round_up 16 width) (round_up 16 height)
        (λ r c. not (inside width height r c)) (λ r c. value) plane.old }
{
    let stride = lent::round_up_16(width);
    let rows = lent::round_up_16(height);
    for row in 0..rows {
        let line = row * stride;
        let from = padding_from(width, height, row);
        lent::fill(&mut plane[line + from..line + stride], value);
    }
}

// The red, green and blue of 16 pixels, each in an array of its own. A pixel is read as one word: a compiler that has no load of every
// fourth byte reads them one by one. The arrays' lengths are asked for, since a proof knows of an array behind a reference only what it
// is told.
fn apart(r: &mut [u8; 16], g: &mut [u8; 16], b: &mut [u8; 16], pixels: &[u8])
    requires r_len { (length r.old ≡ 16) × (length g.old ≡ 16) × (length b.old ≡ 16) }
    requires pixels_len { length pixels.now ≡ 64 }
    ensures r { r.new ≡ paint every (λ k. get_or pixels.now (4 * k) 0) r.old }
    ensures g { g.new ≡ paint every (λ k. get_or pixels.now (4 * k + 1) 0) g.old }
    ensures b { b.new ≡ paint every (λ k. get_or pixels.now (4 * k + 2) 0) b.old }
{
    for i in 0..16 {
        let w = lent::words::four(pixels, 4 * i);
        r[i] = (w % 256) as u8;
        g[i] = (w / 256 % 256) as u8;
        b[i] = (w / 65536 % 256) as u8;
    }
}

// Y, U and V of 16 colours. The matrix is one for all of them, so that the compiler asks for it once.
fn forward_16(
    matrix: Matrix,
    y: &mut [u8; 16],
    u: &mut [u8; 16],
    v: &mut [u8; 16],
    r: &[u8; 16],
    g: &[u8; 16],
    b: &[u8; 16],
)
    requires { (length y.old ≡ 16) × (length u.old ≡ 16) × (length v.old ≡ 16) }
    ensures y { y.new ≡ paint every
        (λ k. (colour_apart matrix r.now g.now b.now k).y) y.old }
    ensures u { u.new ≡ paint every
        (λ k. (colour_apart matrix r.now g.now b.now k).u) u.old }
    ensures v { v.new ≡ paint every
        (λ k. (colour_apart matrix r.now g.now b.now k).v) v.old }
{
    for i in 0..16 {
        let c = colour::forward_by(matrix, r[i], g[i], b[i]);
        y[i] = c.y;
        u[i] = c.u;
        v[i] = c.v;
    }
}

// The 16 bytes of a part of a row become those of the array: one store, since their number is known here.
fn put_16(dst: &mut [u8], from: &[u8; 16])
    requires { length dst.old ≡ 16 }
    ensures { dst.new ≡ paint every (λ k. get_or from.now k 0) dst.old }
{
    for i in 0..16 {
        dst[i] = from[i];
    }
}

// Y, U and V of 16 pixels, through local arrays, so that nothing that is read can be what was written: each step is vector code.
fn forward_part(matrix: Matrix, pixels: &[u8], y: &mut [u8], u: &mut [u8], v: &mut [u8])
    requires pixels_fit { PixelsFit (length pixels.now) (length y.old) (length u.old) (length v.old) }
    requires y_len { length y.old ≡ 16 }
    ensures y { y.new ≡ paint every (λ k. (colour_at matrix pixels.now k).y) y.old }
    ensures u { u.new ≡ paint every (λ k. (colour_at matrix pixels.now k).u) u.old }
    ensures v { v.new ≡ paint every (λ k. (colour_at matrix pixels.now k).v) v.old }
{
    let mut r = [0u8; 16];
    let mut g = [0u8; 16];
    let mut b = [0u8; 16];
    let mut p = [0u8; 16];
    let mut q = [0u8; 16];
    let mut s = [0u8; 16];
    apart(&mut r, &mut g, &mut b, pixels);
    forward_16(matrix, &mut p, &mut q, &mut s, &r, &g, &b);
    put_16(y, &p);
    put_16(u, &q);
    put_16(v, &s);
}

// Y, U and V of fewer than 16 pixels, one after the other.
fn forward_tail(matrix: Matrix, pixels: &[u8], y: &mut [u8], u: &mut [u8], v: &mut [u8])
    requires { PixelsFit (length pixels.now) (length y.old) (length u.old) (length v.old) }
    ensures y { y.new ≡ paint every (λ k. (colour_at matrix pixels.now k).y) y.old }
    ensures u { u.new ≡ paint every (λ k. (colour_at matrix pixels.now k).u) u.old }
    ensures v { v.new ≡ paint every (λ k. (colour_at matrix pixels.now k).v) v.old }
{
    let n = y.len();
    for i in 0..n {
        let red = pixels[4 * i];
        let green = pixels[4 * i + 1];
        let blue = pixels[4 * i + 2];
        let p = colour::forward_by(matrix, red, green, blue);
        y[i] = p.y;
        u[i] = p.u;
        v[i] = p.v;
    }
}

// Y, U and V of a row of pixels, in one pass: 16 pixels a turn, then the rest.
fn forward_row(matrix: Matrix, pixels: &[u8], y: &mut [u8], u: &mut [u8], v: &mut [u8])
    requires { PixelsFit (length pixels.now) (length y.old) (length u.old) (length v.old) }
    ensures y { y.new ≡ paint every (λ k. (colour_at matrix pixels.now k).y) y.old }
    ensures u { u.new ≡ paint every (λ k. (colour_at matrix pixels.now k).u) u.old }
    ensures v { v.new ≡ paint every (λ k. (colour_at matrix pixels.now k).v) v.old }
{
    let turns = y.len() / 16;
    for turn in 0..turns {
        let k = turn * 16;
        let end = k + 16;
        forward_part(
            matrix,
            &pixels[4 * k..4 * end],
            &mut y[k..end],
            &mut u[k..end],
            &mut v[k..end],
        );
    }
    let full = turns * 16;
    forward_tail(
        matrix,
        &pixels[4 * full..],
        &mut y[full..],
        &mut u[full..],
        &mut v[full..],
    );
}

// The `n` pixels from byte `at` on go to the samples from `line` on.
fn forward_line(
    matrix: Matrix,
    rgba: &[u8],
    at: usize,
    n: usize,
    line: usize,
    y: &mut [u8],
    u: &mut [u8],
    v: &mut [u8],
)
    requires { LineFits (length rgba.now) (length y.old) (length u.old) (length v.old) at n line }
    ensures y { y.new ≡ line_painted line n (λ k. (colour_at matrix (line_of rgba.now at n) k).y)
        y.old }
    ensures u { u.new ≡ line_painted line n (λ k. (colour_at matrix (line_of rgba.now at n) k).u)
        u.old }
    ensures v { v.new ≡ line_painted line n (λ k. (colour_at matrix (line_of rgba.now at n) k).v)
        v.old }
{
    let end = line + n;
    forward_row(
        matrix,
        &rgba[at..at + 4 * n],
        &mut y[line..end],
        &mut u[line..end],
        &mut v[line..end],
    );
}

// The picture's own rows and columns of the three planes hold the converted pixels.
fn forward_rows(
    matrix: Matrix,
    rgba: &[u8],
    width: u16,
    height: u16,
    y: &mut [u8],
    u: &mut [u8],
    v: &mut [u8],
)
    requires { RoomFor width height (length rgba.now) (length y.old) (length u.old) (length v.old) }
    ensures y { y.new ≡ painted (round_up 16 width) (round_up 16 height) (inside width height)
        (λ r c. (input_at matrix rgba.now width r c).y) y.old }
    ensures u { u.new ≡ painted (round_up 16 width) (round_up 16 height) (inside width height)
        (λ r c. (input_at matrix rgba.now width r c).u) u.old }
    ensures v { v.new ≡ painted (round_up 16 width) (round_up 16 height) (inside width height)
        (λ r c. (input_at matrix rgba.now width r c).v) v.old }
{
    let stride = lent::round_up_16(width);
    let n = width as usize;
    let m = height as usize;
    for row in 0..m {
        let at = 4 * (row * n);
        forward_line(matrix, rgba, at, n, row * stride, y, u, v);
    }
}

// The three planes of a picture: padding, then the converted pixels.
pub fn convert_planes(
    matrix: Matrix,
    rgba: &[u8],
    width: u16,
    height: u16,
    y: &mut [u8],
    u: &mut [u8],
    v: &mut [u8],
)
    requires { RoomFor width height (length rgba.now) (length y.old) (length u.old) (length v.old) }
    ensures y { y.new ≡ painted (round_up 16 width) (round_up 16 height) whole
        (λ r c. cond (inside width height r c) (input_at matrix rgba.now width r c).y 0) y.old }
    ensures u { u.new ≡ painted (round_up 16 width) (round_up 16 height) whole
        (λ r c. cond (inside width height r c) (input_at matrix rgba.now width r c).u 128) u.old }
    ensures v { v.new ≡ painted (round_up 16 width) (round_up 16 height) whole
        (λ r c. cond (inside width height r c) (input_at matrix rgba.now width r c).v 128) v.old }
{
    pad_plane(y, width, height, 0);
    pad_plane(u, width, height, 128);
    pad_plane(v, width, height, 128);
    forward_rows(matrix, rgba, width, height, y, u, v);
}
