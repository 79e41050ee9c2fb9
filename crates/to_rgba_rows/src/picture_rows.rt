// One row of pixels of a picture, from any column on.
//
// Each writer promises every byte of the row that it is lent, by the rule that makes a pixel (specs/Rules.antt).
// Parts of at most 64 pixels; of an even row each part starts at an even column, so that its samples are filtered in pairs: two columns are
// one word, since a loop that reads or writes every second byte is no vector code.
ghost use Rattle.std.specs.Prelude.{◌≡◌, [], ◌∷◌, ◌+◌, ◌*◌, ◌/◌, ◌%◌, ◌≤◌, ◌<◌, ltb, length, get_or, set};
ghost use Rattle.lent.specs.Counts.{total};
ghost use Rattle.lent.specs.Paint.{paint, every};
ghost use Rattle.lent.specs.Pixels.{bytes, done};
ghost use Rattle.colour.specs.Colour.{reverse_of, filter_of, applied_in, undone_in};
ghost use Rattle.to_rgba_rows.specs.Rules.{
  corners_at,
  pixel_at,
  row_from,
  smooth_from,
  mark_of,
  filtered_from,
  row_filtered_of,
  in_both,
};
ghost use Rattle.to_rgba_rows.specs.Fits.{BlocksFit, MarksFit, EvenPartFits, RowFits, PixelRowsFit};

// How many samples of U and of V the filter replaced.
#[derive(Clone, Copy)]
pub struct Filtered {
    pub u: usize,
    pub v: usize,
}

// The filter of a block: `upper` are the bytes of its upper row, `lower` those below.
fn undone(upper: u16, lower: u16) -> colour::Undone
    ensures { result ≡ undone_in (upper % 256 ∷ upper / 256 ∷ lower % 256 ∷ lower / 256 ∷ []) }
{
    let [a, b] = upper.to_le_bytes();
    let [c, d] = lower.to_le_bytes();
    let samples = [a, b, c, d];
    colour::filter(colour::Block { samples })
}

// Two columns of the upper row, the first one filtered.
fn smoothed_pair(value: u8, upper: u16) -> u16
    ensures { (result % 256 ≡ value) × (result / 256 ≡ upper / 256) }
{
    value as u16 + 256 * (upper / 256)
}

// A block of a plane, whose rows start at `at` and `below`: the two columns of its upper row go to dst from k on, the first one filtered.
// Answers whether the filter was applied.
fn smoothed_block(dst: &mut [u8; 64], k: usize, p: &[u8], at: usize, below: usize) -> bool
    requires { (at + 2 ≤ length p.now) × (below + 2 ≤ length p.now) × (k + 2 ≤ length dst.old) }
    ensures dst_after { dst.new ≡ set (set dst.old k (filter_of (corners_at p.now at below)))
        (k + 1) (get_or p.now (at + 1) 0) }
    ensures value { result ≡ applied_in (corners_at p.now at below) }
{
    let upper = lent::words::two(p, at);
    let lower = lent::words::two(p, below);
    let f = undone(upper, lower);
    lent::words::put_two(dst, k, smoothed_pair(f.value, upper));
    f.applied
}

// The first columns of p and q, two for each block, become those of the rows of U and V from `at` on, filtered with the rows from `below` on. Each
// block is marked: 1 where the filter was applied in U, 256 where in V. Marked and not summed up, since of a loop with a sum the compiler
// makes turns of 16 blocks, and the rows of a small rectangle have fewer.
fn smoothed(
    p: &mut [u8; 64],
    q: &mut [u8; 64],
    marks: &mut [u16; 32],
    u: &[u8],
    v: &[u8],
    at: usize,
    below: usize,
    blocks: usize,
)
    requires { BlocksFit (length p.old) (length q.old) (length marks.old) (length u.now) (length v.now) at below blocks }
    ensures p { p.new ≡ paint (λ j. ltb j (2 * blocks)) (smooth_from u.now at below) p.old }
    ensures q { q.new ≡ paint (λ j. ltb j (2 * blocks)) (smooth_from v.now at below) q.old }
    ensures marks { marks.new ≡ paint (λ i. ltb i blocks)
        (mark_of u.now v.now at below) marks.old }
{
    for i in 0..blocks {
        let k = 2 * i;
        let in_u = smoothed_block(p, k, u, at + k, below + k);
        let in_v = smoothed_block(q, k, v, at + k, below + k);
        marks[i] = in_u as u16 + 256 * in_v as u16;
    }
}

// How many blocks are marked in U and in V: the sum of all marks has both counts, one in each of its bytes.
fn counted(marks: &[u16; 32]) -> Filtered
    requires { MarksFit marks.now }
    ensures { (result.u ≡ total 32 (λ i. get_or marks.now i 0) % 256)
        × (result.v ≡ total 32 (λ i. get_or marks.now i 0) / 256) }
{
    let mut sum: u16 = 0;
    for mark in marks {
        sum += *mark;
    }
    Filtered {
        u: (sum % 256) as usize,
        v: (sum / 256) as usize,
    }
}

// n pixels of an even row from an even column on, their chroma filtered, and how often.
fn even_part(
    out: &mut [u8],
    y: &[u8],
    u: &[u8],
    v: &[u8],
    at: usize,
    below: usize,
    n: usize,
) -> Filtered
    requires { EvenPartFits (length out.old) (length y.now) (length u.now) (length v.now) at below n }
    ensures out_after { out.new ≡ paint every (bytes (λ k. reverse_of (get_or y.now (at + k) 0)
        (smooth_from u.now at below k) (smooth_from v.now at below k))) out.old }
    ensures value { result ≡ in_both (filtered_from at below n) u.now v.now }
{
    let mut p = [0u8; 64];
    let mut q = [0u8; 64];
    let mut marks = [0u16; 32];
    smoothed(&mut p, &mut q, &mut marks, u, v, at, below, (n + 1) / 2);
    crate::part(out, y, at, &p, &q, 0, n);
    counted(&marks)
}

// An odd row: no pixel is filtered. What is said of a row holds where it is odd; in any other no index is out of range.
fn odd_row(
    out: &mut [u8],
    y: &[u8],
    u: &[u8],
    v: &[u8],
    stride: usize,
    row: usize,
    left: usize,
    n: usize,
)
    requires { RowFits (length out.old) (length y.now) (length u.now) (length v.now) stride stride row left n }
    ensures { row % 2 ≡ 1 → out.new ≡ paint every
        (bytes (row_from left (pixel_at stride y.now u.now v.now row)))
        out.old }
{
    let at = row * stride + left;
    for k in (0..n).step_by(64) {
        let m = (n - k).min(64);
        let here = at + k;
        crate::part(&mut out[4 * k..4 * (k + m)], y, here, u, v, here, m);
    }
}

// An odd first column of an even row.
fn even_head(
    out: &mut [u8],
    y: &[u8],
    u: &[u8],
    v: &[u8],
    stride: usize,
    row: usize,
    left: usize,
    n: usize,
)
    requires row_fits { RowFits (length out.old) (length y.now) (length u.now) (length v.now) stride stride row left n }
    requires n_nonzero { 0 < n }
    ensures { out.new ≡ done
        (row_from left (pixel_at stride y.now u.now v.now row)) (left % 2) out.old }
{
    if left % 2 == 1 {
        let at = row * stride + left;
        crate::part(&mut out[0..4], y, at, u, v, at, 1);
    }
}

// An even row: the pixels of even columns are filtered. What is said of a row holds where it is even. An odd first column apart.
fn even_row(
    out: &mut [u8],
    y: &[u8],
    u: &[u8],
    v: &[u8],
    stride: usize,
    row: usize,
    left: usize,
    n: usize,
) -> Filtered
    requires row_fits { RowFits (length out.old) (length y.now) (length u.now) (length v.now) (2 * stride) stride row left n }
    requires stride_value { (stride % 2 ≡ 0) × (0 < n) }
    ensures out_after { row % 2 ≡ 0 → out.new ≡ paint every
        (bytes (row_from left (pixel_at stride y.now u.now v.now row)))
        out.old }
    ensures value { row % 2 ≡ 0 → result ≡ in_both (row_filtered_of stride row left n) u.now v.now }
{
    let at = row * stride + left;
    even_head(out, y, u, v, stride, row, left, n);
    let mut filtered_u = 0;
    let mut filtered_v = 0;
    for col in (left % 2..n).step_by(64) {
        let m = (n - col).min(64);
        let here = at + col;
        let filtered = even_part(
            &mut out[4 * col..4 * (col + m)],
            y,
            u,
            v,
            here,
            here + stride,
            m,
        );
        filtered_u += filtered.u;
        filtered_v += filtered.v;
    }
    Filtered {
        u: filtered_u,
        v: filtered_v,
    }
}

// Row `row` of the picture, n pixels from column `left` on, and how many samples of it were filtered.
pub fn put_row(
    out: &mut [u8],
    y: &[u8],
    u: &[u8],
    v: &[u8],
    stride: usize,
    rows: usize,
    row: usize,
    left: usize,
    n: usize,
) -> Filtered
    requires pixel_rows_fit { PixelRowsFit (length out.old) (length y.now) (length u.now) (length v.now) stride rows left row n 1 }
    requires out_len { length out.old ≡ 4 * n }
    ensures out_after { out.new ≡ paint every
        (bytes (row_from left (pixel_at stride y.now u.now v.now row)))
        out.old }
    ensures value { result ≡ in_both (row_filtered_of stride row left n) u.now v.now }
{
    if row % 2 == 0 {
        // No even row is past rows - 2. Said in the code too: then the compiler's own test that the output overlaps no plane, which it makes
        // once for all rows, does not count a row below the last one.
        let even = row.min(rows - 2);
        return even_row(out, y, u, v, stride, even, left, n);
    }
    odd_row(out, y, u, v, stride, row, left, n);
    Filtered { u: 0, v: 0 }
}
