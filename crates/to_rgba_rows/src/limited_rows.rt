// The rows of a view of limited range that share their chroma: an even row and the one below it, or a last one alone.
//
// Every factor is a product of 16 bits (colour::limited), so a row needs no table and goes in one pass. The writers promise every byte of the rows
// that they are lent, by the rule that makes a pixel (specs/Rules.antt).
ghost use Rattle.std.specs.Prelude.{◌≡◌, ◌+◌, ◌*◌, length};
ghost use Rattle.colour.specs.Limited.{limited_reverse_of};
ghost use Rattle.lent.specs.Paint.{paint, painted, every, whole};
ghost use Rattle.lent.specs.Pixels.{bytes};
ghost use Rattle.to_rgba_rows.specs.Rules.{view_pixel_at, paired_from};
ghost use Rattle.to_rgba_rows.specs.Fits.{PairedFits, ViewLinesFit};

// n pixels, of the luma from `at` on and the chroma from c on: pairs, with an odd last one apart. The luma of a pair is read as one word, since
// a loop that reads every second byte is no vector code.
fn limited_row(out: &mut [u8], y: &[u8], at: usize, u: &[u8], v: &[u8], c: usize, n: usize)
    requires { PairedFits (length out.old) (length y.now) (length u.now) (length v.now) at c n }
    ensures { out.new ≡ paint every
        (bytes (paired_from limited_reverse_of y.now at u.now v.now c)) out.old }
{
    let pairs = n / 2;
    for i in 0..pairs {
        let j = 2 * i;
        let w = lent::words::two(y, at + j);
        let p = u[c + i];
        let q = v[c + i];
        lent::put_pixel(out, j, colour::limited::reverse((w % 256) as u8, p, q));
        lent::put_pixel(out, j + 1, colour::limited::reverse((w / 256) as u8, p, q));
    }
    let end = 2 * pairs;
    if end < n {
        lent::put_pixel(
            out,
            end,
            colour::limited::reverse(y[at + end], u[c + pairs], v[c + pairs]),
        );
    }
}

// At most two rows of a view from the even row `row` on, n pixels each.
pub fn limited_lines(
    out: &mut [u8],
    y: &[u8],
    u: &[u8],
    v: &[u8],
    luma: usize,
    chroma: usize,
    row: usize,
    n: usize,
    lines: usize,
)
    requires { ViewLinesFit (length out.old) (length y.now) (length u.now) (length v.now) luma chroma row n lines }
    ensures { out.new ≡ painted (4 * n) lines whole
        (λ l. bytes (view_pixel_at limited_reverse_of luma chroma y.now u.now v.now (row + l)))
        out.old }
{
    let half = row / 2 * chroma;
    let wide = 4 * n;
    for l in 0..lines {
        let start = l * wide;
        limited_row(
            &mut out[start..start + wide],
            y,
            (row + l) * luma,
            u,
            v,
            half,
            n,
        );
    }
}
