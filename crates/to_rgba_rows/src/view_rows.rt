// The rows of a view that share their chroma: an even row and the one below it, or a last one alone.
//
// What the chroma adds to the channels is looked up once for both rows. The writers promise every byte of the rows that they are lent, by
// the rule that makes a pixel (specs/Rules.antt).
ghost use Rattle.std.specs.Prelude.{◌≡◌, ◌+◌, ◌-◌, ◌*◌, ◌/◌, ◌≤◌, length, get_or};
ghost use Rattle.colour.specs.Colour.{reverse_of};
ghost use Rattle.lent.specs.Paint.{paint, painted, every, whole, within};
ghost use Rattle.lent.specs.Pixels.{bytes};
ghost use Rattle.to_rgba_rows.specs.Rules.{view_pixel_at, shades_from, half_of};
ghost use Rattle.to_rgba_rows.specs.Fits.{LinesFit, ViewPartFits, ViewLinesFit, Small};

// m pixels, of the luma from `at` on and the first shares of each channel, one for two pixels: pairs, with an odd last one apart. The luma of
// a pair is read as one word, since a loop that reads every second byte is no vector code.
fn pair_shades(
    out: &mut [u8],
    y: &[u8],
    at: usize,
    r: &[i16; 64],
    g: &[i16; 64],
    b: &[i16; 64],
    m: usize,
)
    requires out_len { (length out.old ≡ 4 * m) × (m ≤ 64) × (at + m ≤ length y.now) }
    requires small { Small ((m + 1) / 2) r.now × Small ((m + 1) / 2) g.now × Small ((m + 1) / 2) b.now }
    ensures { out.new ≡ paint every
        (bytes (shades_from half_of y.now at r.now g.now b.now)) out.old }
{
    let pairs = m / 2;
    for i in 0..pairs {
        let j = 2 * i;
        let w = lent::words::two(y, at + j);
        lent::put_pixel(out, j, colour::shade((w % 256) as u8, r[i], g[i], b[i]));
        lent::put_pixel(out, j + 1, colour::shade((w / 256) as u8, r[i], g[i], b[i]));
    }
    let end = 2 * pairs;
    if end < m {
        lent::put_pixel(
            out,
            end,
            colour::shade(y[at + end], r[pairs], g[pairs], b[pairs]),
        );
    }
}

// Columns k to below k + m of each of `lines` rows of n pixels; the luma of the first row starts at `at`.
fn shade_lines(
    out: &mut [u8],
    y: &[u8],
    luma: usize,
    at: usize,
    n: usize,
    k: usize,
    m: usize,
    lines: usize,
    r: &[i16; 64],
    g: &[i16; 64],
    b: &[i16; 64],
)
    requires lines_fit { LinesFit (length out.old) (length y.now) luma at n k m lines }
    requires small { Small ((m + 1) / 2) r.now × Small ((m + 1) / 2) g.now × Small ((m + 1) / 2) b.now }
    ensures { out.new ≡ painted (4 * n) lines (λ l. within (4 * k) (4 * (k + m)))
        (λ l. bytes (λ i. shades_from half_of y.now (at + l * luma + k) r.now g.now b.now (i - k)))
        out.old }
{
    for l in 0..lines {
        let start = l * (4 * n) + 4 * k;
        pair_shades(
            &mut out[start..start + 4 * m],
            y,
            at + l * luma + k,
            r,
            g,
            b,
            m,
        );
    }
}

// The same with the shares looked up: the chroma of column k is at c.
fn view_part(
    out: &mut [u8],
    y: &[u8],
    u: &[u8],
    v: &[u8],
    luma: usize,
    at: usize,
    c: usize,
    n: usize,
    k: usize,
    m: usize,
    lines: usize,
)
    requires { ViewPartFits (length out.old) (length y.now) (length u.now) (length v.now) luma at c n k m lines }
    ensures { out.new ≡ painted (4 * n) lines (λ l. within (4 * k) (4 * (k + m)))
        (λ l. bytes (λ i. reverse_of (get_or y.now (at + l * luma + i) 0)
        (get_or u.now (c + (i - k) / 2) 0) (get_or v.now (c + (i - k) / 2) 0))) out.old }
{
    let mut r = [0i16; 64];
    let mut g = [0i16; 64];
    let mut b = [0i16; 64];
    crate::shares(&mut r, &mut g, &mut b, u, v, c, (m + 1) / 2);
    shade_lines(out, y, luma, at, n, k, m, lines, &r, &g, &b);
}

// At most two rows of a view from the even row `row` on, n pixels each: 64 columns a turn.
pub fn view_lines(
    out: &mut [u8],
    y: &[u8],
    u: &[u8],
    v: &[u8],
    luma: usize,
    chroma: usize,
    row: usize,
    n: usize,
    lines: usize,
)
    requires { ViewLinesFit (length out.old) (length y.now) (length u.now) (length v.now) luma chroma row n lines }
    ensures { out.new ≡ painted (4 * n) lines whole
        (λ l. bytes (view_pixel_at reverse_of luma chroma y.now u.now v.now (row + l)))
        out.old }
{
    let at = row * luma;
    let half = row / 2 * chroma;
    for k in (0..n).step_by(64) {
        let m = (n - k).min(64);
        view_part(out, y, u, v, luma, at, half + k / 2, n, k, m, lines);
    }
}
