// A part of a row, at most 64 pixels: what each chroma sample adds to the channels, from the four tables, and then the pixels. The rules that
// make a row of them (specs/Rules.antt) are kept by `picture_rows` and `view_rows`.
//
// Two passes through local arrays, since what is looked up in a table is no vector code, and all that follows is. Each call promises every
// byte of the part that it is lent, by the rule, for every index that is in range.
#![tactic(auto)]

pub mod limited_rows; // the same of limited range
pub mod picture_rows; // a row of picture to RGBA
pub mod view_rows; // the rows of a view that share their chroma, to RGBA

ghost use Rattle.std.specs.Prelude.{◌≡◌, ◌+◌, ◌*◌, ◌≤◌, length, get_or};
ghost use Rattle.lent.specs.Paint.{paint, every};
ghost use Rattle.lent.specs.Pixels.{bytes};
ghost use Rattle.colour.specs.Products.{red_share_of, green_share_of, blue_share_of};
ghost use Rattle.to_rgba_rows.specs.Rules.{plain_from, shades_from};
ghost use Rattle.to_rgba_rows.specs.Fits.{PartFits, Shares, Small};

// The shares of n chroma samples from c on. Three arrays and no struct of them: what is longer than 128 bytes is cleared by a call, in every
// part. Their lengths are asked for, since a proof knows of an array behind a reference only what it is told.
fn shares(
    r: &mut [i16; 64],
    g: &mut [i16; 64],
    b: &mut [i16; 64],
    u: &[u8],
    v: &[u8],
    c: usize,
    n: usize,
)
    requires r_len { (length r.old ≡ 64) × (length g.old ≡ 64) × (length b.old ≡ 64) }
    requires n_bound { (n ≤ 64) × (c + n ≤ length u.now) × (c + n ≤ length v.now) }
    ensures r { Shares n r.new (λ k. red_share_of (get_or v.now (c + k) 0)) }
    ensures g { Shares n g.new
        (λ k. green_share_of (get_or u.now (c + k) 0) (get_or v.now (c + k) 0)) }
    ensures b { Shares n b.new (λ k. blue_share_of (get_or u.now (c + k) 0)) }
{
    for i in 0..n {
        let p = u[c + i];
        let q = v[c + i];
        r[i] = colour::red_share(q);
        g[i] = colour::green_share(p, q);
        b[i] = colour::blue_share(p);
    }
}

// n pixels, of the luma from `at` on and the first n shares of each channel.
fn shades(
    out: &mut [u8],
    y: &[u8],
    at: usize,
    r: &[i16; 64],
    g: &[i16; 64],
    b: &[i16; 64],
    n: usize,
)
    requires out_len { (length out.old ≡ 4 * n) × (n ≤ 64) × (at + n ≤ length y.now) }
    requires small { Small n r.now × Small n g.now × Small n b.now }
    ensures { out.new ≡ paint every
        (bytes (shades_from (λ k. k) y.now at r.now g.now b.now)) out.old }
{
    for i in 0..n {
        lent::put_pixel(out, i, colour::shade(y[at + i], r[i], g[i], b[i]));
    }
}

// n pixels as their samples stand, luma from `at` on and chroma from c on.
fn part(out: &mut [u8], y: &[u8], at: usize, u: &[u8], v: &[u8], c: usize, n: usize)
    requires { PartFits (length out.old) (length y.now) (length u.now) (length v.now) at c n }
    ensures { out.new ≡ paint every
        (bytes (plain_from y.now at u.now v.now c)) out.old }
{
    let mut r = [0i16; 64];
    let mut g = [0i16; 64];
    let mut b = [0i16; 64];
    shares(&mut r, &mut g, &mut b, u, v, c, n);
    shades(out, y, at, &r, &g, &b, n);
}
