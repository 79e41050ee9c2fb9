// Two rows that are written alike: each byte of a view's chroma row goes to two places of two rows. A byte is loaded once and stored four times.
ghost use Rattle.std.specs.Prelude.{◌≡◌, ◌+◌, ◌*◌, ◌≤◌, length};
ghost use Rattle.lent.specs.Spread.{spread_at};

// The 16 places from a on, then those from b on, become the 8 bytes of `from`, each at two places: one load and two stores, as in `spread_16`.
fn put_16(dst: &mut [u8], a: usize, b: usize, from: &[u8])
    requires a_bound { (a + 16 ≤ b) × (b + 16 ≤ length dst.old) }
    requires from_len { length from.now ≡ 8 }
    ensures { dst.new ≡ spread_at b 16 from.now (spread_at a 16 from.now dst.old) }
{
    let mut both = [0u8; 16];
    crate::pairs(&mut both, from, 8);
    crate::copy_front(&mut dst[a..a + 16], &both, 16);
    crate::copy_front(&mut dst[b..b + 16], &both, 16);
}

// The n pairs from a on, then those from b on, at most 32 places of each: two turns, and no loop.
fn few_pairs(dst: &mut [u8], a: usize, b: usize, from: &[u8], n: usize)
    requires le_n { (8 ≤ n) × (n ≤ 16) × (a + 2 * n ≤ b) × (b + 2 * n ≤ length dst.old) }
    requires n_in_bounds { n ≤ length from.now }
    ensures { dst.new ≡ spread_at b (2 * n) from.now (spread_at a (2 * n) from.now dst.old) }
{
    let rest = n - 8;
    put_16(dst, a, b, &from[0..8]);
    put_16(dst, a + 2 * rest, b + 2 * rest, &from[rest..n]);
}

// The n pairs from a on, then those from b on. 16 places of each a turn; the last turn ends at the end, as in `many_pairs`.
fn pairs(dst: &mut [u8], a: usize, b: usize, from: &[u8], n: usize)
    requires le_n { (8 ≤ n) × (a + 2 * n ≤ b) × (b + 2 * n ≤ length dst.old) }
    requires n_in_bounds { n ≤ length from.now }
    ensures { dst.new ≡ spread_at b (2 * n) from.now (spread_at a (2 * n) from.now dst.old) }
{
    if n <= 16 {
        few_pairs(dst, a, b, from, n);
        return;
    }
    let most = n - 8;
    for k in 0..most.div_ceil(8) {
        let i = 8 * k;
        put_16(dst, a + 2 * i, b + 2 * i, &from[i..i + 8]);
    }
    put_16(dst, a + 2 * most, b + 2 * most, &from[most..n]);
}

// The `wide` places from a on, then those from b on, become the bytes of `from`, each at two places. A macroblock's row goes without the loop.
pub fn spread(dst: &mut [u8], a: usize, b: usize, wide: usize, from: &[u8])
    requires le_wide { (16 ≤ wide) × (a + wide ≤ b) × (b + wide ≤ length dst.old) }
    requires wide_bound { wide ≤ 2 * length from.now }
    ensures { dst.new ≡ spread_at b wide from.now (spread_at a wide from.now dst.old) }
{
    if wide == 16 {
        put_16(dst, a, b, &from[0..8]);
        return;
    }
    let n = wide / 2;
    pairs(dst, a, b, from, n);
    let end = 2 * n;
    if end == wide {
        return;
    }
    dst[a + end] = from[n];
    dst[b + end] = from[n];
}
