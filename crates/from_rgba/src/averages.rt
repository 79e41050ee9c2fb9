// The averages that the main view carries: at every even row and even column of a plane, the average of the 2x2 block that starts there
// (ports the averaging loop of `Yuv444Frame::from_rgba`, one plane at a time).
//
// Promised: every byte of the plane, its padding included, as `averaged` of specs/Averaged.antt says of the samples from before the call,
// and nothing after the plane. Two rows at a time, and of these two columns at a time, each as one word: a loop that stores every second
// byte is no vector code.
ghost use Rattle.std.specs.Prelude.{◌≡◌, [], ◌∷◌, ◌+◌, ◌-◌, ◌*◌, ◌/◌, ◌%◌, ◌≤◌, ltb, length, get_or};
ghost use Rattle.lent.specs.Paint.{paint, painted, whole, within};
ghost use Rattle.lent.specs.Samples.{sample};
ghost use Rattle.colour.specs.Colour.{average_of};
ghost use Rattle.from_rgba.specs.Averaged.{averaged};

// Two columns of the upper row after the average: `upper` are their bytes, `lower` those below.
fn averaged_pair(upper: u16, lower: u16) -> u16
    ensures { (result % 256 ≡ average_of (upper % 256 ∷ upper / 256 ∷ lower % 256 ∷ lower / 256 ∷ []))
        × (result / 256 ≡ upper / 256) }
{
    let [a, b] = upper.to_le_bytes();
    let [c, d] = lower.to_le_bytes();
    let samples = [a, b, c, d];
    colour::average(colour::Block { samples }) as u16 + 256 * (upper / 256)
}

// The first columns of dst, two for each block, become those of the row from `at` on after the average with the row from `below` on.
fn averages_of(dst: &mut [u8; 128], rows: &[u8], at: usize, below: usize, blocks: usize)
    requires at_value { at % 2 ≡ 0 }
    requires at_le_below { at ≤ below }
    requires blocks_in_bounds { below + 2 * blocks ≤ length rows.now }
    requires blocks_bound { blocks ≤ 64 }
    ensures { dst.new ≡ paint (λ j. ltb j (2 * blocks))
        (λ j. averaged (sample rows.now (below - at)) 0 (at + j)) dst.old }
{
    for i in 0..blocks {
        let k = 2 * i;
        let upper = lent::words::two(rows, at + k);
        let lower = lent::words::two(rows, below + k);
        lent::words::put_two(dst, k, averaged_pair(upper, lower));
    }
}

// The n bytes of dst from `at` on become the first n of `from`.
fn put_back(dst: &mut [u8], at: usize, from: &[u8; 128], n: usize)
    requires n_in_bounds { at + n ≤ length dst.old }
    requires n_bound { n ≤ 128 }
    ensures { dst.new ≡ paint (within at (at + n)) (λ k. get_or from.now (k - at) 0)
        dst.old }
{
    for i in 0..n {
        dst[at + i] = from[i];
    }
}

// At most 128 columns of the upper row, through a local array: what is read and what is written are apart, and so the loop is vector code.
fn average_part(pair: &mut [u8], at: usize, below: usize, n: usize)
    requires at_value { at % 2 ≡ 0 }
    requires n_value { n % 2 ≡ 0 }
    requires n_bound { n ≤ 128 }
    requires at_le_below { at ≤ below }
    requires n_in_bounds { below + n ≤ length pair.old }
    ensures { pair.new ≡ paint (within at (at + n)) (averaged (sample pair.old (below - at)) 0)
        pair.old }
{
    let mut t = [0u8; 128];
    averages_of(&mut t, pair, at, below, n / 2);
    put_back(pair, at, &t, n);
}

// A pair of rows: the even columns of the upper one hold their blocks' averages.
fn average_pair(pair: &mut [u8], stride: usize)
    requires stride_in_bounds { 2 * stride ≤ length pair.old }
    requires stride_value { stride % 2 ≡ 0 }
    ensures { pair.new ≡ painted stride 2 whole (averaged (sample pair.old stride))
        pair.old }
{
    for k in (0..stride).step_by(128) {
        let n = (stride - k).min(128);
        average_part(pair, k, stride + k, n);
    }
}

// The whole plane, padding included: every even row and even column holds its block's average.
pub fn average_plane(plane: &mut [u8], stride: usize, rows: usize)
    requires stride_in_bounds { rows * stride ≤ length plane.old }
    requires stride_value { stride % 2 ≡ 0 }
    requires rows_value { rows % 2 ≡ 0 }
    ensures { plane.new ≡ painted stride rows whole (averaged (sample plane.old stride))
        plane.old }
{
    for row in (0..rows).step_by(2) {
        let line = row * stride;
        average_pair(&mut plane[line..line + 2 * stride], stride);
    }
}
