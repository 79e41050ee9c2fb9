// One row of a view of a split, read out of one row of the picture: whole, every second sample, or every fourth.
//
// Each writer promises every byte of the row that it is lent: the sample of the picture that belongs there. A row goes by parts of 64
// bytes. Every second byte of a whole part goes through 64 pairs, which the compiler turns into vector code and keeps in registers, since
// it knows their number; every fourth byte is every second one twice. What is left at the row's end is read byte by byte.
//
// A view may be wider than the picture's planes: its rows then go on with one byte. What the 32 rule adds to a row, to half of one and to a
// quarter is filled in a place of its own, where the compiler knows how many bytes it is and makes no call for them.
#![tactic(auto)]

ghost use Rattle.std.specs.Prelude.{◌≡◌, ◌⊎◌, ◌+◌, ◌*◌, ◌%◌, ◌<◌, ◌≤◌, ltb, length, get_or};
ghost use Rattle.lent.specs.Paint.{paint, every};
ghost use Rattle.lent.specs.Samples.{sample};
ghost use Rattle.split_rows.specs.Seen.{seen};
ghost use Rattle.split_rows.specs.Pairs.{pair_of};
ghost use Rattle.split_rows.specs.Fits.{StepsFit, WideFits};
ghost use Rattle.std.specs.Int.{to_le_bytes, w16};

// out becomes row `row` of the plane.
pub fn copy_row(out: &mut [u8], plane: &[u8], stride: usize, row: usize)
    requires { StepsFit (length out.old) (length plane.now) 1 stride row }
    ensures { out.new ≡ paint every (λ c. sample plane.now stride row c) out.old }
{
    let from = row * stride;
    lent::copy(out, &plane[from..from + stride]);
}

// Two bytes as one number: pairs[i] is src[2 i] + 256 src[2 i + 1], for i below n. The compiler makes a plain copy of it, where a loop
// that reads every second byte would go byte by byte.
pub fn pair(pairs: &mut [u16], src: &[u8], n: usize)
    requires n_in_bounds { n ≤ length pairs.old }
    requires n_in_bounds_2 { 2 * n ≤ length src.now }
    ensures { pairs.new ≡ paint (λ k. ltb k n) (pair_of src.now) pairs.old }
{
    for i in 0..n {
        pairs[i] = u16::from_le_bytes([src[2 * i], src[2 * i + 1]]);
    }
}

// dst becomes the first bytes of the pairs, WHICH being 0, or the second ones, WHICH being 1.
fn bytes<const WHICH: usize>(dst: &mut [u8], pairs: &[u16])
    requires same_length { length dst.old ≡ length pairs.now }
    requires which_bound { WHICH < 2 }
    ensures { dst.new ≡ paint every (λ k. get_or (to_le_bytes w16 (get_or pairs.now k 0)) WHICH 0) dst.old }
{
    for (i, p) in pairs.iter().enumerate() {
        dst[i] = p.to_le_bytes()[WHICH];
    }
}

// dst becomes the first bytes of the pairs.
pub fn firsts(dst: &mut [u8], pairs: &[u16])
    requires { length dst.old ≡ length pairs.now }
    ensures { dst.new ≡ paint every (λ k. get_or pairs.now k 0 % 256) dst.old }
{
    bytes::<0>(dst, pairs);
}

// dst, N bytes, becomes every second byte of src, the first being src[first].
fn seconds<const N: usize>(dst: &mut [u8], src: &[u8], first: usize)
    requires dst_len { length dst.old ≡ N }
    requires in_bounds { 2 * N ≤ length src.now }
    requires first_bound { first < 2 }
    ensures { dst.new ≡ paint every (λ k. get_or src.now (2 * k + first) 0) dst.old }
{
    let mut pairs = [0u16; N];
    pair(&mut pairs, src, N);
    if first == 0 {
        firsts(dst, &pairs);
    } else {
        bytes::<1>(dst, &pairs);
    }
}

// The same of 2 N bytes, in two parts.
pub fn seconds_twice<const N: usize>(dst: &mut [u8], src: &[u8], first: usize)
    requires dst_len { length dst.old ≡ 2 * N }
    requires in_bounds { 4 * N ≤ length src.now }
    requires first_bound { first < 2 }
    ensures { dst.new ≡ paint every (λ k. get_or src.now (2 * k + first) 0) dst.old }
{
    seconds::<N>(&mut dst[0..N], &src[0..2 * N], first);
    seconds::<N>(&mut dst[N..2 * N], &src[2 * N..4 * N], first);
}

// dst, 64 bytes, becomes every fourth byte of src, the first being src[first].
fn fourths_64(dst: &mut [u8], src: &[u8], first: usize)
    requires dst_len { length dst.old ≡ 64 }
    requires in_bounds { 256 ≤ length src.now }
    requires first_bound { first < 4 }
    ensures { dst.new ≡ paint every (λ k. get_or src.now (4 * k + first) 0) dst.old }
{
    let mut half = [0u8; 128];
    seconds_twice::<64>(&mut half, src, first % 2);
    seconds::<64>(dst, &half, first / 2);
}

// dst, at most 64 bytes, becomes each STEP-th byte of src, the first being src[first].
fn picked_part<const STEP: usize>(dst: &mut [u8], src: &[u8], first: usize)
    requires step_value { (STEP ≡ 2) ⊎ (STEP ≡ 4) }
    requires dst_in_bounds { STEP * length dst.old ≤ length src.now }
    requires first_bound { first < STEP }
    ensures { dst.new ≡ paint every (λ k. get_or src.now (STEP * k + first) 0) dst.old }
{
    let n = dst.len();
    if STEP == 2 {
        if n == 64 {
            seconds::<64>(dst, src, first);
        } else {
            columns::weave::seconds(dst, src, first, n);
        }
    } else {
        if n == 64 {
            fourths_64(dst, src, first);
        } else {
            columns::weave::fourths_of(dst, src, first);
        }
    }
}

// out becomes each STEP-th sample of row `row` of the plane, from column `first` on.
fn picked_row<const STEP: usize>(
    out: &mut [u8],
    plane: &[u8],
    stride: usize,
    row: usize,
    first: usize,
)
    requires step_value { (STEP ≡ 2) ⊎ (STEP ≡ 4) }
    requires steps_fit { StepsFit (length out.old) (length plane.now) STEP stride row }
    requires first_bound { first < STEP }
    ensures { out.new ≡ paint every (λ c. sample plane.now stride row (STEP * c + first)) out.old }
{
    let line = row * stride;
    let n = out.len();
    for at in (0..n).step_by(64) {
        let end = at + (n - at).min(64);
        picked_part::<STEP>(
            &mut out[at..end],
            &plane[line + STEP * at..line + STEP * end],
            first,
        );
    }
}

// out becomes row `row` of the plane as if it went on past the stride, and held `fill` there.
pub fn copy_wide(out: &mut [u8], plane: &[u8], stride: usize, row: usize, fill: u8)
    requires { WideFits (length out.old) (length plane.now) 1 stride row }
    ensures { out.new ≡ paint every (λ c. seen fill plane.now stride row c) out.old }
{
    let end = out.len();
    copy_row(&mut out[0..stride], plane, stride, row);
    if end == stride + 16 {
        lent::fill(&mut out[stride..stride + 16], fill);
    } else {
        lent::fill(&mut out[stride..end], fill);
    }
}

// out becomes each STEP-th sample of such a row, from column `first` on.
pub fn picked_wide<const STEP: usize>(
    out: &mut [u8],
    plane: &[u8],
    stride: usize,
    row: usize,
    first: usize,
    fill: u8,
)
    requires step_value { (STEP ≡ 2) ⊎ (STEP ≡ 4) }
    requires wide_fits { WideFits (length out.old) (length plane.now) STEP stride row }
    requires first_bound { first < STEP }
    ensures { out.new ≡ paint every (λ c. seen fill plane.now stride row (STEP * c + first)) out.old }
{
    let most = stride / STEP;
    let end = out.len();
    picked_row::<STEP>(&mut out[0..most], plane, stride, row, first);
    if end == most + 16 / STEP {
        lent::fill(&mut out[most..most + 16 / STEP], fill);
    } else {
        lent::fill(&mut out[most..end], fill);
    }
}
