// What a call leaves in lent buffers: the words and the laws that every other crate states its promises with, and the smallest writers.
//
// A call's outcome is an equation (specs/Outcome.antt), a plane after a call is `painted` (specs/Paint.antt), and a refusal is the first
// number whose test holds (specs/Refusal.antt). The row writers promise every byte of the row that they are lent. Sizes are rounded
// up, and buffers are found too short, for every size, stride and length, with no sum or product that wraps.
#![tactic(auto)]

pub mod words; // neighbouring bytes as one number
pub mod long; // copies of many bytes
pub mod twice; // two rows that are written alike
pub mod refused; // why a call was refused

ghost use Rattle.std.specs.Prelude.{◌≡◌, ◌+◌, ◌*◌, ◌/◌, ◌≤◌, ◌<◌, min, ltb, length, get_or};
ghost use Rattle.std.proofs.lemmas.List.Edits.{sets};
ghost use Rattle.lent.specs.Paint.{paint, every};
ghost use Rattle.lent.specs.Sizes.{round_up, half_up, too_short};

// What a call answers: 0 or the number of its refusal, and a count, which is 0 in every refusal.
// Numbers, and no Result: C is handed it as it is, and the calls of every crate answer it.
#[repr(C)]
#[derive(Clone, Copy)]
pub struct Answer {
    pub number: u32,
    pub count: usize,
}

// The first n bytes of dst become those of src. For a count that is fixed, or where one of the two is a local array: else the compiler
// tests first whether they overlap.
pub fn copy_front(dst: &mut [u8], src: &[u8], n: usize)
    requires n_in_bounds { n ≤ length dst.old }
    requires n_in_bounds_2 { n ≤ length src.now }
    ensures { dst.new ≡ paint (λ k. ltb k n) (λ k. get_or src.now k 0) dst.old }
{
    for i in 0..n {
        dst[i] = src[i];
    }
}

// dst becomes src, 16 bytes. The local array overlaps neither: the compiler makes one load and one store of the two copies.
fn copy_16(dst: &mut [u8], src: &[u8])
    requires { (length dst.old ≡ 16) × (length src.now ≡ 16) }
    ensures { dst.new ≡ src.now }
{
    let mut t = [0u8; 16];
    copy_front(&mut t, src, 16);
    copy_front(dst, &t, 16);
}

// dst becomes src, N to 2 N bytes: the first N and the last, whatever the two have in common. Both are read before one is written, so that each is
// one load and one store: N is fixed, since the compiler makes more of a copy whose size is handed over.
fn copy_by<const N: usize>(dst: &mut [u8], src: &[u8])
    requires dst_len { length dst.old ≡ length src.now }
    requires in_bounds { (N ≤ length src.now) × (length src.now ≤ 2 * N) }
    ensures { dst.new ≡ src.now }
{
    let n = src.len();
    let mut first = [0u8; N];
    let mut last = [0u8; N];
    copy_front(&mut first, src, N);
    copy_front(&mut last, &src[n - N..n], N);
    copy_front(dst, &first, N);
    copy_front(&mut dst[n - N..n], &last, N);
}

// dst becomes src, at most one byte.
fn copy_one(dst: &mut [u8], src: &[u8])
    requires dst_len { length dst.old ≡ length src.now }
    requires src_len_bound { length src.now ≤ 1 }
    ensures { dst.new ≡ src.now }
{
    if src.len() == 1 {
        dst[0] = src[0];
    }
}

// dst becomes src, at most 16 bytes, without a loop.
fn copy_short(dst: &mut [u8], src: &[u8])
    requires dst_len { length dst.old ≡ length src.now }
    requires src_len_bound { length src.now ≤ 16 }
    ensures { dst.new ≡ src.now }
{
    let n = src.len();
    if n < 4 {
        if n < 2 {
            copy_one(dst, src);
            return;
        }
        copy_by::<2>(dst, src);
        return;
    }
    if n < 8 {
        copy_by::<4>(dst, src);
        return;
    }
    copy_by::<8>(dst, src);
}

// dst becomes src. 16 bytes a turn; the last turn ends at the end, whatever it has in common with the one before: no byte is left for a
// slow rest. By a sum, and no `for`: with `step_by` V1 over small rectangles took up to 1.24 of the time, by a count of turns up to 1.14.
pub fn copy(dst: &mut [u8], src: &[u8])
    requires { length dst.old ≡ length src.now }
    ensures { dst.new ≡ src.now }
{
    let n = src.len();
    if n < 16 {
        copy_short(dst, src);
        return;
    }
    let last = n - 16;
    let mut i = 0;
    while i < last {
        copy_16(&mut dst[i..i + 16], &src[i..i + 16]);
        i += 16;
    }
    copy_16(&mut dst[last..n], &src[last..n]);
}

// u becomes us and v becomes vs, which are as long. Of short rows the length is looked at once.
pub fn copy_both(u: &mut [u8], v: &mut [u8], us: &[u8], vs: &[u8])
    requires { (length u.old ≡ length us.now) × (length v.old ≡ length vs.now) × (length u.old ≡ length v.old) }
    ensures u { u.new ≡ us.now }
    ensures v { v.new ≡ vs.now }
{
    if 16 <= u.len() {
        copy(u, us);
        copy(v, vs);
        return;
    }
    copy_short(u, us);
    copy_short(v, vs);
}

// The first `count` pairs of dst become as many bytes of `from`, each at two places. One word a pair, since an index i / 2 keeps the compiler
// from vector code: 257 is 256 + 1, so that both bytes of the word are the sample.
fn pairs(dst: &mut [u8], from: &[u8], count: usize)
    requires count_in_bounds { 2 * count ≤ length dst.old }
    requires count_in_bounds_2 { count ≤ length from.now }
    ensures { dst.new ≡ paint (λ k. ltb k (2 * count)) (λ k. get_or from.now (k / 2) 0) dst.old }
{
    for i in 0..count {
        words::put_two(dst, 2 * i, 257 * u16::from(from[i]));
    }
}

// The 16 places of dst become the 8 bytes of `from`, each at two places: one load and one store, as in `copy_16`.
fn spread_16(dst: &mut [u8], from: &[u8])
    requires { (length dst.old ≡ 16) × (length from.now ≡ 8) }
    ensures { dst.new ≡ paint every (λ k. get_or from.now (k / 2) 0) dst.old }
{
    let mut both = [0u8; 16];
    pairs(&mut both, from, 8);
    copy_front(dst, &both, 16);
}

// The first n pairs of dst, as by `pairs`. 16 places a turn; the last turn ends at the end, as in `copy`.
fn many_pairs(dst: &mut [u8], from: &[u8], n: usize)
    requires n_in_bounds { 2 * n ≤ length dst.old }
    requires n_in_bounds_2 { n ≤ length from.now }
    ensures { dst.new ≡ paint (λ k. ltb k (2 * n)) (λ k. get_or from.now (k / 2) 0) dst.old }
{
    if n < 8 {
        pairs(dst, from, n);
        return;
    }
    let most = n - 8;
    for k in 0..most.div_ceil(8) {
        let i = 8 * k;
        spread_16(&mut dst[2 * i..2 * i + 16], &from[i..i + 8]);
    }
    spread_16(&mut dst[2 * most..2 * n], &from[most..n]);
}

// Each byte of `from` goes to two places of dst. An odd last place apart.
pub fn spread(dst: &mut [u8], from: &[u8])
    requires { length dst.old ≤ 2 * length from.now }
    ensures { dst.new ≡ paint every (λ k. get_or from.now (k / 2) 0) dst.old }
{
    let n = dst.len() / 2;
    many_pairs(dst, from, n);
    let end = 2 * n;
    if end == dst.len() {
        return;
    }
    dst[end] = from[n];
}

// Every byte of dst becomes `value`.
pub fn fill(dst: &mut [u8], value: u8)
    ensures { dst.new ≡ paint every (λ k. value) dst.old }
{
    for b in dst.iter_mut() {
        *b = value;
    }
}

// Pixel i of out becomes p.
pub fn put_pixel(out: &mut [u8], i: usize, p: [u8; 4])
    requires { 4 * i + 4 ≤ length out.old }
    ensures { out.new ≡ sets out.old (4 * i) p }
{
    let k = 4 * i;
    out[k] = p[0];
    out[k + 1] = p[1];
    out[k + 2] = p[2];
    out[k + 3] = p[3];
}

// The smaller of two: std's `min`, which new code calls. It stays a function, since wrong programs are about it (least_swapped).
pub fn least(a: usize, b: usize) -> usize
    ensures { result ≡ min a b }
{
    a.min(b)
}

// A width or a height rounded up to a whole macroblock (the Rust's next_multiple_of(16)). Here and in the two below std's method tests the remainder,
// which a call over small rectangles pays for in each.
pub fn round_up_16(n: u16) -> usize
    ensures { result ≡ round_up 16 n }
{
    (n as usize + 15) / 16 * 16
}

// Rounded up to even (the Rust's next_multiple_of(2)).
pub fn round_up_2(n: u16) -> usize
    ensures { result ≡ round_up 2 n }
{
    (n as usize + 1) / 2 * 2
}

// Half, rounded up (the Rust's div_ceil(2)).
pub fn half_up(n: u16) -> usize
    ensures { result ≡ half_up n }
{
    (n as usize + 1) / 2
}

// Whether len bytes are fewer than `rows` rows of `stride` bytes. It multiplies where both are below 2^32, which is fast, and else it
// divides, so that no product wraps: one that is too large for the machine word is above every length.
pub fn too_short(stride: usize, rows: usize, len: usize) -> bool
    ensures { result ≡ too_short stride rows len }
{
    if stride < 4294967296 {
        if rows < 4294967296 {
            return len < rows * stride;
        }
    }
    if rows == 0 {
        return false;
    }
    len / rows < stride
}
