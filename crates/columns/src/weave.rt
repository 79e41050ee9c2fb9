// Every second and every fourth byte of a short row, two rows woven into one, and a part of a row whose even places alone are written.
//
// Each promises every byte of what it is lent. Such a part is woven through local arrays, which the compiler turns into vector code; a loop
// that stores or reads every second byte is not. The arrays are short, since they are cleared for each part.
ghost use Rattle.std.specs.Prelude.{◌≡◌, ◌+◌, ◌*◌, ◌/◌, ◌%◌, ◌<◌, ◌≤◌, ltb, length, get_or};
ghost use Rattle.lent.specs.Paint.{paint, every};
ghost use Rattle.columns.specs.Turns.{even, woven};

// The first n bytes of dst become every STEPth byte of src, the first being src[first].
fn every_nth<const STEP: usize>(dst: &mut [u8], src: &[u8], first: usize, n: usize)
    requires n_in_bounds { n ≤ length dst.old }
    requires n_in_bounds_2 { STEP * n ≤ length src.now }
    requires first_bound { first < STEP }
    ensures { dst.new ≡ paint (λ k. ltb k n) (λ k. get_or src.now (STEP * k + first) 0) dst.old }
{
    for i in 0..n {
        dst[i] = src[STEP * i + first];
    }
}

// The first n bytes of dst become every second byte of src, the first being src[first].
pub fn seconds(dst: &mut [u8], src: &[u8], first: usize, n: usize)
    requires n_in_bounds { n ≤ length dst.old }
    requires n_in_bounds_2 { 2 * n ≤ length src.now }
    requires first_bound { first < 2 }
    ensures { dst.new ≡ paint (λ k. ltb k n) (λ k. get_or src.now (2 * k + first) 0)
        dst.old }
{
    every_nth::<2>(dst, src, first, n);
}

// dst[2 i] is evens[i], dst[2 i + 1] is odds[i], for i below n.
fn weave(dst: &mut [u8], evens: &[u8], odds: &[u8], n: usize)
    requires n_in_bounds { 2 * n ≤ length dst.old }
    requires n_in_bounds_2 { n ≤ length evens.now }
    requires n_in_bounds_3 { n ≤ length odds.now }
    ensures { dst.new ≡ paint (λ k. ltb k (2 * n)) (woven evens.now odds.now)
        dst.old }
{
    for i in 0..n {
        dst[2 * i] = evens[i];
        dst[2 * i + 1] = odds[i];
    }
}

// The even places of dst, at most 252 bytes, become u and v by turns, from u or from v on.
pub fn even_part(dst: &mut [u8], u: &[u8], v: &[u8], lead: usize)
    requires dst_len { length dst.old % 2 ≡ 0 }
    requires dst_len_bound { length dst.old ≤ 252 }
    requires lead_bound { lead < 2 }
    requires dst_in_bounds { (lead + length dst.old / 2 + 1) / 2 ≤ length u.now }
    requires dst_in_bounds_2 { (lead + length dst.old / 2 + 1) / 2 ≤ length v.now }
    ensures { dst.new ≡ paint even
        (λ k. woven u.now v.now (lead + k / 2)) dst.old }
{
    let mut turns = [0u8; 128];
    let mut kept = [0u8; 128];
    let n = dst.len() / 2;
    weave(&mut turns, u, v, (lead + n).div_ceil(2));
    seconds(&mut kept, dst, 1, n);
    weave(dst, &turns[lead..], &kept, n);
}

// dst becomes every fourth column of a row, the first being src[first]: dst[i] is src[4 i + first].
pub fn fourths_of(dst: &mut [u8], src: &[u8], first: usize)
    requires dst_in_bounds { 4 * length dst.old ≤ length src.now }
    requires first_bound { first < 4 }
    ensures { dst.new ≡ paint every (λ k. get_or src.now (4 * k + first) 0) dst.old }
{
    let n = dst.len();
    every_nth::<4>(dst, src, first, n);
}
