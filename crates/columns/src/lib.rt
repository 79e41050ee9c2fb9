// Row writers: the columns of a row, lent as a part, become the bytes of a view's row.
//
// Each promises every byte of the part that it is lent. The part begins at an even column; where the plane has the row is its caller's.
// Rows are written in place by words of two or four bytes (`lent::words`), which is vector code where stores of single bytes are not. The even
// places alone go part by part through a local array (`weave`), and the odd places of both planes' rows 16 at a time (`both`).
#![tactic(auto)]

pub mod weave; // a short part of a row, through a local array
pub mod both; // the odd places of a row of both planes

ghost use Rattle.std.specs.Prelude.{◌≡◌, cond, ◌+◌, ◌*◌, ◌/◌, ◌%◌, ◌≤◌, ltb, length, get_or};
ghost use Rattle.lent.specs.Paint.{paint, every};
ghost use Rattle.columns.specs.Turns.{odd, even, woven};
ghost use Rattle.columns.specs.Fits.{OddsFit, EvensFit};

// A number that is 0, which the compiler does not know. With it in a pair the compiler does not leave out the store of an even byte that stays:
// else a row would be stores of every second byte, which are no vector code on aarch64.
#[derive(Clone, Copy)]
struct Zero {
    number: u16,
    ghost is_zero: { number ≡ 0 },
}

// Whether m bytes are too few for n pairs, as a number: they are not.
fn missing(n: usize, m: usize) -> Zero
    requires { n ≤ m }
    ensures { result.number ≡ 0 }
{
    Zero {
        number: u16::from(m < n),
    }
}

// The low byte of a pair stays, the high one is new.
fn mixed(w: u16, b: u8, none: Zero) -> u16
    ensures { (result % 256 ≡ w % 256) × (result / 256 ≡ b) }
{
    w % 256 + none.number + 256 * u16::from(b)
}

// The odd places of dst become the bytes of `from`. Each pair is read and written as one word.
pub fn put_odds(dst: &mut [u8], from: &[u8])
    requires { OddsFit (length dst.old) (length from.now) }
    ensures { dst.new ≡ paint odd (λ k. get_or from.now (k / 2) 0) dst.old }
{
    let n = dst.len() / 2;
    let none = missing(n, from.len());
    for i in 0..n {
        let pair = mixed(lent::words::two(dst, 2 * i), from[i], none);
        lent::words::put_two(dst, 2 * i, pair);
    }
}

// The even places of dst become u and v by turns, from u or from v on: `lead` is 0 or 1.
pub fn put_evens(dst: &mut [u8], u: &[u8], v: &[u8], lead: usize)
    requires { EvensFit (length dst.old) (length u.now) (length v.now) lead }
    ensures { dst.new ≡ paint even (λ k. woven u.now v.now (lead + k / 2)) dst.old }
{
    let n = dst.len();
    for col in (0..n).step_by(252) {
        let end = col + (n - col).min(252);
        weave::even_part(&mut dst[col..end], &u[col / 4..], &v[col / 4..], lead);
    }
}

// Four neighbouring places as one number: a and b at the even ones, the two bytes of w at the odd ones.
fn quad(a: u8, b: u8, w: u16) -> u32
    ensures { (result % 256 ≡ a) × (result / 256 % 256 ≡ w % 256) × (result / 65536 % 256 ≡ b) × (result / 16777216 ≡ w / 256) }
{
    let [low, high] = w.to_le_bytes();
    u32::from_le_bytes([a, low, b, high])
}

// The first n fours of dst become u, odd, v, odd.
fn quads(dst: &mut [u8], odds: &[u8], u: &[u8], v: &[u8], n: usize)
    requires n_in_bounds { 4 * n ≤ length dst.old }
    requires n_in_bounds_2 { 2 * n ≤ length odds.now }
    requires n_in_bounds_3 { n ≤ length u.now }
    requires n_in_bounds_4 { n ≤ length v.now }
    ensures { dst.new ≡ paint (λ k. ltb k (4 * n))
        (λ k. cond (odd k) (get_or odds.now (k / 2) 0) (woven u.now v.now (k / 2))) dst.old }
{
    for i in 0..n {
        let w = lent::words::two(odds, 2 * i);
        lent::words::put_four(dst, 4 * i, quad(u[i], v[i], w));
    }
}

// All places of dst, which has one pair or none: evens[0] and odds[0].
fn pair(dst: &mut [u8], evens: &[u8], odds: &[u8])
    requires dst_len { length dst.old % 2 ≡ 0 }
    requires dst_len_bound { length dst.old ≤ 2 }
    requires dst_len_bound_2 { length dst.old ≤ 2 * length evens.now }
    requires dst_len_bound_3 { length dst.old ≤ 2 * length odds.now }
    ensures { dst.new ≡ paint every (woven evens.now odds.now) dst.old }
{
    if dst.is_empty() {
        return;
    }
    dst[0] = evens[0];
    dst[1] = odds[0];
}

// All places of a row that begins with u: by fours, and a last pair where one is left.
fn from_u(dst: &mut [u8], from: &[u8], u: &[u8], v: &[u8])
    requires odds_fit { OddsFit (length dst.old) (length from.now) }
    requires evens_fit { EvensFit (length dst.old) (length u.now) (length v.now) 0 }
    ensures { dst.new
        ≡ paint every (λ k. cond (odd k) (get_or from.now (k / 2) 0) (woven u.now v.now (k / 2))) dst.old }
{
    let right = dst.len();
    let n = right / 4;
    let end = 4 * n;
    quads(dst, from, u, v, n);
    pair(&mut dst[end..right], &u[n..], &from[2 * n..]);
}

// All places of dst: the odd ones as by `put_odds`, the even ones as by `put_evens`. A row that begins with v has its first pair apart, so
// that what is left begins with u.
pub fn put_full(dst: &mut [u8], from: &[u8], u: &[u8], v: &[u8], lead: usize)
    requires odds_fit { OddsFit (length dst.old) (length from.now) }
    requires evens_fit { EvensFit (length dst.old) (length u.now) (length v.now) lead }
    ensures { dst.new
        ≡ paint every (λ k. cond (odd k) (get_or from.now (k / 2) 0) (woven u.now v.now (lead + k / 2))) dst.old }
{
    let right = dst.len();
    let col = (2 * lead).min(right);
    pair(&mut dst[0..col], v, from);
    from_u(
        &mut dst[col..right],
        &from[col / 2..],
        &u[lead..],
        &v[lead..],
    );
}
