// The odd places of one row of both planes, 16 places of each a turn; the last turn ends at the end.
//
// What a turn leaves in either plane is found before anything is written, and what the last turn leaves before the first one: a load that lies
// partly over a store just before it waits for that store. A load of V at the place, within a page, of a store to U just before it may wait too.
ghost use Rattle.std.specs.Prelude.{◌≡◌, ◌+◌, ◌*◌, ◌/◌, ◌<◌, ◌≤◌, ltb, length, get_or};
ghost use Rattle.lent.specs.Paint.{paint};
ghost use Rattle.lent.specs.Sizes.{round_up};
ghost use Rattle.columns.specs.Turns.{odd, new_odds};
ghost use Rattle.columns.specs.Fits.{OddsFit};

use crate::Zero;

// The first n pairs of t become those of `old`, with the bytes of `from` at the odd places. For a count that is fixed.
fn mix(t: &mut [u8], old: &[u8], from: &[u8], none: Zero, n: usize)
    requires n_in_bounds { (2 * n ≤ length t.old) × (2 * n ≤ length old.now) × (n ≤ length from.now) }
    ensures { t.new ≡ paint (λ k. ltb k (2 * n)) (new_odds from.now old.now) t.old }
{
    for i in 0..n {
        let pair = crate::mixed(lent::words::two(old, 2 * i), from[i], none);
        lent::words::put_two(t, 2 * i, pair);
    }
}

// 16 places of each.
fn put_16(u: &mut [u8], v: &mut [u8], us: &[u8], vs: &[u8], none: Zero)
    requires u_len { (length u.old ≡ 16) × (length v.old ≡ 16) × (length us.now ≡ 8) × (length vs.now ≡ 8) }
    ensures u { u.new ≡ paint odd (λ k. get_or us.now (k / 2) 0) u.old }
    ensures v { v.new ≡ paint odd (λ k. get_or vs.now (k / 2) 0) v.old }
{
    let mut new_u = [0u8; 16];
    let mut new_v = [0u8; 16];
    mix(&mut new_u, u, us, none, 8);
    mix(&mut new_v, v, vs, none, 8);
    lent::copy_front(u, &new_u, 16);
    lent::copy_front(v, &new_v, 16);
}

// Both rows by turns of 16 places, up to the pair `most` or somewhat further. (By a sum, and no `for`: see `lent::copy`.)
fn put_turns(u: &mut [u8], v: &mut [u8], us: &[u8], vs: &[u8], none: Zero, most: usize)
    requires u_len { (length u.old ≡ 2 * most + 16) × (length v.old ≡ 2 * most + 16) }
    requires most_in_bounds { (most + 8 ≤ length us.now) × (most + 8 ≤ length vs.now) }
    ensures u { u.new ≡ paint (λ k. ltb k (2 * round_up 8 most)) (new_odds us.now u.old) u.old }
    ensures v { v.new ≡ paint (λ k. ltb k (2 * round_up 8 most)) (new_odds vs.now v.old) v.old }
{
    let mut i: usize = 0;
    while i < most {
        let at = 2 * i;
        put_16(
            &mut u[at..at + 16],
            &mut v[at..at + 16],
            &us[i..i + 8],
            &vs[i..i + 8],
            none,
        );
        i += 8;
    }
}

// All of two rows of 2 * most + 16 places.
fn put_many(u: &mut [u8], v: &mut [u8], us: &[u8], vs: &[u8], none: Zero, most: usize)
    requires u_len { (length u.old ≡ 2 * most + 16) × (length v.old ≡ 2 * most + 16) }
    requires most_in_bounds { (most + 8 ≤ length us.now) × (most + 8 ≤ length vs.now) }
    ensures u { u.new ≡ paint odd (λ k. get_or us.now (k / 2) 0) u.old }
    ensures v { v.new ≡ paint odd (λ k. get_or vs.now (k / 2) 0) v.old }
{
    let last = 2 * most;
    let mut last_u = [0u8; 16];
    let mut last_v = [0u8; 16];
    mix(
        &mut last_u,
        &u[last..last + 16],
        &us[most..most + 8],
        none,
        8,
    );
    mix(
        &mut last_v,
        &v[last..last + 16],
        &vs[most..most + 8],
        none,
        8,
    );
    put_turns(u, v, us, vs, none, most);
    lent::copy_front(&mut u[last..last + 16], &last_u, 16);
    lent::copy_front(&mut v[last..last + 16], &last_v, 16);
}

// Rows of a few pairs: byte by byte, both rows in one loop.
fn put_few(u: &mut [u8], v: &mut [u8], us: &[u8], vs: &[u8])
    requires u_len { length u.old ≡ length v.old }
    requires odds_fit { OddsFit (length u.old) (length us.now) × OddsFit (length v.old) (length vs.now) }
    ensures u { u.new ≡ paint odd (λ k. get_or us.now (k / 2) 0) u.old }
    ensures v { v.new ≡ paint odd (λ k. get_or vs.now (k / 2) 0) v.old }
{
    let pairs = u.len() / 2;
    for i in 0..pairs {
        u[2 * i + 1] = us[i];
        v[2 * i + 1] = vs[i];
    }
}

// The odd places of u and v become the bytes of us and vs, as by `put_odds` of each, which longer rows go by. The rows that go by turns are asked for
// first: with the rows of a few pairs first, V1 over small rectangles took up to 1.14 of the time.
pub fn put_odds(u: &mut [u8], v: &mut [u8], us: &[u8], vs: &[u8])
    requires u_len { length u.old ≡ length v.old }
    requires odds_fit { OddsFit (length u.old) (length us.now) × OddsFit (length v.old) (length vs.now) }
    ensures u { u.new ≡ paint odd (λ k. get_or us.now (k / 2) 0) u.old }
    ensures v { v.new ≡ paint odd (λ k. get_or vs.now (k / 2) 0) v.old }
{
    let n = u.len() / 2;
    if 8 <= n {
        if n < 64 {
            let none = crate::missing(n, us.len());
            put_many(u, v, us, vs, none, n - 8);
            return;
        }
    }
    if n < 8 {
        put_few(u, v, us, vs);
        return;
    }
    crate::put_odds(u, us);
    crate::put_odds(v, vs);
}
