// A part of a row, 64 bytes or 8, beside the bytes of the picture that belong there: is some byte wrong?
//
// Each test promises 0 exactly where every byte is right. It looks at all of them and never stops, so that the compiler turns it into
// vector code; where the bytes are every second one or every fourth one, it reads them as the writers of split_rows do, through pairs.
// The size of a part is a parameter of the test's type: where it is handed over as a number, the compiler goes byte by byte. `apart` alone
// takes any number of columns, and each call hands it a constant.
ghost use Rattle.std.specs.Prelude.{◌≡◌, ◌↔◌, ◌+◌, ◌*◌, ◌<◌, ◌≤◌, length, get_or};
ghost use Rattle.std.specs.Int.{to_le_bytes, w16};
ghost use Rattle.check_rows.specs.Rows.{Right, step_of, first_of};

use crate::Taken;

// 0 exactly when the first n columns are the first n bytes of src.
pub fn apart(row: &[u8], src: &[u8], n: usize) -> u8
    requires n_in_bounds { n ≤ length row.now }
    requires n_in_bounds_2 { n ≤ length src.now }
    ensures { (result ≡ 0) ↔ Right row.now (λ c. get_or src.now c 0) n }
{
    let mut bits = 0;
    for i in 0..n {
        bits |= row[i] ^ src[i];
    }
    bits
}

// 0 exactly when the row is the first bytes of the pairs, WHICH being 0, or the second ones, WHICH being 1.
fn apart_bytes<const WHICH: usize>(row: &[u8], pairs: &[u16]) -> u8
    requires same_length { length row.now ≡ length pairs.now }
    requires which_bound { WHICH < 2 }
    ensures { (result ≡ 0) ↔ Right row.now (λ c. get_or (to_le_bytes w16 (get_or pairs.now c 0)) WHICH 0) (length row.now) }
{
    let mut bits = 0;
    for (i, p) in pairs.iter().enumerate() {
        bits |= row[i] ^ p.to_le_bytes()[WHICH];
    }
    bits
}

// 0 exactly when the row, N bytes, is every second byte of src, the first being src[from].
fn seconds_apart<const N: usize>(row: &[u8], src: &[u8], from: usize) -> u8
    requires row_len { length row.now ≡ N }
    requires in_bounds { 2 * N ≤ length src.now }
    requires from_bound { from < 2 }
    ensures { (result ≡ 0) ↔ Right row.now (λ c. get_or src.now (2 * c + from) 0) N }
{
    let mut pairs = [0u16; N];
    split_rows::pair(&mut pairs, src, N);
    if from == 0 {
        apart_bytes::<0>(row, &pairs)
    } else {
        apart_bytes::<1>(row, &pairs)
    }
}

// 0 exactly when the row, N bytes, is every fourth byte of src, the first being src[2 from]. M is 2 N.
fn fourths_apart<const N: usize, const M: usize>(row: &[u8], src: &[u8], from: usize) -> u8
    requires row_len { length row.now ≡ N }
    requires m_value { M ≡ 2 * N }
    requires in_bounds { 4 * N ≤ length src.now }
    requires from_bound { from < 2 }
    ensures { (result ≡ 0) ↔ Right row.now (λ c. get_or src.now (4 * c + 2 * from) 0) N }
{
    let mut half = [0u8; M];
    split_rows::seconds_twice::<N>(&mut half, src, 0);
    seconds_apart::<N>(row, &half, from)
}

// 0 exactly when the row, N bytes, is what it takes of src. M is 2 N.
pub fn taken_apart<const N: usize, const M: usize>(taken: Taken, row: &[u8], src: &[u8]) -> u8
    requires row_len { length row.now ≡ N }
    requires m_value { M ≡ 2 * N }
    requires taken_in_bounds { step_of taken * N ≤ length src.now }
    ensures { (result ≡ 0) ↔ Right row.now (λ c. get_or src.now (step_of taken * c + first_of taken) 0) N }
{
    match taken {
        Taken::Evens => seconds_apart::<N>(row, src, 0),
        Taken::Odds => seconds_apart::<N>(row, src, 1),
        Taken::Fourths => fourths_apart::<N, M>(row, src, 0),
        Taken::Between => fourths_apart::<N, M>(row, src, 1),
    }
}
