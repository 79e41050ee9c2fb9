// One row of a view beside the row that a split writes there: the first column that is wrong.
//
// The samples are the picture's own: all of a row, every second one or every fourth one, and one byte past the stride (split_rows,
// specs/Seen.antt). Nothing is written. A row goes by parts of 64 bytes, and what is left by parts of 8: of each it is asked whether some
// byte is wrong, in registers, as the writers of split_rows read them; the part that has one, and what is left then, is looked at byte
// by byte. All of a row has loops of its own: by those of the others a picture of 48x48 took a third longer. Past the stride there are 4,
// 8 or 16 columns, or none, which is asked first: parts of 8 are enough there.
#![tactic(auto)]

pub mod parts; // is some byte of a part wrong?

ghost use Rattle.std.specs.Prelude.{◌≡◌, ◌+◌, ◌*◌, ◌<◌, ◌≤◌, length, get_or};
ghost use Rattle.split_rows.specs.Fits.{WideFits};
ghost use Rattle.split_rows.specs.Seen.{seen};
ghost use Rattle.check_rows.specs.Rows.{Right, first_wrong, step_of, first_of};

// Which samples of a row of the picture: of every second one the even columns or the odd ones, of every fourth one those from column 0
// on or those between, from column 2 on.
#[derive(Clone, Copy)]
pub enum Taken {
    Evens,
    Odds,
    Fourths,
    Between,
}

impl Taken {
    // How far apart they are.
    fn step(self) -> usize
        ensures { result ≡ step_of self }
    {
        match self {
            Taken::Evens => 2,
            Taken::Odds => 2,
            Taken::Fourths => 4,
            Taken::Between => 4,
        }
    }

    // The column of the first one.
    fn first(self) -> usize
        ensures { result ≡ first_of self }
    {
        match self {
            Taken::Evens => 0,
            Taken::Odds => 1,
            Taken::Fourths => 0,
            Taken::Between => 2,
        }
    }
}

// The first column that is wrong, byte by byte: column c of the row is to be byte by x c + from of src.
fn scan(row: &[u8], src: &[u8], by: usize, from: usize) -> usize
    requires row_in_bounds { by * length row.now ≤ length src.now }
    requires from_lt_by { from < by }
    ensures { result ≡ first_wrong row.now (λ c. get_or src.now (by * c + from) 0) }
{
    for (i, b) in row.iter().enumerate() {
        if *b != src[by * i + from] {
            return i;
        }
    }
    row.len()
}

// How many columns are right for sure, by parts of N, of what the row takes of src. M is 2 N. What is left, fewer than N columns, is not
// looked at: a `for` in steps of N would have to leave out its last turn, and is no plainer.
fn taken_right<const N: usize, const M: usize>(taken: Taken, row: &[u8], src: &[u8]) -> usize
    requires n_value { 0 < N }
    requires m_value { M ≡ 2 * N }
    requires taken_in_bounds { step_of taken * length row.now ≤ length src.now }
    ensures { (result ≤ length row.now)
        × Right row.now (λ c. get_or src.now (step_of taken * c + first_of taken) 0) result }
{
    let by = taken.step();
    let n = row.len();
    let mut at = 0;
    while N <= n - at {
        let end = at + N;
        if parts::taken_apart::<N, M>(taken, &row[at..end], &src[by * at..by * end]) != 0 {
            return at;
        }
        at = end;
    }
    at
}

// The first column that is wrong of a row that is shorter than 64 bytes, or has one soon.
fn taken_rest(taken: Taken, row: &[u8], src: &[u8]) -> usize
    requires { step_of taken * length row.now ≤ length src.now }
    ensures { result ≡ first_wrong row.now (λ c. get_or src.now (step_of taken * c + first_of taken) 0) }
{
    let n = row.len();
    let at = taken_right::<8, 16>(taken, row, src);
    if at == n {
        return n;
    }
    let by = taken.step();
    at + scan(&row[at..n], &src[by * at..by * n], by, taken.first())
}

// The first column that is wrong of what the row takes of src.
fn taken_first(taken: Taken, row: &[u8], src: &[u8]) -> usize
    requires { step_of taken * length row.now ≤ length src.now }
    ensures { result ≡ first_wrong row.now (λ c. get_or src.now (step_of taken * c + first_of taken) 0) }
{
    let n = row.len();
    let at = taken_right::<64, 128>(taken, row, src);
    if at == n {
        return n;
    }
    let by = taken.step();
    at + taken_rest(taken, &row[at..n], &src[by * at..by * n])
}

// How many columns are right for sure, by parts of N, where the row is to be src. The same loop.
fn right<const N: usize>(row: &[u8], src: &[u8]) -> usize
    requires n_value { 0 < N }
    requires same_length { length row.now ≡ length src.now }
    ensures { (result ≤ length row.now) × Right row.now (λ c. get_or src.now c 0) result }
{
    let n = row.len();
    let mut at = 0;
    while N <= n - at {
        let end = at + N;
        if parts::apart(&row[at..end], &src[at..end], N) != 0 {
            return at;
        }
        at = end;
    }
    at
}

// The first column that is wrong, where the row is to be src.
fn copied_first(row: &[u8], src: &[u8]) -> usize
    requires { length row.now ≡ length src.now }
    ensures { result ≡ first_wrong row.now (λ c. get_or src.now c 0) }
{
    let n = row.len();
    let most = right::<64>(row, src);
    let at = most + right::<8>(&row[most..n], &src[most..n]);
    if at == n {
        return n;
    }
    at + scan(&row[at..n], &src[at..n], 1, 0)
}

// The first column that is wrong, byte by byte, where every one is to be `fill`.
fn filled_scan(row: &[u8], fill: u8) -> usize
    ensures { result ≡ first_wrong row.now (λ c. fill) }
{
    for (i, b) in row.iter().enumerate() {
        if *b != fill {
            return i;
        }
    }
    row.len()
}

// How many columns are right for sure, by parts of 8, where every one is to be `fill`. The same loop.
fn filled_right_8(row: &[u8], fill: u8) -> usize
    ensures { (result ≤ length row.now) × Right row.now (λ c. fill) result }
{
    let src = [fill; 8];
    let n = row.len();
    let mut at = 0;
    while 8 <= n - at {
        let end = at + 8;
        if parts::apart(&row[at..end], &src, 8) != 0 {
            return at;
        }
        at = end;
    }
    at
}

// The first column that is wrong, where every one is to be `fill`.
fn filled_first(row: &[u8], fill: u8) -> usize
    ensures { result ≡ first_wrong row.now (λ c. fill) }
{
    let n = row.len();
    let at = filled_right_8(row, fill);
    if at == n {
        return n;
    }
    at + filled_scan(&row[at..n], fill)
}

// The first column that is wrong, where the row is to be row `line` of the plane as if it went on past the stride, and held `fill` there.
pub fn copied_row(row: &[u8], plane: &[u8], stride: usize, line: usize, fill: u8) -> usize
    requires { WideFits (length row.now) (length plane.now) 1 stride line }
    ensures { result ≡ first_wrong row.now (λ c. seen fill plane.now stride line c) }
{
    let start = line * stride;
    let n = row.len();
    let found = copied_first(&row[0..stride], &plane[start..start + stride]);
    if found < stride {
        return found;
    }
    if n == stride {
        return n;
    }
    stride + filled_first(&row[stride..n], fill)
}

// The same, where it is to be what it takes of such a row.
pub fn taken_row(
    taken: Taken,
    row: &[u8],
    plane: &[u8],
    stride: usize,
    line: usize,
    fill: u8,
) -> usize
    requires { WideFits (length row.now) (length plane.now) (step_of taken) stride line }
    ensures { result ≡ first_wrong row.now
        (λ c. seen fill plane.now stride line (step_of taken * c + first_of taken)) }
{
    let start = line * stride;
    let n = row.len();
    let most = stride / taken.step();
    let found = taken_first(taken, &row[0..most], &plane[start..start + stride]);
    if found < most {
        return found;
    }
    if n == most {
        return n;
    }
    most + filled_first(&row[most..n], fill)
}
