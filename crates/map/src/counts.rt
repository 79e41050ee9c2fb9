// How many pixels of a rectangle lie in blocks that are not complete.
ghost use Rattle.std.specs.Prelude.{◌≡◌, ℕ, ◌+◌, ◌*◌, ◌/◌, ◌%◌, ◌≤◌, ◌<◌, true, length, get_or};
ghost use Rattle.lent.specs.Counts.{count_of};
ghost use Rattle.map.specs.Map.{across_of, stale, stale_rows_of, StaleFits};

use picture::Size;

// How many of at most 255 bytes are not 2. The sum fits a byte, so that the compiler counts in vectors of bytes.
fn few_stale(part: &[u8]) -> u8
    requires { length part.now < 256 }
    ensures { result ≡ count_of (length part.now) (λ k. stale (get_or part.now k 0)) }
{
    let mut n: u8 = 0;
    for b in part {
        n += u8::from(*b != 2);
    }
    n
}

// Whether all of 4 to 8 bytes are `value`, by their first four and their last.
fn all_are(line: &[u8], value: u8) -> bool
    requires { (4 ≤ length line.now) × (length line.now ≤ 8) }
    ensures { result ≡ true → (k : ℕ) → k < length line.now → get_or line.now k 0 ≡ value }
{
    let four = u32::from_le_bytes([value; 4]);
    if lent::words::four(line, 0) != four {
        return false;
    }
    lent::words::four(line, line.len() - 4) == four
}

// How many bytes are not 2, in parts of 255. A short line is one part, and no loop; that of a macroblock is mostly complete, or waits as a
// whole for its auxiliary view.
fn blocks_stale(line: &[u8]) -> usize
    ensures { result ≡ count_of (length line.now) (λ k. stale (get_or line.now k 0)) }
{
    let end = line.len();
    if 4 <= end && end <= 8 {
        if all_are(line, 2) {
            return 0;
        }
        if all_are(line, 1) {
            return end;
        }
    }
    if end < 256 {
        return usize::from(few_stale(line));
    }
    let mut n = 0;
    for k in (0..end).step_by(255) {
        let m = (end - k).min(255);
        n += usize::from(few_stale(&line[k..k + m]));
    }
    n
}

// An odd column cuts its block in two: 1 where that block is not 2, and 0 at an even column, which cuts none.
fn cut_stale(line: &[u8], column: usize) -> usize
    requires { column ≤ 2 * length line.now }
    ensures { result ≡ count_of (column % 2) (λ k. stale (get_or line.now (column / 2) 0)) }
{
    if column % 2 == 0 {
        return 0;
    }
    usize::from(line[column / 2] != 2)
}

// How many of n pixels of a row, from column `left` on, lie in blocks that are not 2: `line` is the map's row of these blocks. An odd first
// column and an odd last one have a block of their own; every block between has two of the pixels.
fn row_stale(line: &[u8], left: usize, n: usize) -> usize
    requires { (0 < n) × (left + n ≤ 2 * length line.now) }
    ensures { result ≡ count_of n (λ c. stale (get_or line.now ((left + c) / 2) 0)) }
{
    let first = (left + 1) / 2;
    let end = (left + n) / 2;
    2 * blocks_stale(&line[first..end]) + cut_stale(line, left) + cut_stale(line, left + n)
}

// How many pixels, in h rows of n columns from row `top` and column `left` on, lie in blocks that are not 2. Two rows of a block are counted once.
pub fn stale_in(map: &[u8], size: Size, left: usize, top: usize, n: usize, h: usize) -> usize
    requires { StaleFits size (length map.now) left top n h }
    ensures { result ≡ stale_rows_of (across_of size) left top n h map.now }
{
    let wide = crate::across(size);
    let mut count = 0;
    // A turn takes one row or two, as `lines` says.
    let mut r = 0;
    while r < h {
        let row = top + r;
        let lines = (2 - row % 2).min(h - r);
        let start = row / 2 * wide;
        count += lines * row_stale(&map[start..start + wide], left, n);
        r += lines;
    }
    count
}
