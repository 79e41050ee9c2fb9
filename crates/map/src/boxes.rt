// Boxes of blocks are set or turned. A box is an area of blocks, not of samples; no sample of a plane is looked at. Each writer promises every
// byte of the map's buffer.
ghost use Rattle.std.specs.Prelude.{◌≡◌, ◌*◌, ◌<◌, ◌≤◌, min, max, ltb, eqb, length, get_or};
ghost use Rattle.lent.specs.Paint.{paint, every, painted};
ghost use Rattle.rects.specs.Rects.{in_area};
ghost use Rattle.map.specs.Map.{across_of, down_of, map_of, turned_of, turned_at, BoxFits};

use picture::Size;
use rects::Area;

// Every block becomes `value`.
pub fn set_all(map: &mut [u8], size: Size, value: u8)
    requires { down_of size * across_of size ≤ length map.old }
    ensures { map.new ≡ map_of size (λ i j. value) map.old }
{
    picture::fill_plane(map, crate::across(size), crate::down(size), value);
}

// The first n bytes of dst become `value`. For a count that is fixed: the compiler makes plain stores of it.
fn set_front(dst: &mut [u8], value: u8, n: usize)
    requires { n ≤ length dst.old }
    ensures { dst.new ≡ paint (λ k. ltb k n) (λ k. value) dst.old }
{
    for i in 0..n {
        dst[i] = value;
    }
}

// Every byte of dst becomes `value`: the first N bytes and the last, whatever the two have in common.
fn set_ends<const N: usize>(dst: &mut [u8], value: u8)
    requires { (N ≤ length dst.old) × (length dst.old ≤ 2 * N) }
    ensures { dst.new ≡ paint every (λ k. value) dst.old }
{
    let n = dst.len();
    set_front(dst, value, N);
    set_front(&mut dst[n - N..n], value, N);
}

// Every byte of dst becomes `value`, at most 8 bytes.
fn set_few(dst: &mut [u8], value: u8)
    requires { length dst.old ≤ 8 }
    ensures { dst.new ≡ paint every (λ k. value) dst.old }
{
    let n = dst.len();
    if 4 <= n {
        set_ends::<4>(dst, value);
        return;
    }
    if 2 <= n {
        set_ends::<2>(dst, value);
        return;
    }
    set_front(dst, value, n);
}

// Every byte of dst becomes `value`. Short rows of blocks, of which one macroblock has 8, go without the C library's memset: a call of it takes
// longer than they do.
fn set_part(dst: &mut [u8], value: u8)
    ensures { dst.new ≡ paint every (λ k. value) dst.old }
{
    let n = dst.len();
    if n == 8 {
        set_front(dst, value, 8);
        return;
    }
    if n < 8 {
        set_few(dst, value);
        return;
    }
    if n < 16 {
        set_ends::<8>(dst, value);
        return;
    }
    if n < 32 {
        set_ends::<16>(dst, value);
        return;
    }
    if n <= 64 {
        set_ends::<32>(dst, value);
        return;
    }
    lent::fill(dst, value);
}

// Every block of the box becomes `value`.
pub fn set_box(map: &mut [u8], size: Size, area: Area, value: u8)
    requires { BoxFits size (length map.old) area }
    ensures { map.new ≡ painted (across_of size) (down_of size) (in_area area) (λ i j. value) map.old }
{
    let wide = crate::across(size);
    for i in area.top..area.bottom {
        let line = i * wide;
        set_part(&mut map[line + area.left..line + area.right], value);
    }
}

// 1 becomes 2, anything else stays: 0, 2 and 2 stand beside 0, 1 and what is above. Vectors have a lesser and a greater of bytes, and no choice;
// a choice is four instructions to them.
fn turned(b: u8) -> u8
    ensures { result ≡ turned_of b }
{
    b.max(2 * b.min(1))
}

// The first n bytes of dst become those of src, turned. For a count that is fixed, as `lent::copy_front`.
fn turned_front(dst: &mut [u8], src: &[u8], n: usize)
    requires n_in_bounds { n ≤ length dst.old }
    requires n_in_bounds_2 { n ≤ length src.now }
    ensures { dst.new ≡ paint (λ k. ltb k n) (λ k. turned_of (get_or src.now k 0)) dst.old }
{
    for i in 0..n {
        dst[i] = turned(src[i]);
    }
}

// Every 1 of dst becomes 2, 8 bytes: a macroblock's row of blocks. Through a local array, so that it is one load and one store.
fn turn_8(dst: &mut [u8])
    requires { length dst.old ≡ 8 }
    ensures { dst.new ≡ paint every (λ k. turned_of (get_or dst.old k 0)) dst.old }
{
    let mut t = [0u8; 8];
    turned_front(&mut t, dst, 8);
    lent::copy_front(dst, &t, 8);
}

// Every 1 of dst becomes 2, N to 2 N bytes: the first N and the last, whatever the two have in common. What both become is found before one is
// written, so that each is one load and one store. N is fixed: where a size is handed over, the compiler turns byte by byte.
fn turn_by<const N: usize>(dst: &mut [u8])
    requires { (N ≤ length dst.old) × (length dst.old ≤ 2 * N) }
    ensures { dst.new ≡ paint every (λ k. turned_of (get_or dst.old k 0)) dst.old }
{
    let n = dst.len();
    let mut first = [0u8; N];
    let mut last = [0u8; N];
    turned_front(&mut first, dst, N);
    turned_front(&mut last, &dst[n - N..n], N);
    lent::copy_front(dst, &first, N);
    lent::copy_front(&mut dst[n - N..n], &last, N);
}

// Every 1 of dst becomes 2, 32 to 48 bytes: a row of blocks of a tile 64 pixels wide, with odd edges or without. What the three parts become is
// found before any is written, since the last one may lie over the second.
fn turn_three(dst: &mut [u8])
    requires { (32 ≤ length dst.old) × (length dst.old ≤ 48) }
    ensures { dst.new ≡ paint every (λ k. turned_of (get_or dst.old k 0)) dst.old }
{
    let n = dst.len();
    let mut first = [0u8; 16];
    let mut second = [0u8; 16];
    let mut third = [0u8; 16];
    turned_front(&mut first, dst, 16);
    turned_front(&mut second, &dst[16..32], 16);
    turned_front(&mut third, &dst[n - 16..n], 16);
    lent::copy_front(dst, &first, 16);
    lent::copy_front(&mut dst[16..32], &second, 16);
    lent::copy_front(&mut dst[n - 16..n], &third, 16);
}

// The byte at k, where there is one: 1 becomes 2. A byte by itself is a choice, and no branch.
fn turn_at(dst: &mut [u8], k: usize)
    ensures { dst.new ≡ paint (λ j. eqb j k) (λ j. turned_of (get_or dst.old j 0)) dst.old }
{
    if k < dst.len() {
        let b = dst[k];
        dst[k] = if b == 1 { 2 } else { b };
    }
}

// Every 1 of dst becomes 2, at most 3 bytes.
fn turn_few(dst: &mut [u8])
    requires { length dst.old ≤ 3 }
    ensures { dst.new ≡ paint every (λ k. turned_of (get_or dst.old k 0)) dst.old }
{
    turn_at(dst, 0);
    turn_at(dst, 1);
    turn_at(dst, 2);
}

// Every 1 of dst becomes 2, byte by byte.
fn turn_each(dst: &mut [u8])
    ensures { dst.new ≡ paint every (λ k. turned_of (get_or dst.old k 0)) dst.old }
{
    for b in dst.iter_mut() {
        *b = turned(*b);
    }
}

// Every 1 of dst becomes 2, fewer than 16 bytes.
fn turn_short(dst: &mut [u8])
    requires { length dst.old < 16 }
    ensures { dst.new ≡ paint every (λ k. turned_of (get_or dst.old k 0)) dst.old }
{
    let n = dst.len();
    if n < 4 {
        turn_few(dst);
        return;
    }
    if n < 8 {
        turn_by::<4>(dst);
        return;
    }
    if n == 8 {
        turn_8(dst);
        return;
    }
    turn_by::<8>(dst);
}

// Every 1 of dst becomes 2.
fn turn(dst: &mut [u8])
    ensures { dst.new ≡ paint every (λ k. turned_of (get_or dst.old k 0)) dst.old }
{
    let n = dst.len();
    if n < 16 {
        turn_short(dst);
        return;
    }
    if n < 32 {
        turn_by::<16>(dst);
        return;
    }
    if n <= 48 {
        turn_three(dst);
        return;
    }
    turn_each(dst);
}

// Every block of the box that is 1 becomes 2.
pub fn turn_box(map: &mut [u8], size: Size, area: Area)
    requires { BoxFits size (length map.old) area }
    ensures { map.new ≡ painted (across_of size) (down_of size) (in_area area)
        (turned_at map.old (across_of size)) map.old }
{
    let wide = crate::across(size);
    for row in area.top..area.bottom {
        let line = row * wide;
        turn(&mut map[line + area.left..line + area.right]);
    }
}
