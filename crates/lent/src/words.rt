// Neighbouring bytes as one number, the first one lowest, and back.
//
// Rows are read and written in such words where every second byte is wanted: a compiler that has no load of every second byte reads them
// one by one, while a load of two bytes, in a function of its own, stays one load, and a row of them is vector code.
ghost use Rattle.std.specs.Prelude.{◌≡◌, ◌+◌, ◌/◌, ◌%◌, ◌<◌, ◌≤◌, length, get_or, set};

// The two bytes of p from i on.
pub fn two(p: &[u8], i: usize) -> u16
    requires { i + 2 ≤ length p.now }
    ensures { (result % 256 ≡ get_or p.now i 0) × (result / 256 ≡ get_or p.now (i + 1) 0) }
{
    u16::from_le_bytes([p[i], p[i + 1]])
}

// The two bytes of dst from i on become those of w.
pub fn put_two(dst: &mut [u8], i: usize, w: u16)
    requires { i + 2 ≤ length dst.old }
    ensures { dst.new ≡ set (set dst.old i (w % 256)) (i + 1) (w / 256) }
{
    let [low, high] = w.to_le_bytes();
    dst[i] = low;
    dst[i + 1] = high;
}

// The four bytes of p from i on.
pub fn four(p: &[u8], i: usize) -> u32
    requires { i + 4 ≤ length p.now }
    ensures { (result % 256 ≡ get_or p.now i 0) × (result / 256 % 256 ≡ get_or p.now (i + 1) 0)
        × (result / 65536 % 256 ≡ get_or p.now (i + 2) 0) × (result / 16777216 ≡ get_or p.now (i + 3) 0) }
{
    u32::from_le_bytes([p[i], p[i + 1], p[i + 2], p[i + 3]])
}

// The four bytes of dst from i on become those of w.
pub fn put_four(dst: &mut [u8], i: usize, w: u32)
    requires { i + 4 ≤ length dst.old }
    ensures { dst.new ≡ set (set (set (set dst.old i (w % 256)) (i + 1) (w / 256 % 256))
        (i + 2) (w / 65536 % 256)) (i + 3) (w / 16777216) }
{
    let [first, second, third, fourth] = w.to_le_bytes();
    dst[i] = first;
    dst[i + 1] = second;
    dst[i + 2] = third;
    dst[i + 3] = fourth;
}
