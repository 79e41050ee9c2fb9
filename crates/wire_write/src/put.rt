// A stream of an AVC444 payload written into a lent part: its count, its rectangles as little-endian bytes, its pairs, its H.264 bytes.
//
// Each writer fills the part that it is lent to its last byte; whoever lends it has counted the bytes. Numbers go through a local array
// of fixed length, as bytes do in `lent::long`: on a machine that keeps a number's low byte first the compiler makes one memmove of it.
ghost use Rattle.std.specs.Prelude.{◌≡◌, ◌*◌, ◌/◌, ◌^◌, ◌<◌, ◌≤◌, ltb, length, get_or, take};
ghost use Rattle.lent.specs.Paint.{paint};
ghost use Rattle.wire_read.specs.Format.{bytes_of};
ghost use Rattle.wire_write.specs.Stream.{number_bytes};
ghost use Rattle.wire_write.specs.Number.{bytes_for};
ghost use Rattle.wire_write.specs.Writing.{given_by, sizes_given, parts_given};

use crate::StreamInput;

// The front of t becomes the numbers.
fn numbers_in(t: &mut [u16; 2048], numbers: &[u16])
    requires { (length t.old ≡ 2048) × (length numbers.now ≤ 2048) }
    ensures { t.new ≡ paint (λ k. ltb k (length numbers.now)) (λ k. get_or numbers.now k 0) t.old }
{
    for i in 0..numbers.len() {
        t[i] = numbers[i];
    }
}

// dst becomes the first n numbers of t, two bytes each.
fn numbers_out(dst: &mut [u8], t: &[u16; 2048], n: usize)
    requires { (length t.now ≡ 2048) × (n ≤ 2048) × (length dst.old ≡ 2 * n) }
    ensures { dst.new ≡ number_bytes (take n t.now) }
{
    for i in 0..n {
        wire_fields::put_u16(&mut dst[2 * i..2 * i + 2], t[i]);
    }
}

// dst becomes the numbers, at most 2048, two bytes each.
fn numbers_part(dst: &mut [u8], numbers: &[u16])
    requires dst_len { length dst.old ≡ 2 * length numbers.now }
    requires numbers_len_bound { length numbers.now ≤ 2048 }
    ensures { dst.new ≡ number_bytes numbers.now }
{
    let mut t = [0u16; 2048];
    numbers_in(&mut t, numbers);
    numbers_out(dst, &t, numbers.len());
}

// dst becomes the numbers, two bytes each.
fn put_numbers(dst: &mut [u8], numbers: &[u16])
    requires { length dst.old ≡ 2 * length numbers.now }
    ensures { dst.new ≡ number_bytes numbers.now }
{
    let n = numbers.len();
    for k in (0..n).step_by(2048) {
        let m = usize::min(2048, n - k);
        numbers_part(&mut dst[2 * k..2 * (k + m)], &numbers[k..k + m]);
    }
}

// dst becomes the stream.
pub fn put_stream(dst: &mut [u8], stream: StreamInput<'_>)
    requires { (length dst.old ≡ bytes_for (sizes_given (given_by stream))) × (length stream.rects.now / 4 < 2 ^ 32) }
    ensures { dst.new ≡ bytes_of (parts_given (given_by stream.entry)) }
{
    let count = (stream.rects.len() / 4) as u32;
    let first = 4 + 2 * stream.rects.len();
    let second = first + stream.pairs.len();
    let end = second + stream.data.len();
    wire_fields::put_u32(&mut dst[0..4], count);
    put_numbers(&mut dst[4..first], stream.rects);
    lent::long::copy(&mut dst[first..second], stream.pairs);
    lent::long::copy(&mut dst[second..end], stream.data);
}
