// Reads RGB triples from standard input and writes one line for each: Y U V, then R G B after the reverse, in decimal with
// single spaces. A remainder of n = 1 or 2 bytes gives a last line `short n`.
// Promised: the text that is made of a bufferful is exactly the rule's (`text_of` of specs/Text.antt), and where a bufferful is full, so
// that the program goes on, the input may be cut after it (`CutAfter`): it is a whole number of triples. So the input may arrive in
// pieces of any size. A read or a write that fails ends the program with its error.
#![tactic(auto)]

ghost use Rattle.std.specs.Prelude.{◌≡◌, true, [], ◌∷◌, ◌+◌, ◌*◌, ◌≤◌, ◌<◌, length, take, IfOk};
ghost use Rattle.std.specs.Counts.{IsPrefixLen};
ghost use Rattle.colours.specs.Text.{decimal_of, number_of, line_of, short_of, text_of, CutAfter, Put};

use std::io;
use std::io::Read;

// Each function below puts text into `out` at `at` and answers the place after it.
fn put(out: &mut [u8], at: usize, b: u8) -> usize
    requires { at < length out.old }
    ensures { Put out.old out.new at result (b ∷ []) }
{
    out[at] = b;
    at + 1
}

fn put_bytes(out: &mut [u8], at: usize, text: &[u8]) -> usize
    requires { at + length text.now ≤ length out.old }
    ensures { Put out.old out.new at result text.now }
{
    let end = at + text.len();
    out[at..end].copy_from_slice(text);
    end
}

fn put_decimal(out: &mut [u8], at: usize, n: u8) -> usize
    requires { at + 3 ≤ length out.old }
    ensures put { Put out.old out.new at result (decimal_of n) }
    ensures upper_bound { result ≤ at + 3 }
{
    if n < 10 {
        return put(out, at, b'0' + n);
    }
    if n < 100 {
        let a = put(out, at, b'0' + n / 10);
        return put(out, a, b'0' + n % 10);
    }
    let a = put(out, at, b'0' + n / 100);
    let b = put(out, a, b'0' + n / 10 % 10);
    put(out, b, b'0' + n % 10)
}

// A number and the byte after it.
fn put_number(out: &mut [u8], at: usize, n: u8, end: u8) -> usize
    requires { at + 4 ≤ length out.old }
    ensures put { Put out.old out.new at result (number_of n end) }
    ensures upper_bound { result ≤ at + 4 }
{
    let a = put_decimal(out, at, n);
    put(out, a, end)
}

fn put_line(out: &mut [u8], at: usize, r: u8, g: u8, b: u8) -> usize
    requires { at + 24 ≤ length out.old }
    ensures put { Put out.old out.new at result (line_of r g b) }
    ensures upper_bound { result ≤ at + 24 }
{
    let p = colour::forward(r, g, b);
    let back = colour::reverse(p.y, p.u, p.v);
    let y = put_number(out, at, p.y, b' ');
    let u = put_number(out, y, p.u, b' ');
    let v = put_number(out, u, p.v, b' ');
    let red = put_number(out, v, back[0], b' ');
    let green = put_number(out, red, back[1], b' ');
    put_number(out, green, back[2], b'\n')
}

fn put_short(out: &mut [u8], at: usize, n: u8) -> usize
    requires { at + 10 ≤ length out.old }
    ensures put { Put out.old out.new at result (short_of n) }
    ensures upper_bound { result ≤ at + 10 }
{
    let a = put_bytes(out, at, b"short ");
    put_number(out, a, n, b'\n')
}

// All lines of rgb, from the start of out: a line has at most 24 bytes for 3 of rgb, and the last one at most 10.
fn put_text(out: &mut [u8], rgb: &[u8]) -> usize
    requires { 8 * length rgb.now + 10 ≤ length out.old }
    ensures prefix_len { IsPrefixLen result out.new }
    ensures out_after { take result out.new ≡ text_of rgb.now }
{
    let mut at = 0;
    for k in 0..rgb.len() / 3 {
        at = put_line(out, at, rgb[3 * k], rgb[3 * k + 1], rgb[3 * k + 2]);
    }
    match rgb.len() % 3 {
        0 => at,
        left => put_short(out, at, left as u8),
    }
}

// Whether n bytes fill the buffer, so that there may be more: 1,024 triples, and what follows has lines of its own.
fn full(rgb: &[u8; 3072], n: usize) -> bool
    requires { IsPrefixLen n rgb.now }
    ensures { result ≡ true → CutAfter (take n rgb.now) }
{
    n == rgb.len()
}

// Reads until buf is full or the input ends, and answers how many bytes it put at the start of buf. (No `for`: how far a turn comes is what
// the input gives.)
fn read_full(input: &mut impl Read, buf: &mut [u8]) -> io::Result<usize>
    ensures { IfOk result (λ n. IsPrefixLen n buf.new) }
{
    let mut done = 0;
    while done < buf.len() {
        let n = input.read(&mut buf[done..])?;
        if n == 0 {
            break;
        }
        done += n;
    }
    Ok(done)
}

// One bufferful, or fewer bytes where the input ends. Answers whether there may be more.
fn step(rt: &HostRuntime) -> io::Result<bool> {
    let mut rgb = [0u8; 3072];
    let mut out = [0u8; 24586];
    let n = read_full(&mut rt.stdin(), &mut rgb)?;
    let k = put_text(&mut out, &rgb[..n]);
    rt.write_all(&out[..k])?;
    Ok(full(&rgb, n))
}

// A proved loop has to end, and nothing says that the input does. So it counts its turns, up to a number that no run reaches.
fn main(rt: HostRuntime) -> io::Result<()> {
    for _ in 0..u64::MAX {
        if !step(&rt)? {
            break;
        }
    }
    Ok(())
}
