// The AVC444 payload written into a lent output (docs/RULES.md, R120 to R124): what `wire_read::read` reads.
//
// The number is found from the lengths before anything is written, so that a refusal changes no byte. No public call asks anything of
// its caller.
#![tactic(auto)]

pub mod number; // 8, 7, 11 or 6, from the lengths alone
pub mod put; // one stream, into a lent part

ghost use Rattle.std.specs.Prelude.{◌≡◌, true, cond, [], ◌∷◌, ◌++◌, ◌/◌, ◌^◌, ◌<◌, length, drop};
ghost use Rattle.wire_fields.specs.Kinds.{number_of};
ghost use Rattle.wire_read.specs.Format.{bytes_of};
ghost use Rattle.wire_write.specs.Number.{bytes_for};
ghost use Rattle.wire_write.specs.Writing.{given_by, sizes_given, parts_given, Placed, payload_of, WriteOutcome};

use crate::number::StreamSizes;
use lent::Answer;
use wire_fields::kinds::Kind;

// What is lent for a stream: its rectangle list, two bytes of pair for each rectangle, and its H.264 bytes.
#[derive(Clone, Copy)]
pub struct StreamInput<'a> {
    pub rects: &'a [u16],
    pub pairs: &'a [u8],
    pub data: &'a [u8],
}

impl StreamInput<'_> {
    fn sizes(self) -> StreamSizes
        ensures { result ≡ sizes_given (given_by self.entry) }
    {
        StreamSizes {
            rects: self.rects.len(),
            pairs: self.pairs.len(),
            data: self.data.len(),
        }
    }
}

// dst becomes the stream, or it is empty where the stream is not carried.
fn put_carried(is: bool, dst: &mut [u8], stream: StreamInput<'_>)
    requires { (length dst.old ≡ cond is (bytes_for (sizes_given (given_by stream))) 0)
        × (is ≡ true → length stream.rects.now / 4 < 2 ^ 32) }
    ensures { dst.new ≡ cond is (bytes_of (parts_given (given_by stream.entry))) [] }
{
    if is {
        crate::put::put_stream(dst, stream);
    }
}

// The bytes of a stream, where it is carried.
fn carried_bytes(is: bool, z: StreamSizes) -> usize
    requires { cond is (bytes_for z) 0 < 2 ^ 64 }
    ensures { result ≡ cond is (bytes_for z) 0 }
{
    if is { z.bytes() } else { 0 }
}

// The payload, into an output that has room for it.
fn put_payload(
    kind: Kind,
    luma: StreamInput<'_>,
    chroma: StreamInput<'_>,
    out: &mut [u8],
    middle: usize,
    end: usize,
)
    requires { Placed (number_of kind) (given_by luma) (given_by chroma) middle end (length out.old) }
    ensures { out.new ≡ payload_of (number_of kind) (given_by luma.entry) (given_by chroma.entry) ++ drop end out.old }
{
    let size = (middle - 4) as u32;
    wire_fields::put_u32(&mut out[0..4], wire_fields::info(kind.number(), size));
    put_carried(kind.has_luma(), &mut out[4..middle], luma);
    put_carried(kind.has_chroma(), &mut out[middle..end], chroma);
}

// The payload of a kind, two rectangle lists, their pairs and the H.264 bytes; the count is its bytes. 0, 8, 7, 11 or 6.
pub fn write(kind: u32, luma: StreamInput<'_>, chroma: StreamInput<'_>, out: &mut [u8]) -> Answer
    ensures { WriteOutcome kind (given_by luma.entry) (given_by chroma.entry) out.old result (out.new ∷ []) }
{
    let l = luma.sizes();
    let c = chroma.sizes();
    let kind = match crate::number::check(kind, l, c, out.len()) {
        Ok(kind) => kind,
        Err(refusal) => return Answer::refused(refusal),
    };
    let middle = 4 + carried_bytes(kind.has_luma(), l);
    let end = middle + carried_bytes(kind.has_chroma(), c);
    put_payload(kind, luma, chroma, out, middle, end);
    Answer::done(end)
}
