// The AVC444 payload (RFX_AVC444_BITMAP_STREAM, MS-RDPEGFX 2.2.4.5; V2 has the same frame), read from any bytes.
//
// `read` answers which streams are carried and where their parts stand in the payload, or a refusal (specs/Reading.antt). It looks at the
// counts and not at what is counted, so that a count costs no time, however large it is. No public call asks anything of its caller.
#![tactic(auto)]

pub mod parts; // the parts of a payload that was read

ghost use Rattle.std.specs.Prelude.{◌≡◌, [], ◌≤◌, length, IfOk};
ghost use Rattle.lent.specs.Outcome.{Outcome};
ghost use Rattle.lent.specs.Refused.{number_in};
ghost use Rattle.wire_read.specs.Reading.{found_of, carried_at, stream_at, refused_with, kind_of, first_size_of, head_number_of, follows};
ghost use Rattle.wire_read.specs.Reading.{read_number_of, read_of};
ghost use Rattle.wire_fields.specs.Kinds.{number_of};

use lent::refused::Refusal;
use wire_fields::kinds::Kind;

// Where the parts of a stream stand in the payload: how many rectangles there are; where the rectangles, the pairs and the H.264 bytes
// start; how many H.264 bytes there are.
#[repr(C)]
#[derive(Clone, Copy, Default)]
pub struct Stream {
    pub count: usize,
    pub rects: usize,
    pub pairs: usize,
    pub data: usize,
    pub length: usize,
}

// What a payload carries: a stream that is not carried, and everything but the number in a refusal, is 0.
// Numbers, and no Result: C is handed it as it is. `accept` is the form for callers in Rattle.
#[repr(C)]
#[derive(Clone, Copy, Default)]
pub struct Avc444 {
    pub number: u32,
    pub kind: u32,
    pub luma: Stream,
    pub chroma: Stream,
}

// What a payload's first number says: which streams are carried, and the first stream's size.
#[derive(Clone, Copy)]
struct Head {
    kind: Kind,
    size: u32,
}

// The answer of a refusal: all 0 but its number.
pub fn refused(number: u32) -> Avc444
    ensures { result ≡ refused_with number }
{
    Avc444 {
        number,
        ..Avc444::default()
    }
}

// The stream of the bytes from at to end, or none where its count, its rectangles or its pairs run past it. It divides, so that no
// product of a count wraps.
#[tactic(auto, unfolding(crate::specs::Reading::past_end))]
fn find_stream(s: &[u8], at: usize, end: usize) -> Option<Stream>
    requires { (at ≤ end) × (end ≤ length s.now) }
    ensures { found_of result ≡ stream_at s.now at end }
{
    let room = end - at;
    if room < 4 {
        return None;
    }
    let count = wire_fields::u32_at(s, at) as usize;
    if (room - 4) / 10 < count {
        return None;
    }
    let rects = at + 4;
    let pairs = rects + 8 * count;
    let data = pairs + 2 * count;
    Some(Stream {
        count,
        rects,
        pairs,
        data,
        length: end - data,
    })
}

// The same where the stream is carried, and nothing where it is not.
fn find_carried(is: bool, s: &[u8], at: usize, end: usize) -> Option<Stream>
    requires { (at ≤ end) × (end ≤ length s.now) }
    ensures { found_of result ≡ carried_at is s.now at end }
{
    if is {
        find_stream(s, at, end)
    } else {
        Some(Stream::default())
    }
}

// The payload's first number, where it is sound.
#[tactic(auto, using(wire_fields::proofs::KindLaws::number_small), unfolding(crate::specs::Reading::head_number_of))]
fn read_head(s: &[u8]) -> Result<Head, Refusal>
    ensures number { number_in result ≡ head_number_of s.now }
    ensures head { IfOk result (λ h. (number_of h.kind ≡ kind_of s.now) × (h.size ≡ first_size_of s.now)) }
{
    if s.len() < 4 {
        return Err(Refusal::PayloadShort);
    }
    let info = wire_fields::u32_at(s, 0);
    let Ok(kind) = Kind::try_from(wire_fields::kind(info)) else {
        return Err(Refusal::KindUnknown);
    };
    let size = wire_fields::size(info);
    if s.len() - 4 < size as usize {
        return Err(Refusal::PayloadShort);
    }
    Ok(Head { kind, size })
}

impl Head {
    // Where the first stream ends in kind 0, and something else in the other kinds.
    fn past_first(self, other: usize) -> usize
        ensures { result ≡ follows (number_of self.kind) self.size other }
    {
        if self.kind == Kind::Both {
            4 + self.size as usize
        } else {
            other
        }
    }
}

// What a payload carries, and where, or why it is refused.
pub fn accept(payload: &[u8]) -> Result<Avc444, Refusal>
    ensures number { number_in result ≡ read_number_of payload.now }
    ensures carried { IfOk result (λ a. a ≡ read_of payload.now) }
{
    let head = read_head(payload)?;
    let kind = head.kind;
    let len = payload.len();
    let Some(luma) = find_carried(kind.has_luma(), payload, 4, head.past_first(len)) else {
        return Err(Refusal::StreamShort);
    };
    let Some(chroma) = find_carried(kind.has_chroma(), payload, head.past_first(4), len) else {
        return Err(Refusal::StreamShort);
    };
    Ok(Avc444 {
        number: 0,
        kind: kind.number(),
        luma,
        chroma,
    })
}

// The same as one struct, as it goes over the C boundary.
pub fn read(payload: &[u8]) -> Avc444
    ensures { Outcome (read_of payload.now) [] result [] }
{
    match accept(payload) {
        Ok(carried) => carried,
        Err(refusal) => refused(refusal.number()),
    }
}
