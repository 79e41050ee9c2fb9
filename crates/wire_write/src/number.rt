// The number of a call that writes an AVC444 payload, from the lengths of what it is lent. No sum of lengths wraps: what is written is
// taken from the room, part by part.
ghost use Rattle.std.specs.Prelude.{◌≡◌, ◌+◌, ◌*◌, ◌^◌, ◌≤◌, ◌<◌, IfOk};
ghost use Rattle.lent.specs.Refused.{number_in};
ghost use Rattle.wire_fields.specs.Kinds.{number_of};
ghost use Rattle.wire_write.specs.Number.{bytes_for, uneven, count_large, stream_long, first_carried, lacks, lists_wrong, too_long, output_short, write_number_of};

use lent::refused::Refusal;
use wire_fields::kinds::Kind;

// How much is lent for a stream: numbers of its rectangle list, bytes of its pairs, H.264 bytes.
#[derive(Clone, Copy)]
pub struct StreamSizes {
    pub rects: usize,
    pub pairs: usize,
    pub data: usize,
}

impl StreamSizes {
    // The list is not in fours, or there is not one pair for each rectangle.
    fn is_uneven(self) -> bool
        ensures { result ≡ uneven self }
    {
        self.rects % 4 != 0 || self.pairs != 2 * (self.rects / 4)
    }

    // The rectangle count does not fit in 32 bits.
    fn is_count_large(self) -> bool
        ensures { result ≡ count_large self }
    {
        self.rects / 4 > 0xffff_ffff
    }

    // The bytes of a stream that fits.
    pub fn bytes(self) -> usize
        requires { bytes_for self < 2 ^ 64 }
        ensures { result ≡ bytes_for self }
    {
        4 + 2 * self.rects + self.pairs + self.data
    }

    // The stream is 2^30 bytes or longer. Where each part is shorter, their sum does not wrap.
    fn is_long(self) -> bool
        ensures { result ≡ stream_long self }
    {
        self.rects >= 0x4000_0000
            || self.pairs >= 0x4000_0000
            || self.data >= 0x4000_0000
            || self.bytes() >= 0x4000_0000
    }

    // The stream has more bytes than a room.
    fn exceeds(self, room: usize) -> bool
        ensures { result ≡ lacks room self }
    {
        if room < 4 {
            return true;
        }
        let a = room - 4;
        if a / 2 < self.rects {
            return true;
        }
        let b = a - 2 * self.rects;
        b < self.pairs || b - self.pairs < self.data
    }
}

// A list of a stream that is carried is not in fours, or lacks a pair.
fn are_lists_wrong(kind: Kind, l: StreamSizes, c: StreamSizes) -> bool
    ensures { result ≡ lists_wrong (number_of kind) l c }
{
    kind.has_luma() && l.is_uneven() || kind.has_chroma() && c.is_uneven()
}

fn first(kind: Kind, l: StreamSizes, c: StreamSizes) -> StreamSizes
    ensures { result ≡ first_carried (number_of kind) l c }
{
    if kind.has_luma() { l } else { c }
}

// The first stream carried is too long for the size field, or a count for its own.
fn is_too_long(kind: Kind, l: StreamSizes, c: StreamSizes) -> bool
    ensures { result ≡ too_long (number_of kind) l c }
{
    first(kind, l, c).is_long()
        || kind.has_luma() && l.is_count_large()
        || kind.has_chroma() && c.is_count_large()
}

// The output is shorter than the payload.
fn is_output_short(kind: Kind, l: StreamSizes, c: StreamSizes, n: usize) -> bool
    ensures { result ≡ output_short (number_of kind) l c n }
{
    if n < 4 {
        return true;
    }
    let room = n - 4;
    match kind {
        Kind::Both => l.exceeds(room) || c.exceeds(room - l.bytes()),
        Kind::Luma => l.exceeds(room),
        Kind::Chroma => c.exceeds(room),
    }
}

// The kind of a payload, where a call that is lent n bytes for it is not refused.
#[tactic(auto, unfolding(crate::specs::Number::write_number_of))]
pub fn check(kind: u32, l: StreamSizes, c: StreamSizes, n: usize) -> Result<Kind, Refusal>
    ensures number { number_in result ≡ write_number_of kind l c n }
    ensures kind { IfOk result (λ k. number_of k ≡ kind) }
{
    let Ok(kind) = Kind::try_from(kind) else {
        return Err(Refusal::KindUnknown);
    };
    if are_lists_wrong(kind, l, c) {
        return Err(Refusal::ListUneven);
    }
    if is_too_long(kind, l, c) {
        return Err(Refusal::PayloadLong);
    }
    if is_output_short(kind, l, c, n) {
        return Err(Refusal::OutputShort);
    }
    Ok(kind)
}
