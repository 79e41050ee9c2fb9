// The parts of a stream of an AVC444 payload: its rectangles, its quantiser and quality pairs and its H.264 bytes as the caller's own
// bytes; one rectangle or pair by its place; and all rectangles as the numbers that the apply calls take.
//
// Of a payload that `crate::read` refuses, and of a stream that is not carried, a part is empty and nothing is present. The number that
// stands beside a part is that of `crate::read`. No public call asks anything of its caller.
ghost use Rattle.std.specs.Prelude.{◌≡◌, [], ◌∷◌, ◌+◌, ◌*◌, ◌≤◌, ltb, length, take, drop};
ghost use Rattle.lent.specs.Outcome.{Outcome, OwnPart};
ghost use Rattle.lent.specs.Paint.{paint};
ghost use Rattle.wire_fields.specs.Fields.{u16_at};
ghost use Rattle.wire_read.specs.Reading.{read_number_of, PartsInside};
ghost use Rattle.wire_read.specs.Parts.{places_of, here_in, parts_of, rectangle_at_of, pair_at_of, CopyRectsOutcome};

use crate::Stream;
use lent::Answer;
use lent::refused::Refusal;

// One of the two streams that a payload may carry.
#[derive(Clone, Copy)]
pub enum Which {
    Luma,
    Chroma,
}

// A rectangle of a stream: zeros where it is not present.
// A flag beside numbers, and no Option: C is handed it as it is.
#[repr(C)]
#[derive(Clone, Copy, Default)]
pub struct Rectangle {
    pub number: u32,
    pub present: bool,
    pub left: u16,
    pub top: u16,
    pub right: u16,
    pub bottom: u16,
}

// A quantiser and quality pair of a stream: zeros where it is not present.
// A flag beside values, and no Option: C is handed it as it is.
#[repr(C)]
#[derive(Clone, Copy, Default)]
pub struct Pair {
    pub number: u32,
    pub present: bool,
    pub value: u8,
    pub reserved: bool,
    pub progressive: bool,
    pub quality: u8,
}

// The payload's number, and where the parts of one of its streams stand. (No Result: in a refusal the places are wanted too, since a part is
// empty there.)
#[derive(Clone, Copy)]
struct Here {
    number: u32,
    places: Stream,
}

// 0, or the refusal of the payload: the number that stands beside each part below.
#[tactic(auto, using(crate::proofs::Exactly::answer_number))]
pub fn number(payload: &[u8]) -> u32
    ensures { result ≡ read_number_of payload.now }
{
    crate::read(payload).number
}

// The payload is read once, and its parts lie inside it.
fn find(payload: &[u8], which: Which) -> Here
    ensures { (result ≡ here_in payload.now which) × PartsInside result.places (length payload.now) }
{
    let a = crate::read(payload);
    let places = match which {
        Which::Luma => a.luma,
        Which::Chroma => a.chroma,
    };
    Here {
        number: a.number,
        places,
    }
}

// n bytes of the payload, from start on.
fn cut<'a>(payload: &'a [u8], start: usize, n: usize) -> &'a [u8]
    requires { start + n ≤ length payload.now }
    ensures { OwnPart payload.entry result start (take n (drop start payload.now)) }
{
    &payload[start..start + n]
}

// The rectangles of a stream, eight bytes each.
pub fn rects<'a>(payload: &'a [u8], which: Which) -> &'a [u8]
    ensures { OwnPart payload.entry result (places_of payload.now which).rects
        (parts_of payload.now which).rects }
{
    let x = find(payload, which).places;
    cut(payload, x.rects, 8 * x.count)
}

// The pairs of a stream, two bytes each. Each part has a call of its own: what they share is `find` and `cut`.
pub fn pairs<'a>(payload: &'a [u8], which: Which) -> &'a [u8]
    ensures { OwnPart payload.entry result (places_of payload.now which).pairs
        (parts_of payload.now which).pairs }
{
    let x = find(payload, which).places;
    cut(payload, x.pairs, 2 * x.count)
}

// The H.264 bytes of a stream.
pub fn h264<'a>(payload: &'a [u8], which: Which) -> &'a [u8]
    ensures { OwnPart payload.entry result (places_of payload.now which).«data»
        (parts_of payload.now which).h264 }
{
    let x = find(payload, which).places;
    cut(payload, x.data, x.length)
}

// Rectangle i of a stream.
#[tactic(auto, unfolding(crate::specs::Parts::rectangle_at_of))]
pub fn rectangle_at(payload: &[u8], which: Which, i: usize) -> Rectangle
    ensures { Outcome (rectangle_at_of payload.now which i) [] result [] }
{
    let Here { number, places } = find(payload, which);
    if i >= places.count {
        return Rectangle {
            number,
            ..Rectangle::default()
        };
    }
    let at = places.rects + 8 * i;
    Rectangle {
        number,
        present: true,
        left: wire_fields::u16_at(payload, at),
        top: wire_fields::u16_at(payload, at + 2),
        right: wire_fields::u16_at(payload, at + 4),
        bottom: wire_fields::u16_at(payload, at + 6),
    }
}

// Pair i of a stream.
#[tactic(auto, unfolding(crate::specs::Parts::pair_at_of))]
pub fn pair_at(payload: &[u8], which: Which, i: usize) -> Pair
    ensures { Outcome (pair_at_of payload.now which i) [] result [] }
{
    let Here { number, places } = find(payload, which);
    if i >= places.count {
        return Pair {
            number,
            ..Pair::default()
        };
    }
    let at = places.pairs + 2 * i;
    let q = wire_fields::quantiser_in(payload[at]);
    Pair {
        number,
        present: true,
        value: q.value,
        reserved: q.reserved,
        progressive: q.progressive,
        quality: payload[at + 1],
    }
}

// The first n numbers of out become those that start at `at`.
fn put_numbers(s: &[u8], at: usize, out: &mut [u16], n: usize)
    requires { (at + 2 * n ≤ length s.now) × (n ≤ length out.old) }
    ensures { out.new ≡ paint (λ k. ltb k n) (λ k. u16_at s.now (at + 2 * k)) out.old }
{
    for i in 0..n {
        out[i] = wire_fields::u16_at(s, at + 2 * i);
    }
}

// The rectangles of a stream as numbers in fours, as the apply calls take them. The count is the numbers written.
#[tactic(auto, unfolding(crate::specs::Parts::numbers_of, crate::specs::Parts::copy_number_of))]
pub fn copy_rects(payload: &[u8], which: Which, out: &mut [u16]) -> Answer
    ensures { CopyRectsOutcome payload.now which out.old result (out.new ∷ []) }
{
    let Here { number, places } = find(payload, which);
    if number != 0 {
        return Answer { number, count: 0 };
    }
    if out.len() / 4 < places.count {
        return Answer::refused(Refusal::OutputShort);
    }
    let n = 4 * places.count;
    put_numbers(payload, places.rects, out, n);
    Answer::done(n)
}
