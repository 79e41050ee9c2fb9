// The AVC444 payload: what it carries and where, one rectangle or pair of a stream, its rectangles as an apply call takes them, and the
// payload written.
ghost use Rattle.std.specs.Prelude.{[], ◌∷◌};
ghost use Rattle.lent.specs.Outcome.{Outcome};
ghost use Rattle.wire_read.specs.Reading.{read_of};
ghost use Rattle.wire_read.specs.Parts.{CopyRectsOutcome, rectangle_at_of, pair_at_of};
ghost use Rattle.wire_read.specs.declared.parts.Which.TheVariants.{Luma, Chroma};
ghost use Rattle.wire_write.specs.Writing.{given, WriteOutcome};

use wire_read::parts::Which;
use wire_write::StreamInput;

// Which streams a payload carries, and where their parts stand in it. 0, 9, 8 or 10.
#[unsafe(no_mangle)]
pub extern "C" fn haythaw_avc444_read(payload: &[u8]) -> wire_read::Avc444
    ensures { Outcome (read_of payload.now) [] result [] }
{
    wire_read::read(payload)
}

// Rectangle i of the luma stream. 0, 9, 8 or 10.
#[unsafe(no_mangle)]
pub extern "C" fn haythaw_avc444_luma_rectangle(
    payload: &[u8],
    i: usize,
) -> wire_read::parts::Rectangle
    ensures { Outcome (rectangle_at_of payload.now Luma i) [] result [] }
{
    wire_read::parts::rectangle_at(payload, Which::Luma, i)
}

// Rectangle i of the chroma stream. 0, 9, 8 or 10.
#[unsafe(no_mangle)]
pub extern "C" fn haythaw_avc444_chroma_rectangle(
    payload: &[u8],
    i: usize,
) -> wire_read::parts::Rectangle
    ensures { Outcome (rectangle_at_of payload.now Chroma i) [] result [] }
{
    wire_read::parts::rectangle_at(payload, Which::Chroma, i)
}

// Pair i of the luma stream. 0, 9, 8 or 10.
#[unsafe(no_mangle)]
pub extern "C" fn haythaw_avc444_luma_pair(payload: &[u8], i: usize) -> wire_read::parts::Pair
    ensures { Outcome (pair_at_of payload.now Luma i) [] result [] }
{
    wire_read::parts::pair_at(payload, Which::Luma, i)
}

// Pair i of the chroma stream. 0, 9, 8 or 10.
#[unsafe(no_mangle)]
pub extern "C" fn haythaw_avc444_chroma_pair(payload: &[u8], i: usize) -> wire_read::parts::Pair
    ensures { Outcome (pair_at_of payload.now Chroma i) [] result [] }
{
    wire_read::parts::pair_at(payload, Which::Chroma, i)
}

// The rectangles of the luma stream as an apply call takes them, and how many numbers were written. 0, 9, 8, 10 or 6.
#[unsafe(no_mangle)]
pub extern "C" fn haythaw_avc444_luma_rects(payload: &[u8], out: &mut [u16]) -> lent::Answer
    ensures { CopyRectsOutcome payload.now Luma out.old result (out.new ∷ []) }
{
    wire_read::parts::copy_rects(payload, Which::Luma, out)
}

// The rectangles of the chroma stream as an apply call takes them, and how many numbers were written. 0, 9, 8, 10 or 6.
#[unsafe(no_mangle)]
pub extern "C" fn haythaw_avc444_chroma_rects(payload: &[u8], out: &mut [u16]) -> lent::Answer
    ensures { CopyRectsOutcome payload.now Chroma out.old result (out.new ∷ []) }
{
    wire_read::parts::copy_rects(payload, Which::Chroma, out)
}

// The payload of a kind (0 both streams, 1 luma only, 2 chroma only), rectangles in fours, two bytes of pair for each, and the H.264
// bytes; the count is the bytes written. 0, 8, 7, 11 or 6.
#[unsafe(no_mangle)]
pub extern "C" fn haythaw_avc444_write(
    kind: u32,
    luma_rects: &[u16],
    luma_pairs: &[u8],
    luma_data: &[u8],
    chroma_rects: &[u16],
    chroma_pairs: &[u8],
    chroma_data: &[u8],
    out: &mut [u8],
) -> lent::Answer
    ensures { WriteOutcome kind (given luma_rects.now luma_pairs.now luma_data.now)
        (given chroma_rects.now chroma_pairs.now chroma_data.now)
        out.old result (out.new ∷ []) }
{
    let luma = StreamInput {
        rects: luma_rects,
        pairs: luma_pairs,
        data: luma_data,
    };
    let chroma = StreamInput {
        rects: chroma_rects,
        pairs: chroma_pairs,
        data: chroma_data,
    };
    wire_write::write(kind, luma, chroma, out)
}
