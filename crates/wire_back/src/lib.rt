// A payload written and read again, by the calls themselves: what the reader finds is what the writer was given. And a payload read and
// written again: a standard one is written to the same bytes.
#![tactic(auto)]

ghost use Rattle.std.specs.Prelude.{◌≡◌, [], ◌∷◌, ◌*◌, ◌^◌, ◌<◌};
ghost use Rattle.lent.specs.Refused.{number_in};
ghost use Rattle.wire_write.specs.Writing.{given_by};
ghost use Rattle.wire_back.specs.Back.{WriteReadOutcome, sizes_at, WriteAgain, read_write_number_of, ReadWriteOutcome};

use lent::Answer;
use lent::refused::Refusal;
use wire_read::parts::{Which, copy_rects, h264, pairs};
use wire_write::StreamInput;
use wire_write::number::StreamSizes;

// The payload is written into out, and what was written is read. 0, 8, 7, 11 or 6: the writer's numbers, since what it writes is accepted.
pub fn write_read(
    kind: u32,
    luma: StreamInput<'_>,
    chroma: StreamInput<'_>,
    out: &mut [u8],
) -> wire_read::Avc444
    ensures { WriteReadOutcome kind (given_by luma.entry) (given_by chroma.entry) out.old result out.new }
{
    let written = wire_write::write(kind, luma, chroma, out);
    if written.number != 0 {
        return wire_read::refused(written.number);
    }
    wire_read::read(&out[..written.count])
}

// How much a stream that was read gives to the writer.
fn sizes_at(x: wire_read::Stream) -> StreamSizes
    requires { 4 * x.count < 2 ^ 64 }
    ensures { result ≡ sizes_at x }
{
    StreamSizes {
        rects: 4 * x.count,
        pairs: 2 * x.count,
        data: x.length,
    }
}

// Whether a call may read the payload and write it back, from the lengths of what it is lent.
fn check(payload: &[u8], lumas: usize, chromas: usize, room: usize) -> Result<(), Refusal>
    ensures { number_in result ≡ read_write_number_of payload.now lumas chromas room }
{
    let a = wire_read::accept(payload)?;
    let luma = a.luma;
    if lumas / 4 < luma.count {
        return Err(Refusal::OutputShort);
    }
    let chroma = a.chroma;
    if chromas / 4 < chroma.count {
        return Err(Refusal::OutputShort);
    }
    wire_write::number::check(a.kind, sizes_at(luma), sizes_at(chroma), room)?;
    Ok(())
}

// The payload is written again: its kind, the two lists for its rectangles, and its own pairs and H.264 bytes.
fn write_again(payload: &[u8], luma_rects: &[u16], chroma_rects: &[u16], out: &mut [u8]) -> Answer
    ensures { WriteAgain payload.now luma_rects.now chroma_rects.now out.old result (out.new ∷ []) }
{
    let a = wire_read::read(payload);
    let luma = StreamInput {
        rects: luma_rects,
        pairs: pairs(payload, Which::Luma),
        data: h264(payload, Which::Luma),
    };
    let chroma = StreamInput {
        rects: chroma_rects,
        pairs: pairs(payload, Which::Chroma),
        data: h264(payload, Which::Chroma),
    };
    wire_write::write(a.kind, luma, chroma, out)
}

// The payload is read, the rectangles of each stream are copied into its list, and what was read is written into out. The number is found
// before anything is written: 9, 8, 9 or 10 of the payload; 6, where a list is too short for its rectangles; 11 or 6 of the writer.
pub fn read_write(
    payload: &[u8],
    luma_rects: &mut [u16],
    chroma_rects: &mut [u16],
    out: &mut [u8],
) -> Answer
    ensures { ReadWriteOutcome payload.now luma_rects.old chroma_rects.old out.old
        result luma_rects.new chroma_rects.new out.new }
{
    if let Err(refusal) = check(payload, luma_rects.len(), chroma_rects.len(), out.len()) {
        return Answer::refused(refusal);
    }
    let luma = copy_rects(payload, Which::Luma, luma_rects);
    let chroma = copy_rects(payload, Which::Chroma, chroma_rects);
    write_again(
        payload,
        &luma_rects[..luma.count],
        &chroma_rects[..chroma.count],
        out,
    )
}
