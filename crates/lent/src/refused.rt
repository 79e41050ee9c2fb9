// Why a call was refused. Whether a call is refused is found before anything is written, as Ok or an error of this enum; over the C boundary the
// error goes as its number, and 0 stands for Ok.
ghost use Rattle.std.specs.Prelude.{◌≡◌};
ghost use Rattle.lent.specs.Refused.{number_of, number_in, refused_with, done_with};

use crate::Answer;

// The refusals, in the order of their numbers.
#[derive(Clone, Copy, Debug, PartialEq, Eq)]
pub enum Refusal {
    // 1: a plane of a picture is shorter than stride x rows, or its map than stride/2 x rows/2.
    PictureShort,
    // 2: RGBA pixels are fewer bytes than width x height x 4.
    PixelsShort,
    // 3: a stride of a view is below its plane's width.
    StrideNarrow,
    // 4: a plane of a view is shorter than its rows.
    ViewShort,
    // 5: stride, rows or W of a picture that is split is above 65,535.
    PictureLarge,
    // 6: an output is shorter than what would be written.
    OutputShort,
    // 7: a list's length is not a multiple of 4, or lacks a pair for a rectangle.
    ListUneven,
    // 8: the kind of a payload is above 2.
    KindUnknown,
    // 9: a payload is shorter than 4 bytes, or than the size that it names.
    PayloadShort,
    // 10: a count, a rectangle or a pair runs past its stream.
    StreamShort,
    // 11: the first stream is 2^30 bytes or longer, or a count does not fit in 32 bits.
    PayloadLong,
    // 12: some rectangle of a list is unsound.
    RectangleUnsound,
}

impl Refusal {
    // Its number.
    pub fn number(self) -> u32
        ensures { result ≡ number_of self }
    {
        match self {
            Refusal::PictureShort => 1,
            Refusal::PixelsShort => 2,
            Refusal::StrideNarrow => 3,
            Refusal::ViewShort => 4,
            Refusal::PictureLarge => 5,
            Refusal::OutputShort => 6,
            Refusal::ListUneven => 7,
            Refusal::KindUnknown => 8,
            Refusal::PayloadShort => 9,
            Refusal::StreamShort => 10,
            Refusal::PayloadLong => 11,
            Refusal::RectangleUnsound => 12,
        }
    }
}

// The number of what was found: 0 where it is Ok.
pub fn number<T: Copy>(found: Result<T, Refusal>) -> u32
    ensures { result ≡ number_in found }
{
    match found {
        Ok(_) => 0,
        Err(refusal) => refusal.number(),
    }
}

impl Answer {
    // What a refused call answers.
    pub fn refused(refusal: Refusal) -> Self
        ensures { result ≡ refused_with refusal }
    {
        Answer {
            number: refusal.number(),
            count: 0,
        }
    }

    // What a call answers that was done, and counted so much.
    pub fn done(count: usize) -> Self
        ensures { result ≡ done_with count }
    {
        Answer { number: 0, count }
    }
}
