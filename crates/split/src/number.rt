// Whether a split is refused, the width of its views and the sizes that it answers: what `split` finds from lengths alone, before it writes
// anything.
//
// Promised: the refusals 1, 5 and 6, each given exactly when the table says (specs/Number.antt), and sizes and strides that are those of
// both views, or none in a refusal. No byte is read or written here.
ghost use Rattle.std.specs.Prelude.{◌≡◌, false};
ghost use Rattle.picture.specs.Sizes.{stride_of};
ghost use Rattle.layout.specs.Maps.{wide_of};
ghost use Rattle.lent.specs.Refused.{number_in};
ghost use Rattle.split.specs.Number.{split_layout_of, split_wide_of, too_large, view_short, split_number_of, split_answer_of};
ghost use Rattle.split.specs.Split.{lengths_of, planes};
ghost use Rattle.split.specs.Refused.{refused_with};

use layout::{Layout, Way, WidthRule};
use lent::refused::Refusal;

// What a split answers: the number, and the sizes and strides that both views have; all 0 in a refusal.
// Numbers, and no Result: C is handed it as it is.
#[repr(C)]
#[derive(Clone, Copy)]
pub struct Views {
    pub number: u32,
    pub width: u16,
    pub height: u16,
    pub luma_stride: usize,
    pub chroma_stride: usize,
}

impl Views {
    // The answer of a refused split.
    pub fn refused(refusal: Refusal) -> Self
        ensures { result ≡ refused_with refusal }
    {
        Views {
            number: refusal.number(),
            width: 0,
            height: 0,
            luma_stride: 0,
            chroma_stride: 0,
        }
    }

    // The sizes and strides of both views of a picture that splits.
    pub fn of(way: Way, size: picture::Size) -> Self
        requires { too_large (split_wide_of way size) size ≡ false }
        ensures { result ≡ split_answer_of way size 0 }
    {
        let wide = view_width(way, size);
        let rows = picture::rows(size);
        Views {
            number: 0,
            width: wide as u16,
            height: rows as u16,
            luma_stride: wide,
            chroma_stride: wide / 2,
        }
    }
}

// The lengths of three planes.
#[derive(Clone, Copy)]
pub struct PlaneLengths {
    pub y: usize,
    pub u: usize,
    pub v: usize,
}

impl PlaneLengths {
    // Those of the planes that are lent.
    pub fn of(y: &[u8], u: &[u8], v: &[u8]) -> Self
        ensures { result ≡ lengths_of (planes y.now u.now v.now) }
    {
        PlaneLengths {
            y: y.len(),
            u: u.len(),
            v: v.len(),
        }
    }
}

// V2's W for the views of a split. By the 16 rule it is the stride, which is a multiple of 16 already.
fn split_width(rule: WidthRule, size: picture::Size) -> usize
    ensures { result ≡ wide_of rule size.width (stride_of size) }
{
    match rule {
        WidthRule::To16 => picture::stride(size),
        WidthRule::To32 => layout::round_up_32(size.width),
    }
}

// The layout in which a picture that is sent this way is split.
pub fn split_layout(way: Way, size: picture::Size) -> Layout
    ensures { result ≡ split_layout_of way size }
{
    match way {
        Way::AsV1 => Layout::V1,
        Way::AsV2(rule) => Layout::V2(split_width(rule, size)),
    }
}

// How wide both views are.
pub fn view_width(way: Way, size: picture::Size) -> usize
    ensures { result ≡ split_wide_of way size }
{
    match way {
        Way::AsV1 => picture::stride(size),
        Way::AsV2(rule) => split_width(rule, size),
    }
}

// Refusal 5: stride or rows is above 65,535, or the views' width is.
#[tactic(auto, unfolding(crate::specs::Number::too_large))]
pub fn too_large(wide: usize, size: picture::Size) -> bool
    ensures { result ≡ too_large wide size }
{
    65535 < picture::stride(size) || 65535 < picture::rows(size) || 65535 < wide
}

// Refusal 6, of one view: a plane is shorter than what would be written.
#[tactic(auto, unfolding(crate::specs::Number::view_short))]
fn view_short(wide: usize, size: picture::Size, n: PlaneLengths) -> bool
    ensures { result ≡ view_short wide size n }
{
    let rows = picture::rows(size);
    lent::too_short(wide, rows, n.y)
        || lent::too_short(wide / 2, rows / 2, n.u)
        || lent::too_short(wide / 2, rows / 2, n.v)
}

// Whether a picture with planes of these lengths splits into views with planes of these lengths, or why not.
#[tactic(auto, unfolding(crate::specs::Number::split_number_of))]
pub fn check(
    way: Way,
    size: picture::Size,
    from: PlaneLengths,
    main: PlaneLengths,
    auxiliary: PlaneLengths,
) -> Result<(), Refusal>
    ensures { number_in result ≡ split_number_of way size from main auxiliary }
{
    if picture::planes_short(size, from.y, from.u, from.v) {
        return Err(Refusal::PictureShort);
    }
    let wide = view_width(way, size);
    if too_large(wide, size) {
        return Err(Refusal::PictureLarge);
    }
    if view_short(wide, size, main) || view_short(wide, size, auxiliary) {
        return Err(Refusal::OutputShort);
    }
    Ok(())
}
