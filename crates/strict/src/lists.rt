// The faults of a rectangle, and a list searched for the first rectangle that has one.
ghost use Rattle.std.specs.Prelude.{◌≡◌, ◌/◌, ◌<◌, length, IfSome};
ghost use Rattle.lent.specs.Counts.{first_where};
ghost use Rattle.strict.specs.Sound.{fault_of, unsound_at, unsound};
ghost use Rattle.strict.specs.Found.{number_of_fault, fault_in, index_in};

use picture::Size;
use rects::Rect;

// What is wrong with a rectangle, in the order in which it is looked for.
#[derive(Clone, Copy, Debug, PartialEq, Eq)]
pub enum Fault {
    // Left is not below right.
    NotWide,
    // Top is not below bottom.
    NotHigh,
    // Right is above the picture's width.
    PastRight,
    // Bottom is above the picture's height.
    PastBottom,
}

impl Fault {
    // Its number in an answer.
    pub fn number(self) -> u8
        ensures { result ≡ number_of_fault self }
    {
        match self {
            Fault::NotWide => 1,
            Fault::NotHigh => 2,
            Fault::PastRight => 3,
            Fault::PastBottom => 4,
        }
    }
}

// The number of what was found of a rectangle: 0 where it is sound.
pub fn number(fault: Option<Fault>) -> u8
    ensures { result ≡ fault_in fault }
{
    match fault {
        Some(fault) => fault.number(),
        None => 0,
    }
}

// The first fault of a rectangle, none where it is sound.
pub fn fault_of(size: Size, rect: Rect) -> Option<Fault>
    ensures { fault_in result ≡ fault_of size rect }
{
    if rect.right <= rect.left {
        return Some(Fault::NotWide);
    }
    if rect.bottom <= rect.top {
        return Some(Fault::NotHigh);
    }
    if size.width < rect.right {
        return Some(Fault::PastRight);
    }
    if size.height < rect.bottom {
        return Some(Fault::PastBottom);
    }
    None
}

// The index of the first unsound rectangle, where there is one.
pub fn first_unsound_index(size: Size, rects: &[u16]) -> Option<usize>
    ensures first { index_in (length rects.now / 4) result ≡ first_where (length rects.now / 4) (unsound_at size rects.now) }
    ensures inside { IfSome result (λ i. i < length rects.now / 4) }
{
    let count = rects.len() / 4;
    for i in 0..count {
        if fault_of(size, rects::rect_at(rects, i)).is_some() {
            return Some(i);
        }
    }
    None
}

// Whether some rectangle of the list is unsound.
pub fn unsound(size: Size, rects: &[u16]) -> bool
    ensures { result ≡ unsound size rects.now }
{
    first_unsound_index(size, rects).is_some()
}
