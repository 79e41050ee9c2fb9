// The units of an H.264 payload, one after the other: each is a big-endian u32 length and that many bytes.
//
// The cursor is a position by value. A step promises what it finds for every input and wherever the cursor stands (specs/Units.antt), and
// asks nothing of its caller.
ghost use Rattle.std.specs.Prelude.{◌≡◌, ◌+◌, ◌≤◌, ◌<◌, length};
ghost use Rattle.annex_b.specs.Units.{unit_length_of, values_of, step_of};

// The position that moves from unit to unit.
#[derive(Clone, Copy)]
pub struct Cursor {
    pub at: usize,
}

// A whole unit: its bytes are those from start to end, and next is the cursor past it.
#[derive(Clone, Copy)]
pub struct Unit {
    pub start: usize,
    pub end: usize,
    pub next: Cursor,
}

// The length in front of a unit.
#[tactic(auto, unfolding(crate::specs::Units::unit_length_of))]
fn unit_length(s: &[u8], at: usize) -> usize
    requires { at + 4 ≤ length s.now }
    ensures { (result ≡ unit_length_of s.now at) × (result < 4294967296) }
{
    u32::from_be_bytes([s[at], s[at + 1], s[at + 2], s[at + 3]]) as usize
}

impl Cursor {
    pub fn new() -> Self
        ensures { result.at ≡ 0 }
    {
        Cursor { at: 0 }
    }

    // The unit at the cursor, or none: fewer than 4 bytes, or a unit that runs past the end. Each test subtracts from the length, so that
    // no sum wraps, wherever the cursor stands.
    #[tactic(auto, unfolding(crate::specs::Units::step_of, crate::specs::Units::unit_at))]
    pub fn step(self, s: &[u8]) -> Option<Unit>
        ensures { values_of result ≡ step_of s.now self.at }
    {
        if s.len() < 4 || s.len() - 4 < self.at {
            return None;
        }
        let start = self.at + 4;
        let n = unit_length(s, self.at);
        if s.len() - start < n {
            return None;
        }
        let end = start + n;
        Some(Unit {
            start,
            end,
            next: Cursor { at: end },
        })
    }
}
