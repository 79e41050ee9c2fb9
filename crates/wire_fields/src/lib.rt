// The numbers of an AVC444 payload: little-endian ones, and the fields inside a number, which are taken out by shifts and masks and go
// back the same way. specs/Fields.antt says by arithmetic what they are.
#![tactic(auto)]

pub mod kinds; // which streams a payload carries

ghost use Rattle.std.specs.Prelude.{◌≡◌, ◌+◌, ◌≤◌, length};
ghost use Rattle.wire_fields.specs.Fields.{u16_at, u32_at, u16_bytes, u32_bytes, size_in, kind_in, info_of, quantiser_in, quantiser_byte_of};

// What a quantiser byte holds: six bits of value and two flags. The Rust's QuantQuality has no place for the first of them.
#[derive(Clone, Copy)]
pub struct Quantiser {
    pub value: u8,
    pub reserved: bool,
    pub progressive: bool,
}

#[tactic(auto, unfolding(crate::specs::Fields::u16_at))]
pub fn u16_at(s: &[u8], at: usize) -> u16
    requires { at + 2 ≤ length s.now }
    ensures { result ≡ u16_at s.now at }
{
    u16::from_le_bytes([s[at], s[at + 1]])
}

#[tactic(auto, unfolding(crate::specs::Fields::u32_at))]
pub fn u32_at(s: &[u8], at: usize) -> u32
    requires { at + 4 ≤ length s.now }
    ensures { result ≡ u32_at s.now at }
{
    u32::from_le_bytes([s[at], s[at + 1], s[at + 2], s[at + 3]])
}

// dst becomes a number's two bytes.
#[tactic(auto, unfolding(crate::specs::Fields::u16_bytes))]
pub fn put_u16(dst: &mut [u8], n: u16)
    requires { length dst.old ≡ 2 }
    ensures { dst.new ≡ u16_bytes n }
{
    dst.copy_from_slice(&n.to_le_bytes()); // the lower byte first
}

// dst becomes a number's four bytes.
#[tactic(auto, unfolding(crate::specs::Fields::u32_bytes))]
pub fn put_u32(dst: &mut [u8], n: u32)
    requires { length dst.old ≡ 4 }
    ensures { dst.new ≡ u32_bytes n }
{
    dst.copy_from_slice(&n.to_le_bytes()); // the lowest byte first
}

// The first stream's size: the low 30 bits.
pub fn size(info: u32) -> u32
    ensures { result ≡ size_in info }
{
    info & 0x3fff_ffff
}

// What is carried: the top two bits.
pub fn kind(info: u32) -> u32
    ensures { result ≡ kind_in info }
{
    info >> 30
}

// Both put back.
pub fn info(kind: u32, size: u32) -> u32
    ensures { result ≡ info_of kind size }
{
    (kind & 3) << 30 | (size & 0x3fff_ffff)
}

pub fn quantiser_in(b: u8) -> Quantiser
    ensures { result ≡ quantiser_in b }
{
    Quantiser {
        value: b & 0x3f,
        reserved: (b >> 6) & 1 == 1,
        progressive: b >> 7 == 1,
    }
}

// The quantiser byte put back.
pub fn quantiser_byte(q: Quantiser) -> u8
    ensures { result ≡ quantiser_byte_of q }
{
    u8::from(q.progressive) << 7 | u8::from(q.reserved) << 6 | (q.value & 0x3f)
}
