// The map of stale colour: one byte for each 2x2 block of the padded picture, row by row (R74). Its size, the smallest writers of it, and how
// many pixels of a rectangle lie in blocks that are not complete.
//
// What its numbers say of the calls that were made is in map_apply and map_law.
#![tactic(auto)]

pub mod boxes; // boxes of blocks are set or turned
pub mod counts; // pixels in blocks that are not complete

ghost use Rattle.std.specs.Prelude.{◌≡◌, ◌≤◌};
ghost use Rattle.map.specs.Map.{across_of, down_of, map_size_of, map_short};

use picture::Size;

// Blocks in a row of the map.
pub fn across(size: Size) -> usize
    ensures { (result ≡ across_of size) × (result ≤ 32768) }
{
    picture::stride(size) / 2
}

// Rows of the map.
pub fn down(size: Size) -> usize
    ensures { (result ≡ down_of size) × (result ≤ 32768) }
{
    picture::rows(size) / 2
}

// Bytes of the map.
pub fn map_size(size: Size) -> usize
    ensures { result ≡ map_size_of size }
{
    down(size) * across(size)
}

// Refusal 1: a map of n bytes is shorter than that.
pub fn map_short(size: Size, n: usize) -> bool
    ensures { result ≡ map_short size n }
{
    lent::too_short(across(size), down(size), n)
}
