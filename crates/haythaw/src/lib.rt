// The exported functions of the library, for C and for Rust: each is one line over a public call of a crate below and
// promises what that call promises, for every input. None asks anything of its caller.
//
// A slice passes as a pointer and an element count. An answer that is a number alone stands for a count that is always 0, and a
// row is its place in the plane that the caller lent, since a slice cannot be returned over this boundary.
#![tactic(auto)]

pub mod avc444_calls; // the AVC444 payload
pub mod colour_calls; // for the runs that compare the port with its original, in no header
pub mod apply_calls; // views into a picture and its map
pub mod strict_calls; // the same, with lists that are refused whole; and why
pub mod to_rgba_calls; // RGBA of a picture and of a view
pub mod limited_calls; // both ways in limited range
pub mod annex_b_calls; // the form of an H.264 payload
pub mod picture_calls; // a 4:4:4 picture and its map, fresh or of RGBA pixels
pub mod split_calls; // both views of a picture
pub mod check_calls; // whether two views are those
pub mod view_calls; // a 4:2:0 view and its rows
