// BT.601 of limited range: Y from 16 to 235, U and V from 16 to 240, as video has it. One pixel, there and back.
//
// Promised: each call is total on bytes and answers what the formula of specs/Limited.antt says over the whole numbers, with division rounded
// down. The code has no signed number: each factor above 256 is split, so that every sum is at least 0 and fits 16 bits.
ghost use Rattle.std.specs.Prelude.{◌≡◌, ◌+◌, ◌*◌, ◌-◌, ◌/◌, min};
ghost use Rattle.colour.specs.Limited.{limited_forward_of, limited_reverse_of};

use crate::{Rgba, Yuv, fit};

// As in full range, but for the numbers: they stand in each formula, as the rules print them, since a function over them would be no plainer.
fn luma(r: u8, g: u8, b: u8) -> u8
    ensures { result ≡ (66 * r + 129 * g + 25 * b + 128) / 256 + 16 }
{
    ((66 * u16::from(r) + 129 * u16::from(g) + 25 * u16::from(b) + 128) / 256 + 16) as u8
}

// 32896 is 128 x 256 and the 128 that rounds: with it no sum is below zero, nor any answer above 240.
fn chroma_u(r: u8, g: u8, b: u8) -> u8
    ensures { result ≡ (32896 + 112 * b - (38 * r + 74 * g)) / 256 }
{
    ((32896 + 112 * u16::from(b) - (38 * u16::from(r) + 74 * u16::from(g))) / 256) as u8
}

fn chroma_v(r: u8, g: u8, b: u8) -> u8
    ensures { result ≡ (32896 + 112 * r - (94 * g + 18 * b)) / 256 }
{
    ((32896 + 112 * u16::from(r) - (94 * u16::from(g) + 18 * u16::from(b))) / 256) as u8
}

// Y, U and V of a colour.
pub fn forward(r: u8, g: u8, b: u8) -> Yuv
    ensures { result ≡ limited_forward_of r g b }
{
    let y = luma(r, g, b);
    let u = chroma_u(r, g, b);
    let v = chroma_v(r, g, b);
    Yuv { y, u, v }
}

// 298 = 256 + 42 and 409 = 256 + 153.
fn red(y: u8, v: u8) -> u8
    ensures { result ≡ min (y + v + (42 * y + 153 * v + 96) / 256 - 223) 255 }
{
    fit(
        u16::from(y) + u16::from(v) + (42 * u16::from(y) + 153 * u16::from(v) + 96) / 256,
        223,
    )
}

// 208 = 256 - 48.
fn green(y: u8, u: u8, v: u8) -> u8
    ensures { result ≡ min (y + (42 * y + 48 * v + 34784 - 100 * u) / 256 - v) 255 }
{
    fit(
        u16::from(y) + (42 * u16::from(y) + 48 * u16::from(v) + 34784 - 100 * u16::from(u)) / 256,
        u16::from(v),
    )
}

// 516 = 512 + 4.
fn blue(y: u8, u: u8) -> u8
    ensures { result ≡ min (y + 2 * u + (42 * y + 4 * u + 224) / 256 - 277) 255 }
{
    fit(
        u16::from(y) + 2 * u16::from(u) + (42 * u16::from(y) + 4 * u16::from(u) + 224) / 256,
        277,
    )
}

// The pixel of Y, U and V.
pub fn reverse(y: u8, u: u8, v: u8) -> Rgba
    ensures { result ≡ limited_reverse_of y u v }
{
    let r = red(y, v);
    let g = green(y, u, v);
    let b = blue(y, u);
    [r, g, b, 255]
}
