// The calls that no exported function reaches, run: rows and parts as the caller's own bytes, a payload written and read and one read and
// written, and both layouts onto two earlier pictures. Every sample and every byte of a part is a letter, so a part is printed as it stands,
// between brackets.
// The file `stdout` beside src/ was written by hand from the rules (docs/RULES.md).
#![tactic(auto)]

ghost use Rattle.std.specs.Prelude.{◌*◌, ◌≤◌, length};

use layout::{Way, WidthRule};
use picture::Size;
use std::io::Print;
use std::{fmt, io};
use view::View;
use wire_read::parts;
use wire_read::parts::Which;
use wire_write::StreamInput;

// Bytes as they are printed, between brackets: each is a letter, or a number below 10, which the calls set in a map.
#[derive(Clone, Copy)]
struct Part<'a>(&'a [u8]);

impl fmt::Display for Part<'_> {
    fn fmt<W: fmt::Write>(&self, f: &mut fmt::Formatter<W>) -> fmt::Result {
        f.write_char('[')?;
        for b in self.0 {
            f.write_char(char::from(if *b < 10 { *b + b'0' } else { *b }))?;
        }
        f.write_char(']')
    }
}

// A row of each plane of a view of 3x3 whose rows have one byte of padding: the number beside it, and the row.
fn rows(rt: &impl Print, luma_stride: usize, y: &[u8], row: usize) -> io::Result<()> {
    let w = View {
        width: 3,
        height: 3,
        luma_stride,
        chroma_stride: 3,
    };
    let u = b"jk.lm.";
    let v = b"no.pq.";
    println!(rt;
        "rows {row}: {} luma {}, U {}, V {}",
        view::rows::luma_row_answer(w, y, u, v, row).number,
        Part(view::rows::luma_row(w, y, u, v, row)),
        Part(view::rows::u_row(w, y, u, v, row)),
        Part(view::rows::v_row(w, y, u, v, row))
    )
}

// The parts of one stream of a payload, and the number beside them.
fn stream(rt: &impl Print, name: &str, payload: &[u8], which: Which) -> io::Result<()> {
    println!(rt;
        "{name}: {} rectangles {}, pairs {}, H.264 {}",
        parts::number(payload),
        Part(parts::rects(payload, which)),
        Part(parts::pairs(payload, which)),
        Part(parts::h264(payload, which))
    )
}

fn streams(rt: &impl Print, payload: &[u8]) -> io::Result<()> {
    stream(rt, "luma", payload, Which::Luma)?;
    stream(rt, "chroma", payload, Which::Chroma)
}

// A payload of one luma rectangle and no chroma one is written into out and read: its number, and where the chroma's H.264 bytes stand.
fn write_read(rt: &impl Print, kind: u32, out: &mut [u8]) -> io::Result<()> {
    let luma = StreamInput {
        rects: &[0x4141, 0x4242, 0x4343, 0x4444],
        pairs: b"QY",
        data: b"luma",
    };
    let chroma = StreamInput {
        rects: &[],
        pairs: b"",
        data: b"chroma",
    };
    let read = wire_back::write_read(kind, luma, chroma, out);
    println!(rt;
        "written and read: {}, chroma at {}, {} bytes",
        read.number, read.chroma.data, read.chroma.length
    )
}

// A payload is read and written into out, by way of a list of one rectangle for each stream: its number, the bytes written, and the first
// number of each list.
fn read_write(rt: &impl Print, payload: &[u8], out: &mut [u8]) -> io::Result<()> {
    let mut luma = [0u16; 4];
    let mut chroma = [0u16; 4];
    let answer = wire_back::read_write(payload, &mut luma, &mut chroma, out);
    println!(rt;
        "read and written: {}, {} bytes, lists {} and {}",
        answer.number, answer.count, luma[0], chroma[0]
    )
}

// The first three rows of a plane or a map of so many columns.
fn rows_of(rt: &impl Print, name: &str, s: &[u8], columns: usize) -> io::Result<()>
    requires { 3 * columns ≤ length s.now }
{
    println!(rt;
        "{name}: {} {} {}",
        Part(&s[..columns]),
        Part(&s[columns..2 * columns]),
        Part(&s[2 * columns..3 * columns])
    )
}

// A 5x5 picture of Y, U and V goes as V1 onto one earlier picture of dots, whose map is dots too, and as V2, by a rule, onto another, over a
// list.
fn both(rt: &impl Print, title: &str, rule: WidthRule, rects: &[u16]) -> io::Result<()> {
    let y = [b'Y'; 256];
    let u = [b'U'; 256];
    let v = [b'V'; 256];
    let mut main_y = [b'.'; 512];
    let mut main_u = [b'.'; 128];
    let mut main_v = [b'.'; 128];
    let mut auxiliary_y = [b'.'; 512];
    let mut auxiliary_u = [b'.'; 128];
    let mut auxiliary_v = [b'.'; 128];
    let mut first_y = [b'.'; 256];
    let mut first_u = [b'.'; 256];
    let mut first_v = [b'.'; 256];
    let mut first_map = [b'.'; 64];
    let mut second_y = [b'.'; 256];
    let mut second_u = [b'.'; 256];
    let mut second_v = [b'.'; 256];
    let mut second_map = [b'.'; 64];
    let answer = agree::both(
        Way::AsV1,
        Way::AsV2(rule),
        Size {
            width: 5,
            height: 5,
        },
        &y,
        &u,
        &v,
        rects,
        &mut main_y,
        &mut main_u,
        &mut main_v,
        &mut auxiliary_y,
        &mut auxiliary_u,
        &mut auxiliary_v,
        &mut first_y,
        &mut first_u,
        &mut first_v,
        &mut first_map,
        &mut second_y,
        &mut second_u,
        &mut second_v,
        &mut second_map,
    );
    println!(rt; "{title}: {}", answer.number)?;
    rows_of(rt, "V1, Y", &first_y, 16)?;
    rows_of(rt, "V1, U", &first_u, 16)?;
    rows_of(rt, "V1, V", &first_v, 16)?;
    rows_of(rt, "V1, map", &first_map, 8)?;
    rows_of(rt, "V2, Y", &second_y, 16)?;
    rows_of(rt, "V2, U", &second_u, 16)?;
    rows_of(rt, "V2, V", &second_v, 16)?;
    rows_of(rt, "V2, map", &second_map, 8)
}

fn main(rt: HostRuntime) -> io::Result<()> {
    rows(&rt, 4, b"abc.def.ghi.", 1)?;
    rows(&rt, 4, b"abc.def.ghi.", 2)?;
    rows(&rt, 4, b"abc.def.ghi.", 3)?;
    rows(&rt, 2, b"abc.def.ghi.", 1)?;
    rows(&rt, 4, b"abc.def.ghi", 1)?;
    streams(
        &rt,
        b"\x12\x00\x00\x00\x01\x00\x00\x00LLTTRRBBQYluma\x01\x00\x00\x00llttrrbbqychroma",
    )?;
    streams(&rt, b"\x00\x00\x00\x80\x01\x00\x00\x00llttrrbbqychroma")?;
    streams(&rt, b"abc")?;
    streams(&rt, b"abc\xc0")?;
    let mut out = [0u8; 40];
    write_read(&rt, 0, &mut out)?;
    streams(&rt, &out[0..32])?;
    write_read(&rt, 3, &mut out)?;
    write_read(&rt, 0, &mut out[0..31])?;
    let payload = b"\x12\x00\x00\x00\x01\x00\x00\x00LLTTRRBBQYluma\x01\x00\x00\x00llttrrbbqychroma";
    let mut again = [0u8; 50];
    read_write(&rt, payload, &mut again)?;
    streams(&rt, &again[0..42])?;
    read_write(
        &rt,
        b"\x00\x00\x00\x80\x01\x00\x00\x00llttrrbbqychroma",
        &mut again,
    )?;
    streams(&rt, &again[0..24])?;
    read_write(
        &rt,
        b"\x00\x00\x00\x40\x02\x00\x00\x00LLTTRRBBLLTTRRBBQYQY",
        &mut again,
    )?;
    read_write(&rt, b"abc\xc0", &mut again)?;
    read_write(&rt, payload, &mut again[0..41])?;
    both(&rt, "both layouts", WidthRule::To16, &[3, 0, 4, 2])?;
    both(&rt, "both layouts", WidthRule::To16, &[5, 0, 5, 4])?;
    both(&rt, "both layouts", WidthRule::To16, &[3, 0, 4, 2, 9])?;
    both(
        &rt,
        "both layouts, V2 by the 32 rule",
        WidthRule::To32,
        &[3, 0, 4, 2],
    )?;
    Ok(())
}
