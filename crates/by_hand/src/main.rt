// The numbers worked by hand that are not marked P (docs/RULES.md, R131 to R134): each is run through the public functions, and the file
// `stdout` beside src/ was written by hand from the rules.
#![tactic(auto)]

ghost use Rattle.std.specs.Prelude.{◌≡◌, ◌≤◌, ◌<◌, length};

use layout::{Way, WidthRule};
use picture::Size;
use std::io;
use std::io::Print;
use view::View;

// A line `filter a s t applied` or `filter a s t kept`: the sum s is that of the samples p, q and r.
fn filter(rt: &impl Print, a: u8, p: u8, q: u8, r: u8) -> io::Result<()> {
    let sum = u16::from(p) + u16::from(q) + u16::from(r);
    let samples = [a, p, q, r];
    let undone = colour::filter(colour::Block { samples });
    let how = if undone.applied { "applied" } else { "kept" };
    println!(rt; "filter {a} {sum} {} {how}", undone.value)
}

// The bytes of s in hexadecimal, each with a space in front.
fn bytes(rt: &impl Print, s: &[u8]) -> io::Result<()> {
    for b in s {
        print!(rt; " {b:02x}")?;
    }
    Ok(())
}

// The form of a payload, in words.
fn form(data: &[u8]) -> &'static str {
    if annex_b::is_avc_format(data) {
        "length-prefixed"
    } else {
        "Annex B"
    }
}

// A line `payload bytes: form,` and the bytes that the conversion writes.
fn unit(rt: &impl Print, data: &[u8]) -> io::Result<()> {
    let mut out = [0u8; 6];
    let answer = annex_b::avc_to_annex_b_into(data, &mut out);
    print!(rt; "payload")?;
    bytes(rt, data)?;
    print!(rt; ": {},", form(data))?;
    if answer.count == 6 {
        bytes(rt, &out)?;
    }
    println!(rt)
}

// A line on a payload of one unit of n bytes.
fn first_unit(rt: &impl Print, n: usize) -> io::Result<()>
    requires { (256 ≤ n) × (n < 512) }
{
    let mut data = [0u8; 515];
    data[2] = 1;
    data[3] = (n % 256) as u8;
    println!(rt; "payload first unit of {n} bytes: {}", form(&data[..4 + n]))
}

// The places of s that are not 0, each with a space in front.
fn places(rt: &impl Print, s: &[u8]) -> io::Result<()> {
    for (i, x) in s.iter().enumerate() {
        if *x != 0 {
            print!(rt; " {i}")?;
        }
    }
    Ok(())
}

// The rows, of 16 bytes each, whose column `col` is not 0, each with a space in front.
fn rows(rt: &impl Print, plane: &[u8], col: usize) -> io::Result<()>
    requires plane_len { length plane.now ≡ 256 }
    requires col_bound { col < 16 }
{
    for row in 0..16 {
        if plane[16 * row + col] != 0 {
            print!(rt; " {row}")?;
        }
    }
    Ok(())
}

// A main view of 16x16 ones goes into a 5x5 picture of zeros over one rectangle: the luma columns of row 0, and the luma and chroma rows
// of column `col`.
fn rectangle(rt: &impl Print, rect: &[u16], col: usize) -> io::Result<()>
    requires { col < 16 }
{
    let mut y = [0u8; 256];
    let mut u = [0u8; 256];
    let mut v = [0u8; 256];
    let size = Size {
        width: 5,
        height: 5,
    };
    let w = View {
        width: 16,
        height: 16,
        luma_stride: 16,
        chroma_stride: 8,
    };
    let luma = [1u8; 256];
    let chroma = [1u8; 64];
    apply_main::apply_main_view(
        size, &mut y, &mut u, &mut v, rect, w, &luma, &chroma, &chroma,
    );
    print!(rt; "luma columns")?;
    places(rt, &y[0..16])?;
    print!(rt; ", luma rows")?;
    rows(rt, &y, col)?;
    print!(rt; ", chroma rows")?;
    rows(rt, &u, col)?;
    println!(rt)
}

// An auxiliary view of 16x12 ones, layout V1, goes into a picture of zeros as large, one rectangle covering it: the rows of column 1.
fn v1_16x12(rt: &impl Print) -> io::Result<()> {
    let mut y = [0u8; 256];
    let mut u = [0u8; 256];
    let mut v = [0u8; 256];
    let size = Size {
        width: 16,
        height: 12,
    };
    let w = View {
        width: 16,
        height: 12,
        luma_stride: 16,
        chroma_stride: 8,
    };
    let luma = [1u8; 192];
    let chroma = [1u8; 48];
    let rect = [0u16, 0, 16, 12];
    apply_auxiliary::apply_auxiliary_view(
        layout::Layout::V1,
        size,
        &mut y,
        &mut u,
        &mut v,
        &rect,
        w,
        &luma,
        &chroma,
        &chroma,
    );
    print!(rt; "V1, view 16x12: U rows")?;
    rows(rt, &u, 1)?;
    print!(rt; ", V rows")?;
    rows(rt, &v, 1)?;
    println!(rt)
}

// An auxiliary view of ones, layout V2, goes by a rule of its width into a picture of zeros as large, 4 high and at most 48 wide, one
// rectangle covering it: the columns of row 0.
fn v2_columns(rt: &impl Print, title: &str, rule: WidthRule, width: u16) -> io::Result<()>
    requires { width ≤ 48 }
{
    let mut y = [0u8; 768];
    let mut u = [0u8; 768];
    let mut v = [0u8; 768];
    let w = View {
        width,
        height: 4,
        luma_stride: 48,
        chroma_stride: 24,
    };
    let luma = [1u8; 192];
    let chroma = [1u8; 48];
    let rect = [0u16, 0, width, 4];
    apply_auxiliary::apply_auxiliary_view(
        layout::layout_of(Way::AsV2(rule), width, width),
        Size { width, height: 4 },
        &mut y,
        &mut u,
        &mut v,
        &rect,
        w,
        &luma,
        &chroma,
        &chroma,
    );
    print!(rt; "{title}: U columns")?;
    places(rt, &u[0..lent::round_up_16(width)])?;
    print!(rt; ", V columns")?;
    places(rt, &v[0..lent::round_up_16(width)])?;
    println!(rt)
}

fn main(rt: HostRuntime) -> io::Result<()> {
    filter(&rt, 30, 40, 40, 40)?;
    filter(&rt, 225, 100, 100, 100)?;
    filter(&rt, 226, 100, 100, 100)?;
    filter(&rt, 90, 90, 90, 90)?;
    unit(&rt, &[0, 0, 0, 2, 0x67, 0x42])?;
    first_unit(&rt, 256)?;
    first_unit(&rt, 511)?;
    print!(rt; "rectangle 3 0 5 2: ")?;
    rectangle(&rt, &[3, 0, 5, 2], 3)?;
    print!(rt; "rectangle 0 0 2 6: ")?;
    rectangle(&rt, &[0, 0, 2, 6], 0)?;
    v1_16x12(&rt)?;
    v2_columns(&rt, "V2, view width 20", WidthRule::To16, 20)?;
    v2_columns(
        &rt,
        "V2, view width 48, by the 32 rule",
        WidthRule::To32,
        48,
    )?;
    Ok(())
}
