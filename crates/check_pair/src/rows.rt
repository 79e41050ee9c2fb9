// One row of a view beside what the split has there, in either view, either layout and each plane: the first column that is wrong.
//
// What the split has there is said by split_views (specs/Views.antt); each row is all of a row of the picture, part of it, or halves of two.
ghost use Rattle.std.specs.Prelude.{◌≡◌, ◌/◌, ◌%◌, length};
ghost use Rattle.layout.specs.Maps.{PY, view_wide_of};
ghost use Rattle.layout.specs.declared.Layout.TheVariants.{V1, V2};
ghost use Rattle.split_rows.specs.Fits.{WideFits};
ghost use Rattle.split_views.specs.Views.{main_sample, auxiliary_sample};
ghost use Rattle.check_rows.specs.Rows.{first_wrong, step_of};
ghost use Rattle.check_pair.specs.declared.Name.TheVariants.{YPlane};
ghost use Rattle.check_pair.specs.Verdict.{part_of, held_of};
ghost use Rattle.check_pair.specs.Rows.{full_of, halves_of, LineFits, EachPlane, planes_in};

use crate::{Name, Sent, Source};
use check_rows::{Taken, copied_row, taken_row};
use layout::Layout;

// V2: U's samples in the first half of the row, V's in the second.
fn halves(taken: Taken, row: &[u8], from: Source<'_>, line: usize) -> usize
    requires row_len { length row.now % 2 ≡ 0 }
    requires wide_fits { EachPlane from (λ m. WideFits (length row.now / 2) m (step_of taken) from.stride line) }
    ensures { result ≡ first_wrong row.now
        (halves_of taken (length row.now / 2) from.entry.stride from.entry.u.now from.entry.v.now line) }
{
    let n = row.len();
    let half = n / 2;
    let found = taken_row(taken, &row[0..half], from.u, from.stride, line, 128);
    if found < half {
        return found;
    }
    half + taken_row(taken, &row[half..n], from.v, from.stride, line, 128)
}

// A row of the main view.
fn main_row(name: Name, row: &[u8], from: Source<'_>, line: usize) -> usize
    requires { EachPlane from (λ m. LineFits name (length row.now) m from.stride line) }
    ensures { result ≡ first_wrong row.now (main_sample from.entry.stride (planes_in from.entry) (part_of name) line) }
{
    match name {
        Name::YPlane => copied_row(row, from.y, from.stride, line, 0),
        Name::UPlane => taken_row(Taken::Evens, row, from.u, from.stride, 2 * line, 128),
        Name::VPlane => taken_row(Taken::Evens, row, from.v, from.stride, 2 * line, 128),
    }
}

// V1, a luma row: of 16 the first 8 are odd rows of U, the others odd rows of V.
fn v1_luma_row(row: &[u8], from: Source<'_>, line: usize) -> usize
    requires { EachPlane from (λ m. LineFits YPlane (length row.now) m from.stride line) }
    ensures { result ≡ first_wrong row.now (auxiliary_sample V1 from.entry.stride from.entry.u.now from.entry.v.now PY line) }
{
    let within = line % 16;
    let block = line - within;
    if within < 8 {
        copied_row(row, from.u, from.stride, block + 2 * within + 1, 128)
    } else {
        copied_row(row, from.v, from.stride, block + 2 * (within - 8) + 1, 128)
    }
}

// A row of the auxiliary view, V1.
fn v1_row(name: Name, row: &[u8], from: Source<'_>, line: usize) -> usize
    requires { EachPlane from (λ m. LineFits name (length row.now) m from.stride line) }
    ensures { result ≡ first_wrong row.now
        (auxiliary_sample V1 from.entry.stride from.entry.u.now from.entry.v.now (part_of name) line) }
{
    match name {
        Name::YPlane => v1_luma_row(row, from, line),
        Name::UPlane => taken_row(Taken::Odds, row, from.u, from.stride, 2 * line, 128),
        Name::VPlane => taken_row(Taken::Odds, row, from.v, from.stride, 2 * line, 128),
    }
}

// A row of the auxiliary view, V2.
fn v2_row(name: Name, row: &[u8], from: Source<'_>, line: usize) -> usize
    requires { EachPlane from (λ m. LineFits name (length row.now) m from.stride line) }
    ensures { result ≡ first_wrong row.now
        (auxiliary_sample (V2 (full_of name (length row.now))) from.entry.stride from.entry.u.now from.entry.v.now (part_of name) line) }
{
    match name {
        Name::YPlane => halves(Taken::Odds, row, from, line),
        Name::UPlane => halves(Taken::Fourths, row, from, 2 * line + 1),
        Name::VPlane => halves(Taken::Between, row, from, 2 * line + 1),
    }
}

// A row of either view, in either layout.
pub fn held_row(
    sent: Sent,
    layout: Layout,
    name: Name,
    row: &[u8],
    from: Source<'_>,
    line: usize,
) -> usize
    requires line_fits { EachPlane from (λ m. LineFits name (length row.now) m from.stride line) }
    requires row_value { full_of name (length row.now) ≡ view_wide_of layout from.stride }
    ensures { result ≡ first_wrong row.now (held_of sent layout from.entry.stride (planes_in from.entry) (part_of name) line) }
{
    match sent {
        Sent::Main => main_row(name, row, from, line),
        Sent::Auxiliary => match layout {
            Layout::V1 => v1_row(name, row, from, line),
            Layout::V2(_) => v2_row(name, row, from, line),
        },
    }
}
