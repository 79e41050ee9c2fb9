// The padding of a plane before the averages: as in a fresh picture, or filled with the picture's nearest sample.
//
// A picture that is 5 pixels wide has no sixth column, and its last blocks average what stands there: padding of 128 washes their colour.
// `fill_edge` copies the last column of the picture into the padding right of it, then the last row, which is whole by then, into the
// rows below. `put_edge` promises every byte of the plane by either rule, as `edged` of specs/Edges.antt says, and nothing after it.
ghost use Rattle.std.specs.Prelude.{◌≡◌, ◌+◌, ◌-◌, ◌*◌, ◌≤◌, ◌<◌, length, get_or};
ghost use Rattle.lent.specs.Paint.{paint, painted, whole, within};
ghost use Rattle.lent.specs.Samples.{sample};
ghost use Rattle.lent.specs.Sizes.{round_up};
ghost use Rattle.from_rgba.specs.Edges.{filled, edged, past_column, past_row};

// What the padding holds when the averages are made: what a fresh picture has there, as in the Rust, or the nearest sample of the picture.
#[derive(Clone, Copy)]
pub enum Edge {
    Fresh,
    Filled,
}

// Each row of the picture holds its last sample up to the stride.
fn fill_columns(plane: &mut [u8], width: u16, height: u16)
    requires width_in_bounds { round_up 16 height * round_up 16 width ≤ length plane.old }
    requires width_nonzero { 0 < width }
    ensures { plane.new ≡ painted (round_up 16 width) (round_up 16 height) (past_column width height)
        (λ r c. sample plane.old (round_up 16 width) r (width - 1)) plane.old }
{
    let stride = lent::round_up_16(width);
    let n = width as usize;
    let m = height as usize;
    for row in 0..m {
        let line = row * stride;
        let last = plane[line + n - 1];
        lent::fill(&mut plane[line + n..line + stride], last);
    }
}

// The n bytes from `to` on become those from `from` on, which are all before them.
fn copy_down(plane: &mut [u8], from: usize, to: usize, n: usize)
    requires n_bound { from + n ≤ to }
    requires n_in_bounds { to + n ≤ length plane.old }
    ensures { plane.new ≡ paint (within to (to + n)) (λ k. get_or plane.old (from + (k - to)) 0)
        plane.old }
{
    for i in 0..n {
        plane[to + i] = plane[from + i];
    }
}

// The rows below the picture hold its last row.
fn fill_rows(plane: &mut [u8], width: u16, height: u16)
    requires width_in_bounds { round_up 16 height * round_up 16 width ≤ length plane.old }
    requires height_nonzero { 0 < height }
    ensures { plane.new ≡ painted (round_up 16 width) (round_up 16 height) (past_row height)
        (λ r c. sample plane.old (round_up 16 width) (height - 1) c) plane.old }
{
    let stride = lent::round_up_16(width);
    let rows = lent::round_up_16(height);
    let last = (height as usize - 1) * stride;
    for row in height as usize..rows {
        copy_down(plane, last, row * stride, stride);
    }
}

// The last column of the picture, then its last row, into the padding. A picture with a side of 0 has no plane to fill.
fn fill_edge(plane: &mut [u8], width: u16, height: u16)
    requires { round_up 16 height * round_up 16 width ≤ length plane.old }
    ensures { plane.new ≡ painted (round_up 16 width) (round_up 16 height) whole
        (filled width height (sample plane.old (round_up 16 width))) plane.old }
{
    if width == 0 {
        return;
    }
    if height == 0 {
        return;
    }
    fill_columns(plane, width, height);
    fill_rows(plane, width, height);
}

// The plane, its padding by the edge rule.
pub fn put_edge(edge: Edge, plane: &mut [u8], width: u16, height: u16)
    requires { round_up 16 height * round_up 16 width ≤ length plane.old }
    ensures { plane.new ≡ painted (round_up 16 width) (round_up 16 height) whole
        (edged edge width height (sample plane.old (round_up 16 width))) plane.old }
{
    match edge {
        Edge::Fresh => {}
        Edge::Filled => fill_edge(plane, width, height),
    }
}
