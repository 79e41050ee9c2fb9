// What an auxiliary view gives to one row of a chroma plane: the words that `v1` and `v2` state their promises with
// (specs/Rows.antt), and the laws that both lean on.
#![tactic(auto)]

ghost use Rattle.std.specs.Prelude.{◌≤◌, length, MatchOption};
ghost use Rattle.view.specs.View.{PlaneFits};
ghost use Rattle.apply_auxiliary_rows.specs.Rows.{IsRow};

use view::Plane;

pub mod v1; // a row of layout V1
pub mod v2; // a row of layout V2

// Row `row` of a plane of the view, where the plane has it.
fn plane_row<'a>(plane: &'a [u8], p: Plane, row: usize) -> Option<&'a [u8]>
    requires { PlaneFits p (length plane.now) }
    ensures { MatchOption result (p.height ≤ row) (λ line. IsRow p plane.now row line.now) }
{
    let at = view::row_start(plane.len(), p.stride, p.height, row)?;
    Some(&plane[at..at + p.width])
}
