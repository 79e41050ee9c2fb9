// A view with its planes, once they were found to hold it: the calls below the one that was lent them need not ask again.
ghost use Rattle.std.specs.Prelude.{◌≡◌, length, IfOk};
ghost use Rattle.lent.specs.Refused.{number_in};
ghost use Rattle.view.specs.View.{view_number_of, ViewFits};

use crate::View;
use lent::refused::Refusal;

// A 4:2:0 view over three lent planes that hold it (the Rust's Yuv420Frame).
#[derive(Clone, Copy)]
pub struct Frame<'a> {
    pub sizes: View,
    pub y: &'a [u8],
    pub u: &'a [u8],
    pub v: &'a [u8],
    ghost fits: { ViewFits sizes (length y.now) (length u.now) (length v.now) },
}

impl<'a> Frame<'a> {
    // The view of these sizes over these planes, or why they are none (the Rust's Yuv420Frame::new).
    pub fn new(sizes: View, y: &'a [u8], u: &'a [u8], v: &'a [u8]) -> Result<Frame<'a>, Refusal>
        ensures number { number_in result ≡ view_number_of sizes (length y.now) (length u.now) (length v.now) }
        ensures same { IfOk result (λ frame. (frame.sizes ≡ sizes) × (frame.y ≡ y.entry) × (frame.u ≡ u.entry) × (frame.v ≡ v.entry)) }
    {
        crate::check(sizes, y, u, v)?;
        Ok(Frame { sizes, y, u, v })
    }
}
