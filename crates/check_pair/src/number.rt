// Whether a check is refused, found from sizes and lengths alone: with the picture's refusals, which are a split's 1 and 5, then 3 and 4 of
// the main view, then 3 and 4 of the auxiliary one. And whether a view has the sizes of the split's.
ghost use Rattle.std.specs.Prelude.{◌≡◌, IfOk};
ghost use Rattle.lent.specs.Refused.{number_in};
ghost use Rattle.view.specs.Over.{Over};
ghost use Rattle.split.specs.Split.{lengths_of, planes};
ghost use Rattle.check_pair.specs.Number.{check_number_of, sizes_agree};

use layout::Way;
use lent::refused::Refusal;
use picture::Size;
use view::View;
use view::frame::Frame;

// Both views over their planes, or why the check is refused: with 1, 5, 3 or 4.
#[tactic(auto, unfolding(crate::specs::Number::check_number_of, view::specs::View::view_number_of))]
pub fn check<'a>(
    way: Way,
    size: Size,
    y: &[u8],
    u: &[u8],
    v: &[u8],
    main: View,
    main_y: &'a [u8],
    main_u: &'a [u8],
    main_v: &'a [u8],
    auxiliary: View,
    auxiliary_y: &'a [u8],
    auxiliary_u: &'a [u8],
    auxiliary_v: &'a [u8],
) -> Result<(Frame<'a>, Frame<'a>), Refusal>
    ensures number { number_in result ≡ check_number_of way size (lengths_of (planes y.now u.now v.now))
        main (lengths_of (planes main_y.now main_u.now main_v.now))
        auxiliary (lengths_of (planes auxiliary_y.now auxiliary_u.now auxiliary_v.now)) }
    ensures over { IfOk result (λ frames. Over frames.0 main main_y.entry main_u.entry main_v.entry
        × Over frames.1 auxiliary auxiliary_y.entry auxiliary_u.entry auxiliary_v.entry) }
{
    if picture::planes_short(size, y.len(), u.len(), v.len()) {
        return Err(Refusal::PictureShort);
    }
    if split::number::too_large(split::number::view_width(way, size), size) {
        return Err(Refusal::PictureLarge);
    }
    let first = Frame::new(main, main_y, main_u, main_v)?;
    let second = Frame::new(auxiliary, auxiliary_y, auxiliary_u, auxiliary_v)?;
    Ok((first, second))
}

// Whether a view has the width and the height of the split's.
#[tactic(auto, unfolding(crate::specs::Number::sizes_agree))]
pub fn sizes_agree(way: Way, size: Size, w: View) -> bool
    ensures { result ≡ sizes_agree way size w }
{
    w.width as usize == split::number::view_width(way, size)
        && w.height as usize == picture::rows(size)
}
