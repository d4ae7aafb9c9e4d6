//! The box of a font's ink: FONTBOUNDINGBOX.

ghost use Rattle.std.specs.Prelude.{◌≡◌, All, IfSome};
ghost use Rattle.tt_bdf.specs.Extent.{IsLimited, IsNear, box_of, joined, joined_boxes, joined_from};

use crate::character::BdfCharacter;

/// A box by its edges: columns from the pen, and rows above the base line.
#[derive(Clone, Copy)]
pub(crate) struct InkExtent {
    pub(crate) left: i64,
    pub(crate) bottom: i64,
    pub(crate) right: i64,
    pub(crate) top: i64,
}

/// The box of a character's ink, if it has any.
fn box_of(c: BdfCharacter) -> Option<InkExtent>
    requires { IsLimited c }
    ensures exact { result ≡ box_of c }
    ensures near { IfSome result IsNear }
{
    if c.width == 0 {
        return None;
    }
    Some(InkExtent {
        left: i64::from(c.left),
        bottom: i64::from(c.top) - i64::from(c.height),
        right: i64::from(c.left) + i64::from(c.width),
        top: i64::from(c.top),
    })
}

/// The least box that holds two boxes.
fn joined_boxes(a: InkExtent, b: InkExtent) -> InkExtent
    ensures { result ≡ joined_boxes a b }
{
    InkExtent {
        left: a.left.min(b.left),
        bottom: a.bottom.min(b.bottom),
        right: a.right.max(b.right),
        top: a.top.max(b.top),
    }
}

/// The least box that holds two boxes; the other one where one is None.
fn joined(a: Option<InkExtent>, b: Option<InkExtent>) -> Option<InkExtent>
    ensures { result ≡ joined a b }
{
    match (a, b) {
        (Some(a), Some(b)) => Some(joined_boxes(a, b)),
        (Some(a), None) => Some(a),
        (None, b) => b,
    }
}

/// The least box that holds the ink of all characters. None: no character has ink.
pub(crate) fn ink_extent(characters: &[BdfCharacter]) -> Option<InkExtent>
    requires { All IsLimited characters.now }
    ensures exact { result ≡ joined_from None characters.now }
    ensures near { IfSome result IsNear }
{
    let mut all = None;
    for c in characters {
        all = joined(all, box_of(*c));
    }
    all
}
