//! The style of a face. Apple TrueType Reference Manual, "The 'head' table".

ghost use Rattle.std.specs.Prelude.{◌≡◌};
ghost use Rattle.tt_face.specs.Style.{style_of};

use tt_core::{Dir, u16_at};

/// macStyle of head, 0 where head has no such word.
#[tactic(auto, unfolding(crate::specs::Style::style_of))]
pub(crate) fn style_of(dir: &Dir) -> u16
    ensures { result ≡ style_of dir.now }
{
    let Ok(Some(head)) = dir.table(*b"head") else {
        return 0;
    };
    u16_at(head, 44).unwrap_or(0)
}
