//! Why a label does not stand in the requested width or box.

ghost use Rattle.std.specs.Prelude.{◌≡◌};
ghost use Rattle.tt_render_texts.specs.TextsMessages.{space_name, space_number};

use thiserror::Error;

/// Why a label does not stand in the requested width or box.
#[derive(Clone, Copy, Debug, PartialEq, Eq, Error)]
pub enum SpaceFault {
    /// The width is outside 1 to 16,384 pixels, or is not more than both margins.
    #[error("the width is out of range")]
    WidthRange,
    /// The box is outside 1 by 1 to 16,384 by 4,096 pixels, or is not more than both margins.
    #[error("the box is out of range")]
    BoxRange,
    /// The text fits into the box at no size.
    #[error("the text fits into the box at no size")]
    BoxSmall,
}

impl SpaceFault {
    /// The number in messages, behind those of the C library.
    pub fn number(self) -> u8
        ensures { result ≡ space_number self }
    {
        match self {
            SpaceFault::WidthRange => 69,
            SpaceFault::BoxRange => 70,
            SpaceFault::BoxSmall => 71,
        }
    }

    /// The name in messages.
    pub fn name(self) -> &'static str
        ensures { result.now ≡ space_name self }
    {
        match self {
            SpaceFault::WidthRange => "WidthRange",
            SpaceFault::BoxRange => "BoxRange",
            SpaceFault::BoxSmall => "BoxSmall",
        }
    }
}
