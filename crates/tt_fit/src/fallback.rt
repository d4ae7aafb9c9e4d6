//! Which glyphs are unfitted: their points are only scaled, because a program of the font is refused.

ghost use Rattle.std.specs.Prelude.{◌≡◌};
ghost use Rattle.tt_fit.specs.Fallback.{is_program_fault};

use tt_core::Fault;

/// Which glyphs are unfitted, with their points only scaled.
#[derive(Clone, Copy)]
pub(crate) enum Fallback {
    /// None: a fault of a program is the answer.
    Never,
    /// Each glyph whose own program or whose component's program is refused.
    WhereRefused,
    /// Every glyph, for this fault of the font program or the control value program.
    Everywhere(Fault),
}

/// Whether a program is at fault, and not a table of the font.
#[tactic(auto, unfolding(crate::specs::Fallback::is_program_fault))]
pub(crate) fn is_program_fault(fault: Fault) -> bool
    ensures { result ≡ is_program_fault fault }
{
    let number = fault.why.number();
    number <= 50 && 30 <= number
}
