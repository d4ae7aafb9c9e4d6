//! How a machine treats an instruction that uses a missing item. Not from the standard (profile).

ghost use Rattle.std.specs.Prelude.{◌≡◌};
ghost use Rattle.tt_state.specs.Tolerance as is;

use tt_core::Why;

/// How a machine treats an instruction that uses a missing item. An item is a point, a contour, a zone, a control
/// value or a storage place.
#[derive(Clone, Copy, Debug, PartialEq, Eq)]
pub enum Tolerance {
    /// The instruction is refused.
    Strict,
    /// The instruction is passed over, as established interpreters do.
    Tolerant,
}

impl Tolerance {
    /// Whether the machine is tolerant.
    #[inline(always)]
    pub fn is_tolerant(self) -> bool
        ensures { result ≡ is.is_tolerant self }
    {
        match self {
            Tolerance::Strict => false,
            Tolerance::Tolerant => true,
        }
    }

    /// Whether the machine passes over a refusal: a tolerant one does, where an item is missing.
    pub fn passes_over(self, why: Why) -> bool
        ensures { result ≡ is.passes_over self why }
    {
        match self {
            Tolerance::Strict => false,
            Tolerance::Tolerant => matches!(
                why,
                Why::PointRange
                    | Why::ContourRange
                    | Why::ZoneRange
                    | Why::CvtRange
                    | Why::StorageRange
            ),
        }
    }
}
