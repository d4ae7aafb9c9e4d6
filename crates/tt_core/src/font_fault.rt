//! Errors of calls that read a font and allocate memory.

ghost use Rattle.std.specs.Prelude.{◌≡◌};
ghost use Rattle.tt_core.specs.declared.font_fault.FontFault.TheVariants.{Font, Memory};

use crate::fault::Fault;
use std::alloc::{AllocError, AllocFailed};

/// Why a call made nothing from a font.
#[derive(Clone, Copy, Debug, PartialEq, Eq)]
pub enum FontFault {
    /// The font has this defect.
    Font(Fault),
    /// Memory ran out.
    Memory,
}

impl From<Fault> for FontFault {
    ghost from_gives = { λ f e. e ≡ Font f };

    fn from(fault: Fault) -> FontFault {
        FontFault::Font(fault)
    }
}

impl From<AllocError> for FontFault {
    ghost from_gives = { λ _ e. e ≡ Memory };

    fn from(_error: AllocError) -> FontFault {
        FontFault::Memory
    }
}

impl<T: Drop> From<AllocFailed<T>> for FontFault {
    ghost from_gives = { λ _ e. e ≡ Memory };

    fn from(_error: AllocFailed<T>) -> FontFault {
        FontFault::Memory
    }
}
