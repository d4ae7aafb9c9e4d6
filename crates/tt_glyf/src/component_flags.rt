//! The flags of a component record. OpenType, "The 'glyf' table", "Component Glyph Flags".

ghost use Rattle.std.specs.Prelude.{◌≡◌};
ghost use Rattle.tt_glyf.specs.Format.{has};

use bitflags::{Flag, Flags, bitflag_items};

/// The flags of a component. OpenType, "Composite Glyph Description".
#[derive(Clone, Copy, Debug, PartialEq, Eq)]
pub struct ComponentFlags(u16);

bitflag_items! {
    impl ComponentFlags: u16 {
        const ARG_1_AND_2_ARE_WORDS = 0x1;
        const ARGS_ARE_XY_VALUES = 0x2;
        const ROUND_XY_TO_GRID = 0x4;
        const WE_HAVE_A_SCALE = 0x8;
        const MORE_COMPONENTS = 0x20;
        const WE_HAVE_AN_X_AND_Y_SCALE = 0x40;
        const WE_HAVE_A_TWO_BY_TWO = 0x80;
        const WE_HAVE_INSTRUCTIONS = 0x100;
        const USE_MY_METRICS = 0x200;
        const SCALED_COMPONENT_OFFSET = 0x800;
        const UNSCALED_COMPONENT_OFFSET = 0x1000;
    }
}

impl Flags for ComponentFlags {
    ghost use Rattle.std.specs.Prelude.{⊤};
    ghost use Rattle.tt_glyf.specs.Format.{component_flags};

    type Bits = u16;

    ghost exact = { ⊤ };

    ghost table = { component_flags };

    ghost set_of = { λ f. f.0 };

    fn flags<'a>() -> &'a [Flag<ComponentFlags>] {
        ComponentFlags::FLAGS
    }

    fn bits(&self) -> u16 {
        self.0
    }

    fn from_bits_retain(bits: u16) -> ComponentFlags {
        ComponentFlags(bits)
    }
}

/// Whether a record's flags include a component flag.
pub(crate) fn has_flag(flags: u16, flag: ComponentFlags) -> bool
    ensures { result ≡ has flags flag.0 }
{
    ComponentFlags::from_bits_retain(flags).contains(flag)
}
