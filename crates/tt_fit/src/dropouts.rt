//! The rules for filling a glyph's dropouts.

ghost use Rattle.std.specs.Prelude.{◌≡◌};
ghost use Rattle.tt_fit.specs.Dropouts.{type_rules, scan_rules, program_rules};
ghost use Rattle.tt_fit_hinting.specs.Views.{hinting_view};

use tt_fit_hinting::Hinting;
use tt_state::ScanControl;

/// Which dropouts are filled, and with which pixel.
#[derive(Clone, Copy, Debug, PartialEq, Eq)]
pub struct DropoutRules {
    /// Whether dropouts at stubs are filled too.
    pub stubs: bool,
    /// Whether the nearer pixel is filled.
    pub smart: bool,
    /// Whether dots are drawn: small contours of a glyph for which no program was run.
    pub dots: bool,
}

/// The source of a glyph's dropout rules.
#[derive(Clone, Copy)]
pub enum DropoutsBy {
    /// No dropouts are filled.
    Nobody,
    /// The scan control of the font's programs; scan type 1 where hinting is off.
    Programs,
}

impl DropoutRules {
    /// The rules of scan type 1, with dots: those of a glyph whose hinting is off.
    pub(crate) const DEFAULT: DropoutRules = DropoutRules {
        stubs: false,
        smart: false,
        dots: true,
    };
}

/// The rules of a scan type; None where this type fills no dropouts.
fn type_rules(scan_type: u16, dots: bool) -> Option<DropoutRules>
    ensures { result ≡ type_rules dots scan_type }
{
    match scan_type {
        0 => Some(DropoutRules {
            stubs: true,
            smart: false,
            dots,
        }),
        1 => Some(DropoutRules {
            stubs: false,
            smart: false,
            dots,
        }),
        4 => Some(DropoutRules {
            stubs: true,
            smart: true,
            dots,
        }),
        5 => Some(DropoutRules {
            stubs: false,
            smart: true,
            dots,
        }),
        _ => None,
    }
}

fn scan_rules(scan: ScanControl, dots: bool) -> Option<DropoutRules>
    ensures { result ≡ scan_rules dots scan }
{
    if scan.on {
        type_rules(scan.scan_type, dots)
    } else {
        None
    }
}

/// The rules by the scan control of the glyph's last program, or, where none was run, by that of the control value
/// program. Scan type 1 where hinting is off. Dots are drawn where none was run.
pub(crate) fn program_rules(hinting: &Hinting, scan: Option<ScanControl>) -> Option<DropoutRules>
    ensures { result ≡ program_rules (hinting_view hinting.now) scan }
{
    match hinting {
        Hinting::Off => Some(DropoutRules::DEFAULT),
        Hinting::Ready(parts) => match scan {
            Some(left) => scan_rules(left, false),
            None => scan_rules(parts.state.scan, true),
        },
    }
}
