//! The programs that a way of fitting needs.

ghost use Rattle.std.specs.Prelude.{◌≤◌, length, IfOk, IfErr, OnOk};
ghost use Rattle.tt_core.specs.Directory.{HasNo};
ghost use Rattle.tt_core.specs.Limits.{font_limit};
ghost use Rattle.tt_core.specs.Outcomes.{Gives};
ghost use Rattle.tt_face.specs.Programs.{program_tables};
ghost use Rattle.tt_strike.specs.Defects.{IsProgramTableDefect};
ghost use Rattle.tt_strike.specs.Programs.{programs_in};

use tt_core::Fault;
use tt_face::{Face, Programs};
use tt_fit::Fit;

/// The programs that fit outlines; with `Fit::None` none is read. Error: TableRange.
#[tactic(auto, unfolding(crate::specs::Programs::programs_in))]
pub(crate) fn open_programs<'a>(face: &Face<'a>, fit: Fit) -> Result<Programs<'a>, Fault>
    ensures exact { Gives program_tables result (programs_in face.now fit) }
    ensures fpgm { IfOk result (λ p. length p.fpgm.now ≤ font_limit) }
    ensures prep { IfOk result (λ p. length p.prep.now ≤ font_limit) }
    ensures sound { OnOk result (HasNo (IsProgramTableDefect face.now fit)) }
    ensures fault { IfErr result (IsProgramTableDefect face.now fit) }
{
    match fit {
        Fit::Full | Fit::Fallback | Fit::Best => face.programs(),
        Fit::None => Ok(Programs {
            cvt: &[],
            fpgm: &[],
            prep: &[],
        }),
    }
}
