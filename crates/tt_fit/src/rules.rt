//! The rules of each fit.

ghost use Rattle.std.specs.Prelude.{◌≡◌};
ghost use Rattle.tt_fit.specs.Rules.{rules_of, grid_of, runs_programs, levels_of, work_of, cvt_read, instance_read, dropouts_by};
ghost use Rattle.tt_fit_hinting.specs.state.Instances.{instance_of};

use crate::dropouts::DropoutsBy;
use crate::programs::Fit;
use tt_core::{BEST_LEVEL_LIMIT, LEVEL_LIMIT, WORK_LIMIT};
use tt_face::Programs;
use tt_fit_hinting::{Instance, Work};
use tt_fit_outline::{GridRule, OutlineRules, Scaling};
use tt_state::Tolerance;

/// Bytes of the control values that are read, if the job's work is bounded.
const CVT_BYTES: usize = 2 * 65_535;

pub(crate) fn rules_of(fit: Fit) -> OutlineRules
    ensures { result ≡ rules_of fit }
{
    match fit {
        Fit::Full | Fit::None | Fit::Fallback => OutlineRules {
            whole: false,
            tolerance: Tolerance::Strict,
            scaling: Scaling::Exact,
        },
        Fit::Best => OutlineRules {
            whole: true,
            tolerance: Tolerance::Tolerant,
            scaling: Scaling::Rounded,
        },
    }
}

/// When component offsets and phantom points are rounded to whole pixels.
pub(crate) fn grid_of(fit: Fit) -> GridRule
    ensures { result ≡ grid_of fit }
{
    match fit {
        Fit::Full | Fit::None | Fit::Fallback => GridRule::Always,
        Fit::Best => GridRule::WhereHinted,
    }
}

/// Whether the font's programs are run. With `Fit::Best` glyph programs alone are left over, and are not run.
pub(crate) fn runs_programs(fit: Fit, programs: Programs) -> bool
    ensures { result ≡ runs_programs fit programs.entry.fpgm.now programs.entry.prep.now }
{
    match fit {
        Fit::Full | Fit::Fallback => true,
        Fit::None => false,
        Fit::Best => !(programs.fpgm.is_empty() && programs.prep.is_empty()),
    }
}

/// How deep components may be nested.
pub(crate) fn levels_of(fit: Fit) -> u32
    ensures { result ≡ levels_of fit }
{
    match fit {
        Fit::Full | Fit::None | Fit::Fallback => LEVEL_LIMIT,
        Fit::Best => BEST_LEVEL_LIMIT,
    }
}

/// The job's budget of work for programs.
pub(crate) fn work_of(fit: Fit) -> Work
    ensures { result.left ≡ work_of fit }
{
    match fit {
        Fit::Full | Fit::None | Fit::Fallback => Work::unbounded(),
        Fit::Best => Work::of(WORK_LIMIT),
    }
}

/// The bytes of the control values that are read.
pub(crate) fn cvt_read(fit: Fit, cvt: &[u8]) -> &[u8]
    ensures { result.now ≡ cvt_read fit cvt.now }
{
    match fit {
        Fit::Full | Fit::None | Fit::Fallback => cvt,
        Fit::Best => &cvt[..CVT_BYTES.min(cvt.len())],
    }
}

/// The instance that programs can read.
pub(crate) fn instance_read(fit: Fit, instance: Instance) -> Instance
    ensures { instance_of result ≡ instance_read fit (instance_of instance) }
{
    match fit {
        Fit::Full | Fit::None | Fit::Fallback => Instance::none(),
        Fit::Best => instance,
    }
}

/// The source of the dropout rules.
pub(crate) fn dropouts_by(fit: Fit) -> DropoutsBy
    ensures { result ≡ dropouts_by fit }
{
    match fit {
        Fit::Full | Fit::None | Fit::Fallback => DropoutsBy::Nobody,
        Fit::Best => DropoutsBy::Programs,
    }
}
