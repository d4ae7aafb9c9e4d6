//! The rules for scaling and for running programs.

use tt_state::Tolerance;

/// How distances in font units are scaled to pixels.
#[derive(Clone, Copy)]
pub enum Scaling {
    Exact,
    /// By a factor that is rounded first.
    Rounded,
}

/// The rules for running programs and scaling.
#[derive(Clone, Copy)]
pub struct OutlineRules {
    /// Whether programs have the whole instruction set.
    pub whole: bool,
    /// What happens when an instruction refers to something missing.
    pub tolerance: Tolerance,
    pub scaling: Scaling,
}
