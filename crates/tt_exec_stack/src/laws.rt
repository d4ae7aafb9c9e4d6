//! Laws of the stack: the tolerant machine beside a strict one, and too few values. No code runs.

ghost use Rattle.tt_exec_stack.specs.Laws.{ManagingIsLoosened, ManagingIsTotal, ArithmeticIsTotal, LogicIsTotal, ManagingIsShort, ArithmeticIsShort, LogicIsShort, PaddedIsEnough, EnoughStays};

/// Lemma: by an instruction that manages the stack, a tolerant machine gives the result of a strict one, unless that is
/// a refusal that tolerance lifts.
pub fn managing_is_loosened()
    ensures { ManagingIsLoosened }
{}

/// Lemma: with the values that it takes, no instruction of a tolerant machine fails with too few values or for a
/// missing entry.
pub fn answers_are_total()
    ensures managing { ManagingIsTotal }
    ensures arithmetic { ArithmeticIsTotal }
    ensures logic { LogicIsTotal }
{}

/// Lemma: with fewer values than it takes, an instruction is refused.
pub fn few_values_are_refused()
    ensures managing { ManagingIsShort }
    ensures arithmetic { ArithmeticIsShort }
    ensures logic { LogicIsShort }
{}

/// Lemma: a padded stack has at least the requested count of values, and a stack that has them is unchanged.
pub fn padding_is_enough()
    ensures enough { PaddedIsEnough }
    ensures stays { EnoughStays }
{}
