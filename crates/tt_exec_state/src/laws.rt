//! Laws of this crate's instructions: what they leave unchanged, the whole instruction set, and the tolerant machine.

ghost use Rattle.std.specs.Prelude.{◌≡◌, ℕ, ℤ, List, length, IfOk};
ghost use Rattle.tt_core.specs.declared.scaling.Scale.{Scale};
ghost use Rattle.tt_state.specs.declared.tolerance.Tolerance.{Tolerance};
ghost use Rattle.tt_exec_state.specs.Laws.{SettingIsLoosened, ValuesAreLoosened, SettingIsTotal, ValuesAreTotal, VectorsAreTotal, QueriesAreTotal, SettingIsShort, ValuesAreShort, VectorsAreShort, QueriesAreShort};
ghost use Rattle.tt_exec_state.specs.StoredValues.{values_accessed};
ghost use Rattle.tt_exec_state.specs.WithAll.{VectorsStay, SettingsStay, AxesAreKept};
ghost use Rattle.tt_exec_state.specs.declared.instruction.StoredValues.{StoredValues};

/// Lemma: no instruction adds or removes a storage place or a control value.
pub fn sizes_are_kept()
    ensures { (o : StoredValues) (scale : Scale) (t : Tolerance) (s storage cvt : List ℤ)
        → IfOk (values_accessed o scale t s storage cvt)
        (λ r. (length r.1 ≡ length storage) × (length r.2 ≡ length cvt)) }
{}

/// Lemma: the whole instruction set changes no result of an instruction that sets the graphics state, except for the
/// refusals OffProfile and Perpendicular.
pub fn settings_stay()
    ensures vectors { VectorsStay }
    ensures settings { SettingsStay }
{}

/// Lemma: without the whole instruction set, vectors stay on the axes, and the dual projection vector stays the
/// projection vector.
pub fn axes_are_kept()
    ensures { AxesAreKept }
{}

/// Lemma: a tolerant machine gives the result of a strict one, unless that is a refusal that tolerance lifts.
pub fn answers_are_loosened()
    ensures settings { SettingIsLoosened }
    ensures values { ValuesAreLoosened }
{}

/// Lemma: with the values that it takes, no instruction of a tolerant machine fails with too few values or for a
/// missing thing.
pub fn answers_are_total()
    ensures settings { SettingIsTotal }
    ensures values { ValuesAreTotal }
    ensures vectors { VectorsAreTotal }
    ensures queries { QueriesAreTotal }
{}

/// Lemma: with fewer values than it takes, an instruction is refused.
pub fn few_values_are_refused()
    ensures settings { SettingIsShort }
    ensures values { ValuesAreShort }
    ensures vectors { VectorsAreShort }
    ensures queries { QueriesAreShort }
{}
