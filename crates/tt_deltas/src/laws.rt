//! Moved coordinates, for all tuples. No code runs.

ghost use Rattle.tt_deltas.specs.Laws.{NamedPointsMove, OtherPointsStay};

/// Lemma: a named point moves by its own delta, times the tuple's share. A phantom point, a component or a control value
/// that is not named stays.
pub fn points_move_by_their_deltas()
    ensures named { NamedPointsMove }
    ensures others { OtherPointsStay }
{}
