//! Lemmas about the definitions, for all edges.

ghost use Rattle.tt_scan_gaps.specs.Laws.{JoinedCrossAlike, JoinedMarkAlike, JoinedReachAlike, JoinedTouchAlike, JoinedTurnAlike};

/// Lemma: edges that meet no line may be joined. The edges of a contour then cross and touch the same lines, in the same
/// order and at the same places, by rows and by columns. They reach as far.
pub fn joined_alike()
    ensures crossings { JoinedCrossAlike }
    ensures touches { JoinedTouchAlike }
    ensures turned { JoinedTurnAlike }
    ensures marks { JoinedMarkAlike }
    ensures reach { JoinedReachAlike }
{}
