//! Lemmas about the definitions, for all edges.

ghost use Rattle.tt_scan_edges.specs.Laws.{JoinedAreFewer, JoinedBlackenAlike, JoinedCrossAlike, JoinedMeetAlike, NoLineBetween};

/// Lemma: edges that meet no line may be joined. What is black at the height of a line remains, and so does the number
/// of edges that meet the line. So a picture needs as many crossings. No more edges are left than there were.
pub fn joined_alike()
    ensures none { NoLineBetween }
    ensures black { JoinedBlackenAlike }
    ensures met { JoinedMeetAlike }
    ensures crossed { JoinedCrossAlike }
    ensures fewer { JoinedAreFewer }
{}
