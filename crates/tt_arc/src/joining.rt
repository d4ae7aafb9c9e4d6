//! The edges of a contour, joined as they are made. Most chords of a curve are short and meet no line, so far fewer
//! edges are left. The last edge stands behind those in the list. The list gets the last edge where the next is not
//! joined.

ghost use Rattle.std.specs.Prelude.{◌≡◌, ◌+◌, ◌<◌, ◌≤◌, [], ◌∷◌, ◌++◌, Some, length, OnOk};
ghost use Rattle.tt_scan_edges.specs.Winding.{EdgeFits};
ghost use Rattle.tt_arc.specs.declared.rule.ChordRule.TheVariants as rules;
ghost use Rattle.tt_arc.specs.Added.{AreAdded, joined_behind};

use crate::rule::ChordRule;
use std::alloc::AllocError;
use tt_scan::{Edge, EdgeList, Last};

/// How far the edges of a contour are made: the last edge, where the list lacks this edge, and the number of chords and
/// straight edges before any were joined.
#[derive(Drop)]
pub(crate) struct SoFar {
    pub(crate) last: Option<Last>,
    pub(crate) chords: usize,
}

/// Joins an edge to the last, or adds the last to a list; there is memory for it. Returns the last edge then.
#[inline(always)]
fn join_or_push(list: &mut EdgeList, last: Option<Last>, next: Edge) -> Last
    requires edge { EdgeFits next }
    requires room { length list.old.edges < list.old.capacity }
    ensures added { AreAdded rules.ByBend list.old.edges last (next ∷ []) list.new.edges (Some result) }
    ensures one { length list.new.edges ≤ length list.old.edges + 1 }
    ensures capacity { list.new.capacity ≡ list.old.capacity }
{
    match last {
        None => Last::new(next),
        Some(last) => {
            if last.joins(next) {
                return last.joined(next);
            }
            list.push_reserved(last.edge());
            Last::new(next)
        }
    }
}

/// Adds an edge of a contour behind the last edge; there is memory for one. With chords by bend there is a last edge
/// then.
#[inline(always)]
pub(crate) fn push_edge(list: &mut EdgeList, last: &mut Option<Last>, edge: Edge, rule: ChordRule)
    requires edge { EdgeFits edge }
    requires room { length list.old.edges < list.old.capacity }
    ensures added { AreAdded rule list.old.edges last.old (edge ∷ []) list.new.edges last.new }
    ensures one { length list.new.edges ≤ length list.old.edges + 1 }
    ensures capacity { list.new.capacity ≡ list.old.capacity }
{
    match rule {
        ChordRule::Eight => list.push_reserved(edge),
        ChordRule::ByBend => {
            let joined = join_or_push(list, last.take(), edge);
            *last = Some(joined);
        }
    }
}

/// Adds the last edge of a contour to a list that lacks this edge. Error: memory ran out.
#[inline(always)]
pub(crate) fn push_last(
    list: &mut EdgeList,
    last: Option<Last>,
    rule: ChordRule,
) -> Result<(), AllocError>
    ensures { OnOk result (list.new.edges ≡ list.old.edges ++ joined_behind rule last []) }
{
    match (rule, last) {
        (ChordRule::ByBend, Some(last)) => {
            list.reserve(1)?;
            list.push_reserved(last.edge());
        }
        _ => {}
    }
    Ok(())
}
