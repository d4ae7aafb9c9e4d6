//! Lemmas: blackness by single edges, and by edges moved to the right.

ghost use Rattle.std.specs.Prelude.{◌≡◌, ◌≢◌, ◌↔◌, ◌⊎◌, ℕ, ℤ, true, pos, List, ◌+ℤ◌, ◌*ℤ◌};
ghost use Rattle.tt_scan_edges.specs.declared.edge.Edge.{Edge};
ghost use Rattle.tt_scan_edges.specs.Winding.{lies_on_one, winding, is_black, LiesOnSome, moved_edges, column_x};

/// Lemma: a point is black if and only if it lies on some edge or the turns of all edges do not add up to 0.
pub fn black_points()
    // A point lies on a list of edges where it lies on some edge of it.
    ensures on { (es : List Edge) (x y : ℤ) → (lies_on_one es x y ≡ true) ↔ LiesOnSome es x y }
    // A point is black where it lies on some edge, or the turns of all edges do not add up to 0.
    ensures black { (es : List Edge) (x y : ℤ) → (is_black es x y ≡ true)
        ↔ (LiesOnSome es x y ⊎ (winding es x y ≢ pos 0)) }
{}

/// Lemma: edges moved by `k` pixels to the right blacken the columns `k` further right.
pub fn moved_edges()
    ensures { (k : ℤ) (es : List Edge) (m : ℕ) (c y : ℤ)
        → is_black (moved_edges (pos 8192 *ℤ k) es) (column_x m (c +ℤ k)) y ≡ is_black es (column_x m c) y }
{}
