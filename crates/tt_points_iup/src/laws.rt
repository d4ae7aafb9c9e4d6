//! The interpolation of a contour, point by point.

ghost use Rattle.std.specs.Prelude.{◌≡◌, ℕ, ◌<◌, true, false, List, length, get_or};
ghost use Rattle.tt_state.specs.declared.graphics_state.Axis.{Axis};
ghost use Rattle.tt_state.specs.declared.point.Point.{Point};
ghost use Rattle.tt_points_zones.specs.Points.{is_touched};
ghost use Rattle.tt_points_zones.specs.Zones.{ZoneLists, AreContours, KeepsShape};
ghost use Rattle.tt_points_iup.specs.Interpolation as is;
ghost use Rattle.tt_points_iup.specs.Neighbours.{round_from, IsNextTouched, IsLastTouched, HasNeighbours};
ghost use Rattle.tt_points_iup.specs.declared.place.Along.{Along};

/// Lemma: the interpolation of a contour is determined point by point, as these clauses say for all contours.
pub fn point_by_point()
    ensures many { (along : Along) (ps : List Point) → length (is.contour along ps) ≡ length ps }
    // A touched point is unchanged.
    ensures touched { (along : Along) (ps : List Point) (d : Point) (i : ℕ) → i < length ps
        → is_touched along.axis (get_or ps i d) ≡ true → get_or (is.contour along ps) i d ≡ get_or ps i d }
    // If a point of the contour is touched, each untouched one has touched neighbours.
    ensures there { (along : Along) (ps : List Point) (d : Point) (i j : ℕ) → i < length ps → j < length ps
        → is_touched along.axis (get_or ps i d) ≡ false → is_touched along.axis (get_or ps j d) ≡ true
        → HasNeighbours along.axis ps d i }
    // An untouched point is interpolated between the nearest touched ones before and after it, round the contour. Their
    // places are those before the interpolation.
    ensures between { (along : Along) (ps : List Point) (d : Point) (i before after : ℕ) → i < length ps
        → is_touched along.axis (get_or ps i d) ≡ false
        → IsLastTouched along.axis ps d i before → IsNextTouched along.axis ps d i after
        → get_or (is.contour along ps) i d
        ≡ is.interpolated along (get_or ps (round_from (length ps) i before) d)
        (get_or ps (round_from (length ps) i after) d) (get_or ps i d) }
    // Without a touched point, no point moves.
    ensures alone { (along : Along) (ps : List Point) (d : Point)
        → ((i : ℕ) → i < length ps → is_touched along.axis (get_or ps i d) ≡ false) → is.contour along ps ≡ ps }
{}

/// Lemma: IUP adds or removes no point, if the contours are ranges of the glyph's points.
pub fn shape_is_kept()
    ensures { (axis : Axis) (z : ZoneLists) → AreContours 0 z.contours (length z.glyph) → KeepsShape z (is.iup axis z) }
{}
