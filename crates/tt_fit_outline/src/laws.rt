//! Laws of the definitions. Each function is a lemma: its clauses hold of all distances and outlines, and no code runs.

ghost use Rattle.tt_fit_outline.specs.Grid.{UpIsNear, UpKeepsOrder, UpMovesByPixels};
ghost use Rattle.tt_fit_outline.specs.Steps.{StepsAreBounded, StepsAreForward, StepsAreNear, StepsStay};

/// Lemma: halves that go up to whole pixels keep the order of distances. A distance one pixel longer stays one pixel
/// longer, and no distance moves by more than half a pixel.
pub fn halves_go_up()
    ensures order { UpKeepsOrder }
    ensures pixels { UpMovesByPixels }
    ensures near { UpIsNear }
{}

/// Lemma: a step is at most 65536 pixels. Step and distance of an advance's two ends differ by at most half a pixel. Where
/// the right end is left of the left one, the step is 0. Moving both ends alike does not change the step.
pub fn steps_are_near()
    ensures bounded { StepsAreBounded }
    ensures near { StepsAreNear }
    ensures forward { StepsAreForward }
    ensures stay { StepsStay }
{}
