//! The dots of a glyph in a window: small contours that need no pixel of a gap.

ghost use Rattle.std.specs.Prelude.{◌≡◌, ℤ, not, ◌&&◌, ◌||◌, All, IfOk, OnOk};
ghost use Rattle.tt_scan.specs.Contours.{contours_at};
ghost use Rattle.tt_scan_edges.specs.Winding.{EdgeFits};
ghost use Rattle.tt_scan_gaps.specs.Dots.{has_dot, is_dot};
ghost use Rattle.tt_scan_dropouts.specs.Passes.{has_pixel};
ghost use Rattle.tt_scan_dropouts.specs.Windows.{has, is_black_in};

use crate::bitmap::Bitmap;
use crate::contours::{Contours, Outlined};
use crate::filling::push_if_within;
use crate::pixel::Pixel;
use crate::window::Window;
use std::alloc::{AllocError, Global};
use tt_scan::Edge;
use tt_scan_gaps::{Dot, dot_pixel};

/// Adds the pixel of a contour that is a dot, if the pixel lies in a window and is white. Error: memory ran out.
fn push_dot(
    alloc: Global,
    found: &mut Vec<Pixel>,
    window: Window,
    ink: &Bitmap,
    stubs: bool,
    edges: &[Edge],
) -> Result<(), AllocError>
    requires { All EdgeFits edges.now }
    ensures { OnOk result ((c j : ℤ) → has_pixel found.new.items c j ≡ (has_pixel found.old.items c j
        || (has window c j && (not (is_black_in ink.now c j) && is_dot stubs edges.now c j)))) }
{
    if let Some(dot) = dot_pixel(alloc, stubs, edges)? {
        let Dot { column, row } = dot;
        if ink.are_white(column, row, column, row) {
            push_if_within(found, window, Pixel { column, row })?;
        }
    }
    Ok(())
}

/// Adds the dots of a glyph in a window that are white, if dots are drawn. Error: memory ran out.
pub(crate) fn push_dots(
    alloc: Global,
    found: &mut Vec<Pixel>,
    glyph: Outlined,
    window: Window,
    ink: &Bitmap,
) -> Result<(), AllocError>
    ensures { OnOk result ((c j : ℤ) → has_pixel found.new.items c j ≡ (has_pixel found.old.items c j
        || (has window c j && (glyph.entry.rules.rules.dots && (not (is_black_in ink.now c j)
        && has_dot glyph.entry.rules.rules.stubs (contours_at glyph.entry.tape.now.edges glyph.entry.ends.now) c j))))) }
{
    if !glyph.rules.rules.dots {
        return Ok(());
    }
    let Contours { edges, ends } = glyph.contours();
    let mut from = 0;
    for i in 0..ends.len() {
        let contour = &edges[from..ends[i]];
        push_dot(alloc, found, window, ink, glyph.rules.rules.stubs, contour)?;
        from = ends[i];
    }
    Ok(())
}
