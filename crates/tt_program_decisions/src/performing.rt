//! The performance of a request, over its font and the standard streams.

ghost use Rattle.std.specs.Prelude.{◌≡◌, ◌≤◌, false};
ghost use Rattle.tt_program_decisions.specs.Requests.{Performs, UnlessLines};
ghost use Rattle.tt_render_streams.specs.Traffic.{traffic_of};
ghost use Rattle.tt_render_texts.specs.Printing.{errors_of};

use crate::bdf::perform_bdf;
use crate::closable::Closable;
use crate::labelling::label_for;
use crate::request::Request;
use crate::telling::tell;
use crate::telling_labels::tell_label;
use crate::telling_texts::{tell_lines, tell_texts};
use std::alloc::Global;
use tt_core::{Sink, Source};
use tt_program_faces::faces;
use tt_render_streams::Pictures;

/// Performs a request, and reports on standard error the unfitted glyphs and, where requested, the characters without a
/// glyph, or a fault. Nothing is reported behind the closing of the output by its reader. Pictures of labels go to the
/// places of `out`, all else to `out` as a stream. `folder` says whether the font's path is that of a folder. Returns the
/// exit status.
pub fn perform<R: Source, L: Source, W: Closable + Pictures, E: Sink>(
    alloc: Global,
    request: &Request,
    folder: bool,
    font: &mut R,
    lines: &mut L,
    out: &mut W,
    error: &mut E,
) -> u8
    requires font { R.has_failed font.old ≡ false }
    requires lines { L.has_failed lines.old ≡ false }
    requires out { W.Sink.has_failed out.old ≡ false }
    requires pictures { W.Pictures.has_failed out.old ≡ false }
    requires error { E.has_failed error.old ≡ false }
    ensures bound { result ≤ 5 }
    // For some answer the call's contract about the devices holds, and the status and the lines report that answer.
    ensures outcome { Performs request.now folder (W.closes out.new) (traffic_of R.left R.has_failed W.Sink.written W.Sink.has_failed font.old font.new out.old out.new) (traffic_of L.left L.has_failed W.Sink.written W.Sink.has_failed lines.old lines.new out.old out.new) (record { shown = W.Pictures.shown; font = traffic_of R.left R.has_failed W.Pictures.written W.Pictures.has_failed font.old font.new out.old out.new; lines = traffic_of L.left L.has_failed W.Pictures.written W.Pictures.has_failed lines.old lines.new out.old out.new }) (errors_of E.written E.has_failed error.old error.new) result }
    ensures lines { UnlessLines request.now (lines.new ≡ lines.old) }
{
    match request {
        Request::Map {
            text,
            reading,
            instance,
            ..
        } => {
            let mapped = tt_render_run::map(alloc, font, text, out, *reading, *instance);
            tell(alloc, &mapped, out.is_closed(), error)
        }
        Request::Faces { .. } => {
            let told = faces(alloc, font, out);
            tell(alloc, &told, out.is_closed(), error)
        }
        Request::Text { text, setting, .. } => {
            let drawn = tt_render_lines::draw_text(alloc, font, out, error, text, setting);
            tell_texts(alloc, &drawn, out.is_closed(), error)
        }
        Request::Lines { setting, .. } => {
            let drawn = tt_render_lines::draw_lines(alloc, font, lines, out, error, setting);
            tell_lines(alloc, &drawn, out.is_closed(), error)
        }
        Request::Layout { text, setting, .. } => {
            let told = tt_render_lines::write_layout(alloc, font, out, error, text, setting);
            tell_texts(alloc, &told, out.is_closed(), error)
        }
        Request::Label { text, options, .. } => {
            let label = label_for(request.font(), options);
            let drawn = tt_render::draw_label(alloc, font, out, error, text, &label);
            tell_label(alloc, &drawn, &label, folder, out.is_closed(), error)
        }
        Request::Labels { options, .. } => {
            let label = label_for(request.font(), options);
            let drawn = tt_render::draw_labels(alloc, font, lines, out, error, &label);
            tell_label(alloc, &drawn, &label, folder, out.is_closed(), error)
        }
        Request::Bdf(asked) => perform_bdf(alloc, asked, folder, font, out, error),
    }
}
