//! The request `bdf`, and its performance.

ghost use Rattle.std.specs.Prelude.{◌≡◌, ◌≤◌, false, All, IfOk, IfSome, option_map};
ghost use Rattle.tt_bdf.specs.Ranges.{IsCodeRange};
ghost use Rattle.tt_render_texts.specs.Printing.{errors_of};
ghost use Rattle.tt_render_streams.specs.Traffic.{traffic_of};
ghost use Rattle.tt_program_decisions.specs.BdfCalls.{PerformsBdf, face_or_first};
ghost use Rattle.tt_program_decisions.specs.BdfRequests.{bdf_view, range_words, ranges_asked, text_or_none};
ghost use Rattle.tt_program_decisions.specs.Requests.{AsksBdf, asked_of};
ghost use Rattle.tt_program_decisions.specs.Stops.{IsStopBefore};

use crate::closable::Closable;
use crate::output::stop_of_output;
use crate::request::{Arguments, Request, fit_named};
use crate::rules::heights_named;
use crate::stopping::{Stop, tell_stop};
use crate::telling_bdf::tell_bdf;
use std::alloc::{AllocError, Global};
use tt_bdf::{CodeRange, read_ranges};
use tt_bitmap_font::{FontFile, write_bdf};
use tt_core::{Sink, Source};
use tt_face::{AskedInstance, Heights};
use tt_fit::Fit;

/// A request for `bdf`.
#[derive(Clone, Copy)]
pub struct BdfRequest<'a> {
    /// The path of the font.
    pub font: &'a str,
    pub size: u32,
    pub fit: Fit,
    /// The number of the face, if one is requested.
    pub face: Option<u32>,
    /// How the file's ascent and descent are rounded.
    pub heights: Heights,
    /// The words of the ranges. None where a text alone is requested.
    pub range: Option<&'a str>,
    /// A text, whose characters are wanted too; empty where there is none.
    pub text: &'a str,
    /// The instance of a variable font, if one is requested.
    pub instance: Option<AskedInstance<'a>>,
}

/// The ranges where a request has neither ranges nor a text.
const DEFAULT_RANGE: &str = "20-7E,A0-FF";

/// The request `bdf --size SIZE --fit FIT --height HEIGHT FONT`, where all are present, with `--face FACE`, `--range RANGE`
/// and TEXT, which may be absent. None where the name of the way to fit, or of the rounding of heights, is unknown.
pub(crate) fn bdf_of<'a, A: Arguments<'a>>(arguments: &A) -> Option<Request<'a>>
    ensures { AsksBdf (A.text arguments.now) (A.IsNumber arguments.now) (option_map asked_of result) }
{
    let size = arguments.number_for("size");
    let fit = arguments.text_for("fit");
    let face = arguments.number_for("face");
    let height = arguments.text_for("height");
    let range = arguments.text_for("range");
    let text = arguments.text_for("TEXT");
    Some(Request::Bdf(BdfRequest {
        font: arguments.text_for("FONT")?,
        size: size?,
        fit: fit_named(fit?)?,
        face,
        heights: heights_named(height?)?,
        range: range_words(range, text),
        text: text_or_none(text),
        instance: None,
    }))
}

/// The words of the ranges, by those of `--range` and by TEXT.
fn range_words<'a>(range: Option<&'a str>, text: Option<&'a str>) -> Option<&'a str>
    ensures { option_map (λ s. s.now) result ≡ range_words (option_map (λ s. s.now) range.entry) (option_map (λ s. s.now) text.entry) }
{
    match range {
        Some(words) => Some(words),
        None => match text {
            Some(_) => None,
            None => Some(DEFAULT_RANGE),
        },
    }
}

fn text_or_none<'a>(text: Option<&'a str>) -> &'a str
    ensures { result.now ≡ text_or_none (option_map (λ s. s.now) text.entry) }
{
    match text {
        Some(text) => text,
        None => "",
    }
}

/// The ranges of some words. None where the words are not of the right form. Error: memory ran out.
fn ranges_asked(alloc: Global, range: Option<&str>) -> Result<Option<Vec<CodeRange>>, AllocError>
    ensures exact { IfOk result (λ ranges. option_map (λ rs. rs.items) ranges ≡ ranges_asked (option_map (λ s. s.now) range.entry)) }
    ensures codes { IfOk result (λ ranges. IfSome ranges (λ rs. All IsCodeRange rs.items)) }
{
    match range {
        Some(words) => read_ranges(alloc, words.as_bytes()),
        None => Ok(Some(Vec::new(alloc))),
    }
}

/// The reason why a request is not performed, by its words alone: the form of `--range` or of the name of files, or refused
/// memory.
pub fn stop_of_request(alloc: Global, request: &Request) -> Option<Stop>
    ensures { IsStopBefore request.now result }
{
    match request {
        Request::Bdf(asked) => match ranges_asked(alloc, asked.range) {
            Ok(Some(_)) => None,
            Ok(None) => Some(Stop::Range),
            Err(AllocError) => Some(Stop::Memory),
        },
        Request::Map { .. }
        | Request::Faces { .. }
        | Request::Text { .. }
        | Request::Lines { .. }
        | Request::Layout { .. }
        | Request::Label { .. } => None,
        Request::Labels {
            options,
            output,
            ..
        } => stop_of_output(options.format, *output),
    }
}

fn face_or_first(face: Option<u32>) -> u32
    ensures { result ≡ face_or_first face }
{
    match face {
        Some(face) => face,
        None => 0,
    }
}

/// Performs the request `bdf`, as `perform` does. Returns the exit status.
pub(crate) fn perform_bdf<R: Source, W: Closable, E: Sink>(
    alloc: Global,
    asked: &BdfRequest,
    folder: bool,
    font: &mut R,
    out: &mut W,
    error: &mut E,
) -> u8
    requires font { R.has_failed font.old ≡ false }
    requires out { W.has_failed out.old ≡ false }
    requires error { E.has_failed error.old ≡ false }
    ensures bound { result ≤ 5 }
    ensures outcome { PerformsBdf (bdf_view asked.now) folder (W.closes out.new) (traffic_of R.left R.has_failed W.written W.has_failed font.old font.new out.old out.new) (errors_of E.written E.has_failed error.old error.new) result }
{
    match ranges_asked(alloc, asked.range) {
        Ok(Some(ranges)) => {
            let file = FontFile {
                size: asked.size,
                fit: asked.fit,
                face: face_or_first(asked.face),
                heights: asked.heights,
                ranges: &ranges,
                text: asked.text,
                path: asked.font,
                face_given: asked.face.is_some(),
                instance: asked.instance,
            };
            let written = write_bdf(alloc, font, out, error, &file);
            tell_bdf(alloc, &written, &file, folder, out.is_closed(), error)
        }
        Ok(None) => tell_stop(Stop::Range, error),
        Err(AllocError) => tell_stop(Stop::Memory, error),
    }
}
