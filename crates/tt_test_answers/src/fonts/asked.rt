//! The font, its instance and the devices of questions, and the answers.

ghost use Rattle.std.specs.Prelude.{◌≤◌, ◌<◌, ◌^◌};

use super::devices::{End, Given, Manner, Written};
use std::alloc::Global;
use std::str;
use tt_axes::AxisValue;
use tt_core::{Device, Reading};
use tt_face::{AskedInstance, Opening};
use tt_program_decisions::{
    GLYPHS_KEPT, OutDevice, Request, axes_asked, fit_named, missing_named, perform,
};
use tt_program_words::DRAW;
use tt_render_settings::Setting;
use tt_render_texts::fit_reading;
use tt_test_words::Line;

/// The font with the values of its axes, if there are some, and how it is read and the answer is taken.
#[derive(Drop)]
pub(crate) struct Asked {
    pub(crate) font: Vec<u8>,
    axes: Option<Vec<AxisValue>>,
    manner: Manner,
}

impl Asked {
    pub(crate) fn new(alloc: Global) -> Asked {
        Asked {
            font: Vec::new(alloc),
            axes: None,
            manner: Manner::whole(),
        }
    }

    /// The instance of the questions, if values of axes are kept.
    fn instance(&self) -> Option<AskedInstance<'_>> {
        match &self.axes {
            Some(axes) => Some(AskedInstance {
                named: None,
                axes: axes.as_slice(),
            }),
            None => None,
        }
    }

    /// Answers a question, or keeps a font, values of axes or devices.
    pub(crate) fn answer(&mut self, alloc: Global, line: &mut Line, word: &str) {
        match word {
            "font" => self.font = line.bytes(alloc),
            "axes" => self.axes = axes_in(alloc, line),
            "devices" => self.manner = manner_in(line),
            "map" | "draw" | "lines" => self.put_answer(alloc, line, word),
            _ => line.refuse("no such question"),
        }
        line.end();
    }

    /// Puts the answer of a question.
    fn put_answer(&self, alloc: Global, line: &mut Line, question: &str) {
        let bytes = line.bytes(alloc);
        let text = str::from_utf8(bytes.as_slice()).unwrap_or("");
        if text.len() < bytes.len() && question != "lines" {
            line.refuse("the text is not in UTF-8");
        }
        let mut lines_fail_at = 0;
        let mut missing = DRAW;
        if question == "lines" {
            lines_fail_at = size_in(line);
            missing = line.word();
        }
        let mut request = map_of(text);
        if question != "map" {
            let Some(setting) = setting_in(line, missing) else {
                line.refuse("no such way to fit, or to take missing characters");
                return;
            };
            request = Request::Lines { font: "", setting };
            if question == "draw" {
                request = Request::Text {
                    font: "",
                    text,
                    setting,
                };
            }
        }
        let font = self.changed(alloc, line);
        if line.is_refused() {
            return;
        }
        let lines = Given::new(bytes.as_slice(), self.manner.failing_at(lines_fail_at));
        put_done(
            alloc,
            line,
            &request.at(self.instance()),
            Given::new(font.as_slice(), self.manner),
            lines,
        );
    }

    /// The font's first bytes, with the changes that the words name.
    fn changed(&self, alloc: Global, line: &mut Line) -> Vec<u8> {
        let mut font = Vec::new(alloc);
        let size = size_in(line);
        match self.font.get(..size) {
            Some(front) => {
                if font.extend_from_slice(front).is_err() {
                    line.refuse("out of memory");
                }
            }
            None => line.refuse("the font is not so long"),
        }
        for _ in 0..u64::MAX {
            let Some(word) = line.next() else { break };
            let byte = line.number(0, 255) as u8;
            match word.parse::<usize>() {
                Ok(at) if at < font.len() => font[at] = byte,
                _ => line.refuse("there is no such place"),
            }
        }
        font
    }
}

fn map_of<'t>(text: &'t str) -> Request<'t> {
    Request::Map {
        font: "",
        text,
        reading: Reading::Strict,
        instance: None,
    }
}

/// The next word, values of axes. None for `-`.
fn axes_in(alloc: Global, line: &mut Line) -> Option<Vec<AxisValue>> {
    let word = line.word();
    if word == "-" {
        return None;
    }
    match axes_asked(alloc, Some(word)) {
        Ok(Some(axes)) => Some(axes),
        _ => {
            line.refuse("no such axes");
            None
        }
    }
}

/// Does what a request says, and puts the answer.
fn put_done(alloc: Global, line: &mut Line, request: &Request, font: Given, lines: Given) {
    let mut written = Written::new(font.manner());
    let mut errors = Vec::new(alloc);
    let mut font = Device::new(font);
    let mut lines = Device::new(lines);
    let status = perform(
        alloc,
        request,
        false,
        &mut font,
        &mut lines,
        &mut OutDevice::new(&mut written),
        &mut Device::new(&mut errors),
    );
    line.put_number(i64::from(status));
    line.put(" ");
    line.put_unsigned(written.count() as u64);
    line.put(" ");
    line.put_unsigned(written.sum());
    line.put("|");
    for byte in errors.as_slice() {
        line.put_byte(if *byte == b'\n' { b'|' } else { *byte });
    }
    line.put("\n");
}

/// The next word, a number of bytes.
fn size_in(line: &mut Line) -> usize {
    line.number(0, i64::MAX) as usize
}

/// The next five words, how a font is read and how the answer is taken.
fn manner_in(line: &mut Line) -> Manner {
    Manner {
        read_step: size_in(line),
        fails_at: size_in(line),
        write_step: size_in(line),
        room: size_in(line),
        end: match line.word() {
            "fails" => End::Fails,
            "nothing" => End::TakesNothing,
            "closed" => End::Closed,
            _ => {
                line.refuse("no such end");
                End::Fails
            }
        },
    }
}

/// The next three words, size, margin and way to fit.
fn setting_in<'i>(line: &mut Line, missing: &str) -> Option<Setting<'i>> {
    let size = line.natural(0, u32::MAX);
    let margin = line.natural(0, u32::MAX);
    let fit = fit_named(line.word())?;
    Some(Setting {
        missing: missing_named(missing)?,
        most: GLYPHS_KEPT,
        ..Setting::plain(size, margin, fit, Opening::plain(fit_reading(fit)))
    })
}
