//! The program's messages about texts: why a call failed, and the report of a drawn text.

ghost use Rattle.std.specs.Prelude.{◌≡◌, ◌++◌, flat_map, length, string_bytes, IfOk, IsOk, OnOk};
ghost use Rattle.tt_render_texts.specs.Reports.{head_of, lacking_told, report_text_of, unfitted_told};
ghost use Rattle.tt_render_texts.specs.TextsMessages.{named_line_of, texts_line_of, texts_status_of};

use crate::refusal::{Refusal, TextsFault};
use std::alloc::{AllocError, Global};
use tt_render_streams::Unfitted;

/// The program's exit status after this fault of `draw_text` or `draw_lines`.
pub fn texts_status(fault: &TextsFault) -> u8
    ensures { result ≡ texts_status_of fault.now }
{
    match fault.refusal {
        Refusal::Font(_) => 1,
        Refusal::Job(_)
        | Refusal::Space(_)
        | Refusal::NotUtf8
        | Refusal::Missing(_)
        | Refusal::Many => 2,
        Refusal::FontRead | Refusal::FontLarge | Refusal::Read => 3,
        Refusal::Create | Refusal::Write { .. } => 4,
        Refusal::Memory => 5,
    }
}

/// The line that a message names: a reader that failed, and refused memory, are no line's own.
pub fn named_line(fault: &TextsFault) -> Option<u32>
    ensures { result ≡ named_line_of fault.now.refusal fault.now.line }
{
    match fault.refusal {
        Refusal::FontRead | Refusal::FontLarge | Refusal::Read | Refusal::Many | Refusal::Memory =>
            None,
        Refusal::Font(_)
        | Refusal::Job(_)
        | Refusal::Space(_)
        | Refusal::NotUtf8
        | Refusal::Missing(_)
        | Refusal::Create
        | Refusal::Write { .. } => fault.line,
    }
}

/// The program's line on standard error after this fault of `draw_text` or `draw_lines`, without the line feed.
pub fn texts_line(alloc: Global, fault: &TextsFault) -> Result<String, AllocError>
    ensures { IfOk result (λ text. string_bytes text ≡ texts_line_of fault.now) }
{
    let about = Messages {
        alloc,
        number: named_line(fault),
    };
    let head = about.head()?;
    match &fault.refusal {
        Refusal::Font(fault) => {
            let table = fault.tag();
            let offset = fault.offset;
            let code = fault.why.number();
            let name = fault.why.name();
            format!(in alloc; "{head}{table}+{offset}: {code} {name}")
        }
        Refusal::Job(job) => {
            let code = job.number();
            let name = job.name();
            format!(in alloc; "{head}{code} {name}")
        }
        Refusal::Space(space) => {
            let code = space.number();
            let name = space.name();
            format!(in alloc; "{head}{code} {name}")
        }
        Refusal::NotUtf8 => format!(in alloc; "{head}not UTF-8"),
        Refusal::Missing(c) => {
            let code = *c as u32;
            format!(in alloc; "{head}U+{code:04X} has no glyph")
        }
        Refusal::FontRead => format!(in alloc; "{head}cannot read the font"),
        Refusal::FontLarge => format!(in alloc; "{head}font larger than 67108864 bytes"),
        Refusal::Read => format!(in alloc; "{head}cannot read the lines"),
        Refusal::Create => format!(in alloc; "{head}cannot create the picture"),
        Refusal::Write { sent } => format!(in alloc; "{head}cannot write after {sent} bytes"),
        Refusal::Many => format!(in alloc; "{head}more than 4294967295 lines"),
        Refusal::Memory => format!(in alloc; "{head}out of memory"),
    }
}

/// The messages about the one text, or about the line with this number.
#[derive(Clone, Copy)]
pub struct Messages {
    pub alloc: Global,
    pub number: Option<u32>,
}

impl Messages {
    /// The start of a message.
    pub fn head(self) -> Result<String, AllocError>
        ensures { IfOk result (λ text. string_bytes text ≡ head_of self.number) }
    {
        match self.number {
            None => String::from_str(self.alloc, "tt_render: "),
            Some(number) => format!(in self.alloc; "tt_render: line {number}: "),
        }
    }

    /// The report of the text. A line, with its line feed, for each unfitted glyph, and then one for each character
    /// without a glyph. An empty report takes no memory.
    #[tactic(auto, unfolding(crate::specs::Reports::report_text_of))]
    pub fn report(self, glyphs: &[Unfitted], lacking: &[char]) -> Result<String, AllocError>
        ensures exact { IfOk result (λ text. string_bytes text ≡ report_text_of self.number glyphs.now lacking.now) }
        ensures memory { length glyphs.now ≡ 0 → length lacking.now ≡ 0 → IsOk result }
    {
        let mut text = String::new(self.alloc);
        self.push_unfitted(&mut text, glyphs)?;
        self.push_lacking(&mut text, lacking)?;
        Ok(text)
    }

    /// Appends a line for each unfitted glyph.
    fn push_unfitted(self, text: &mut String, unfitted: &[Unfitted]) -> Result<(), AllocError>
        ensures exact { OnOk result (string_bytes text.new ≡ string_bytes text.old ++ flat_map (unfitted_told self.number) unfitted.now) }
        ensures memory { length unfitted.now ≡ 0 → IsOk result }
    {
        for entry in unfitted {
            text.push_str(&self.glyph_line(entry)?)?;
        }
        Ok(())
    }

    /// Appends a line for each character without a glyph.
    pub fn push_lacking(self, text: &mut String, lacking: &[char]) -> Result<(), AllocError>
        ensures exact { OnOk result (string_bytes text.new ≡ string_bytes text.old ++ flat_map (lacking_told self.number) lacking.now) }
        ensures memory { length lacking.now ≡ 0 → IsOk result }
    {
        for c in lacking {
            text.push_str(&self.character_line(*c)?)?;
        }
        Ok(())
    }

    fn glyph_line(self, unfitted: &Unfitted) -> Result<String, AllocError>
        ensures { IfOk result (λ text. string_bytes text ≡ unfitted_told self.number unfitted.now) }
    {
        let head = self.head()?;
        let glyph = unfitted.glyph;
        let fault = unfitted.fault;
        let table = fault.tag();
        let offset = fault.offset;
        let code = fault.why.number();
        let name = fault.why.name();
        format!(in self.alloc; "{head}glyph {glyph} unfitted: {table}+{offset}: {code} {name}\n")
    }

    fn character_line(self, c: char) -> Result<String, AllocError>
        ensures { IfOk result (λ text. string_bytes text ≡ lacking_told self.number c) }
    {
        let head = self.head()?;
        let code = c as u32;
        format!(in self.alloc; "{head}U+{code:04X} has no glyph\n")
    }
}
