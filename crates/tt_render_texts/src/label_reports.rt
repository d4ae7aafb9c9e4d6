//! The report of a label that was drawn.

ghost use Rattle.std.specs.Prelude.{◌≡◌, ◌++◌, string_bytes, IfOk, OnOk};
ghost use Rattle.tt_render_texts.specs.Reports.{columns_told, count_line, count_told, cut_line, cut_sides, cut_told, fit_name, font_told, is_first, label_report_of, sign_line, sign_told, sign_words, signs_told, told_view};

use crate::texts_messages::Messages;
use std::alloc::AllocError;
use tt_advice::Sign;
use tt_fit::Fit;

/// The first character of each sign, in the lines of a label.
#[derive(Clone, Copy, Debug, PartialEq, Eq)]
pub struct Signs {
    pub control: Option<char>,
    pub right_to_left: Option<char>,
    pub shaped: Option<char>,
    pub joining: Option<char>,
}

/// How many columns of a label's ink its picture lacks at each side.
#[derive(Clone, Copy, Debug, PartialEq, Eq)]
pub struct CutInk {
    pub left: u64,
    pub right: u64,
}

/// What is reported of a label beside its unfitted glyphs and its characters without a glyph.
#[derive(Clone, Copy)]
pub struct LabelTold<'a> {
    pub fit: Fit,
    pub cut: CutInk,
    pub signs: Signs,
    /// The lines about the font, for the first picture of a call.
    pub font: &'a str,
}

/// The name of a way to fit.
fn fit_name(fit: Fit) -> &'static str
    ensures { result.now ≡ fit_name fit }
{
    match fit {
        Fit::Full => "full",
        Fit::None => "none",
        Fit::Fallback => "fallback",
        Fit::Best => "best",
    }
}

/// What is reported of a character with a sign, behind its code point.
#[tactic(auto, unfolding(crate::specs::Reports::sign_words))]
fn sign_words(sign: Sign, c: char) -> &'static str
    ensures { result.now ≡ sign_words sign c }
{
    match sign {
        Sign::Control => {
            if c == '\t' {
                "is a tab, and drawn as the font has it; expand(1) makes blanks of tabs"
            } else {
                "is a control character, and drawn as the font has it"
            }
        }
        Sign::RightToLeft => "is written from right to left, but drawn from left to right",
        Sign::Shaped => SHAPED,
        Sign::Joining => "joins the character beside it, but is drawn by itself",
    }
}

const SHAPED: &str = "is of a script whose letters take other forms beside each other; \
                      they are drawn one by one";

impl Messages {
    /// The report of a label. A line, with its line feed: for its unfitted glyphs; for each character without a glyph;
    /// for ink that is cut; for the first character of each sign. Behind the first picture of a call come the lines about the font.
    #[tactic(auto, unfolding(crate::specs::Reports::label_report_of))]
    pub fn label_report(
        self,
        told: &LabelTold,
        unfitted: usize,
        lacking: &[char],
    ) -> Result<String, AllocError>
        ensures { IfOk result (λ text. string_bytes text ≡ label_report_of self.number (told_view told.now) unfitted lacking.now) }
    {
        let mut text = String::new(self.alloc);
        self.push_count(&mut text, told.fit, unfitted)?;
        self.push_lacking(&mut text, lacking)?;
        self.push_cut(&mut text, told.cut)?;
        self.push_signs(&mut text, told.signs)?;
        self.push_font(&mut text, told.font)?;
        Ok(text)
    }

    /// Appends a line for the unfitted glyphs, if there are any.
    pub fn push_count(self, text: &mut String, fit: Fit, unfitted: usize) -> Result<(), AllocError>
        ensures { OnOk result (string_bytes text.new ≡ string_bytes text.old ++ count_told self.number fit unfitted) }
    {
        if unfitted == 0 {
            return Ok(());
        }
        text.push_str(&self.count_line(fit, unfitted)?)
    }

    fn count_line(self, fit: Fit, unfitted: usize) -> Result<String, AllocError>
        ensures { IfOk result (λ text. string_bytes text ≡ count_line self.number fit unfitted) }
    {
        let head = self.head()?;
        let name = fit_name(fit);
        if unfitted == 1 {
            format!(in self.alloc; "{head}1 glyph is not fitted; draw --fit {name} names it\n")
        } else {
            format!(in self.alloc;
                "{head}{unfitted} glyphs are not fitted; draw --fit {name} names them\n"
            )
        }
    }

    /// Appends a line for ink that is cut, if there is any.
    fn push_cut(self, text: &mut String, cut: CutInk) -> Result<(), AllocError>
        ensures { OnOk result (string_bytes text.new ≡ string_bytes text.old ++ cut_told self.number cut) }
    {
        if cut.left == 0 && cut.right == 0 {
            return Ok(());
        }
        text.push_str(&self.cut_line(cut)?)
    }

    fn cut_line(self, cut: CutInk) -> Result<String, AllocError>
        ensures { IfOk result (λ text. string_bytes text ≡ cut_line self.number cut) }
    {
        let head = self.head()?;
        let sides = self.cut_sides(cut)?;
        format!(in self.alloc;
            "{head}ink is cut: {sides}; --margin or a greater --width shows it\n"
        )
    }

    /// Where ink is cut, and how much; a side without such ink is left out.
    fn cut_sides(self, cut: CutInk) -> Result<String, AllocError>
        ensures { IfOk result (λ text. string_bytes text ≡ cut_sides cut) }
    {
        let left = self.columns(cut.left)?;
        let right = self.columns(cut.right)?;
        if cut.right == 0 {
            format!(in self.alloc; "{left} at the left")
        } else if cut.left == 0 {
            format!(in self.alloc; "{right} at the right")
        } else {
            format!(in self.alloc; "{left} at the left and {right} at the right")
        }
    }

    fn columns(self, count: u64) -> Result<String, AllocError>
        ensures { IfOk result (λ text. string_bytes text ≡ columns_told count) }
    {
        if count == 1 {
            String::from_str(self.alloc, "1 column")
        } else {
            format!(in self.alloc; "{count} columns")
        }
    }

    /// Appends a line for the first character of each sign.
    fn push_signs(self, text: &mut String, signs: Signs) -> Result<(), AllocError>
        ensures { OnOk result (string_bytes text.new ≡ string_bytes text.old ++ signs_told self.number signs) }
    {
        self.push_sign(text, Sign::Control, signs.control)?;
        self.push_sign(text, Sign::RightToLeft, signs.right_to_left)?;
        self.push_sign(text, Sign::Shaped, signs.shaped)?;
        self.push_sign(text, Sign::Joining, signs.joining)
    }

    /// Appends a line for a character with a sign, if there is one.
    fn push_sign(self, text: &mut String, sign: Sign, c: Option<char>) -> Result<(), AllocError>
        ensures { OnOk result (string_bytes text.new ≡ string_bytes text.old ++ sign_told self.number sign c) }
    {
        match c {
            None => Ok(()),
            Some(c) => text.push_str(&self.sign_line(sign, c)?),
        }
    }

    fn sign_line(self, sign: Sign, c: char) -> Result<String, AllocError>
        ensures { IfOk result (λ text. string_bytes text ≡ sign_line self.number sign c) }
    {
        let head = self.head()?;
        let code = c as u32;
        let words = sign_words(sign, c);
        format!(in self.alloc; "{head}U+{code:04X} {words}\n")
    }

    /// Whether these are the messages about the first picture of a call.
    fn is_first(self) -> bool
        ensures { result ≡ is_first self.number }
    {
        match self.number {
            None => true,
            Some(number) => number == 1,
        }
    }

    /// Appends the lines about the font behind the first picture.
    fn push_font(self, text: &mut String, font: &str) -> Result<(), AllocError>
        ensures { OnOk result (string_bytes text.new ≡ string_bytes text.old ++ font_told self.number font.now) }
    {
        if self.is_first() {
            text.push_str(font)?;
        }
        Ok(())
    }
}
