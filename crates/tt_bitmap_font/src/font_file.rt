//! A request: a font at a size as a file.

ghost use Rattle.std.specs.Prelude.{◌≡◌, ◌≤◌, OnOk};
ghost use Rattle.tt_bitmap_font.specs.FontFiles.{asked_tested, opening_of, setting_of};
ghost use Rattle.tt_core.specs.Limits.{size_limit};
ghost use Rattle.tt_core.specs.Outcomes.{Gives};

use tt_bdf::CodeRange;
use tt_core::{JobFault, Reading};
use tt_face::{AskedInstance, Heights, LineRules, Opening};
use tt_fit::Fit;
use tt_render_settings::Setting;
use tt_strike::test_job;

/// A font at a size, and the characters of its file.
#[derive(Clone, Copy)]
pub struct FontFile<'a> {
    /// Pixels per em, 1 to 300.
    pub size: u32,
    pub fit: Fit,
    /// The number of the face. The font's file is read as with `Reading::Wide`.
    pub face: u32,
    /// How the file's ascent and descent are rounded.
    pub heights: Heights,
    /// Ranges of code points, beside those of the text.
    pub ranges: &'a [CodeRange],
    /// The text, whose characters are wanted too; empty where there is none.
    pub text: &'a str,
    /// The path of the font, as it is reported.
    pub path: &'a str,
    /// Whether a face was requested.
    pub face_given: bool,
    /// The instance of a variable font, if one is requested.
    pub instance: Option<AskedInstance<'a>>,
}

impl<'a> FontFile<'a> {
    /// How the face is opened. No pair of glyphs is kerned, since a file has each glyph alone.
    pub(crate) fn opening(&self) -> Opening
        ensures { result ≡ opening_of self.now }
    {
        let rules = LineRules {
            heights: self.heights,
            kerned: false,
        };
        Opening {
            reading: Reading::Wide { face: self.face },
            rules,
        }
    }

    /// The setting that draws texts with the file's glyphs.
    pub(crate) fn setting(&self) -> Setting<'a>
        ensures { result ≡ setting_of self.now }
    {
        Setting {
            instance: self.instance,
            ..Setting::plain(self.size, 0, self.fit, self.opening())
        }
    }

    /// Tests the request before the font is read. Errors, the first of: SizeRange, TextLong.
    pub(crate) fn test(&self) -> Result<(), JobFault>
        ensures exact { Gives (λ u. u) result (asked_tested self.now) }
        ensures small { OnOk result (self.now.size ≤ size_limit) }
    {
        let setting = self.setting();
        test_job(&setting.job(self.text))
    }
}
