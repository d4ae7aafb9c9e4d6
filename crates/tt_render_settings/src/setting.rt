//! How texts are drawn.

ghost use Rattle.std.specs.Prelude.{◌≡◌};
ghost use Rattle.tt_core.specs.Outcomes.{Gives};
ghost use Rattle.tt_render_settings.specs.Settings.{axes_in, job_by, plain_setting, setting_tested};
ghost use Rattle.tt_strike.specs.Job.{job_view};

use tt_axes::AxisValue;
use tt_core::JobFault;
use tt_face::{AskedInstance, Opening};
use tt_fit::Fit;
use tt_strike::{Job, test_job};

/// What happens to a character without a glyph.
#[derive(Clone, Copy, Debug, PartialEq, Eq)]
pub enum Missing {
    /// Glyph 0, mostly a box, is drawn, and nothing is reported.
    Draw,
    /// Glyph 0 is drawn, and each such character is reported once.
    Tell,
    /// The text is refused for the first such character.
    Refuse,
}

/// The output for a text.
#[derive(Clone, Copy, Debug, PartialEq, Eq)]
pub enum Product {
    /// Its picture.
    Picture,
    /// The places of its picture's base line, ink and characters, as lines of text.
    Measure,
}

/// How texts are drawn.
#[derive(Clone, Copy)]
pub struct Setting<'i> {
    /// Pixels per em, 1 to 300.
    pub ppem: u32,
    /// Pixels round each line, 0 to 64.
    pub margin: u32,
    pub fit: Fit,
    /// Which face draws, how the font's file is read, and how lines are laid out.
    pub opening: Opening,
    pub missing: Missing,
    /// Whether the picture has the fewest columns and rows more on each side such that no ink is cut.
    pub grow: bool,
    pub product: Product,
    /// The most bytes of glyphs cached from line to line.
    pub most: usize,
    /// Whether the lines behind a refused line are drawn.
    pub keep_going: bool,
    /// The instance of a variable font, if one is requested.
    pub instance: Option<AskedInstance<'i>>,
}

impl<'i> Setting<'i> {
    /// The setting by which `run` draws: glyph 0 in place of a missing one, the picture as it is, no cached glyphs, and
    /// no instance.
    pub fn plain(ppem: u32, margin: u32, fit: Fit, opening: Opening) -> Setting<'i>
        ensures { result ≡ plain_setting ppem margin fit opening }
    {
        Setting {
            ppem,
            margin,
            fit,
            opening,
            missing: Missing::Draw,
            grow: false,
            product: Product::Picture,
            most: 0,
            keep_going: false,
            instance: None,
        }
    }

    /// The values that the setting gives to axes, none without an instance.
    pub fn axes(&self) -> &'i [AxisValue]
        ensures { result.now ≡ axes_in self.now }
    {
        match self.instance {
            Some(asked) => asked.axes,
            None => &[],
        }
    }

    /// The job of a text. Jobs are made here alone.
    pub fn job<'t>(&self, text: &'t str) -> Job<'t>
        ensures exact { job_view result ≡ job_by self.now text.now }
        ensures opening { result.opening ≡ self.now.opening }
    {
        Job {
            text,
            ppem: self.ppem,
            margin: self.margin,
            fit: self.fit,
            opening: self.opening,
        }
    }
}

/// Tests a setting. Errors, the first of: SizeRange, MarginRange.
pub fn test_setting(setting: &Setting) -> Result<(), JobFault>
    ensures { Gives (λ u. u) result (setting_tested setting.now) }
{
    // The tests of a job are reused: an empty text is never too long.
    test_job(&setting.job(""))
}
