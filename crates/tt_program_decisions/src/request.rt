//! The request of a command line.

ghost use Rattle.std.specs.Prelude.{◌≡◌, ◌≢◌, ℕ, Bool, List, Option, None, codes, option_map};
ghost use Rattle.tt_render_settings.specs.declared.setting.Product.TheVariants.{Measure, Picture};
ghost use Rattle.tt_program_decisions.specs.Instances.{request_at};
ghost use Rattle.tt_program_decisions.specs.Requests.{AsksBdf, AsksDrawing, AsksLabel, AsksMap, AsksMeasure, AsksPlainSetting, AsksSetting, asked_of, faces_asked, fit_named, font_of, missing_named, output_of, without_ink};

use crate::bdf::{BdfRequest, bdf_of};
use crate::labelling::{LabelOptions, labelling_of};
use crate::rules::rules_of;
use tt_core::Reading;
use tt_face::{AskedInstance, Opening};
use tt_fit::Fit;
use tt_program_words::{BEST, DRAW, FALLBACK, FULL, NONE, REFUSE, TELL};
use tt_render_settings::{Missing, Product, Setting};
use tt_render_texts::{fit_reading, reading_asked};

/// The request of a command line.
#[derive(Clone, Copy)]
pub enum Request<'a> {
    /// Write each character's code point, glyph and advance.
    Map {
        font: &'a str,
        text: &'a str,
        reading: Reading,
        /// The instance of a variable font, if one is requested. Other requests have theirs in a setting or in options.
        instance: Option<AskedInstance<'a>>,
    },
    /// Write the number of the font file's faces, a line for each, and lines of its axes and named instances.
    Faces {
        font: &'a str,
    },
    /// Draw a line of text, or report its measures.
    Text {
        font: &'a str,
        text: &'a str,
        setting: Setting<'a>,
    },
    /// Draw each line of standard input, or report its measures.
    Lines {
        font: &'a str,
        setting: Setting<'a>,
    },
    /// Report the measures of a line of text without its ink.
    Layout {
        font: &'a str,
        text: &'a str,
        setting: Setting<'a>,
    },
    /// Draw a text for people.
    Label {
        font: &'a str,
        text: &'a str,
        options: LabelOptions<'a>,
        /// The name of the file that takes the picture.
        output: Option<&'a str>,
    },
    /// Draw each line of standard input for people.
    Labels {
        font: &'a str,
        options: LabelOptions<'a>,
        /// The name of the files that take the pictures, with `%d` for the number of a line.
        output: Option<&'a str>,
    },
    /// Write a bitmap font.
    Bdf(BdfRequest<'a>),
}

impl<'a> Request<'a> {
    /// The path of the font.
    pub fn font(&self) -> &'a str
        ensures { result.now ≡ font_of self.now }
    {
        match self {
            Request::Map { font, .. }
            | Request::Faces { font }
            | Request::Text { font, .. }
            | Request::Lines { font, .. }
            | Request::Layout { font, .. }
            | Request::Label { font, .. }
            | Request::Labels { font, .. } => font,
            Request::Bdf(asked) => asked.font,
        }
    }

    /// The name of the files that take the pictures, if there is one.
    pub fn output(&self) -> Option<&'a str>
        ensures { option_map (λ s. s.now) result ≡ output_of self.now }
    {
        match self {
            Request::Label { output, .. } | Request::Labels { output, .. } => *output,
            Request::Map { .. }
            | Request::Faces { .. }
            | Request::Text { .. }
            | Request::Lines { .. }
            | Request::Layout { .. }
            | Request::Bdf(_) => None,
        }
    }

    /// The same request at an instance. The faces of a file are told without one.
    pub fn at(self, instance: Option<AskedInstance<'a>>) -> Request<'a>
        ensures { result ≡ request_at self.entry instance.entry }
    {
        let mut request = self;
        match &mut request {
            Request::Map {
                instance: place,
                ..
            } => *place = instance,
            Request::Faces { .. } => {}
            Request::Text { setting, .. } => setting.instance = instance,
            Request::Lines { setting, .. } => setting.instance = instance,
            Request::Layout { setting, .. } => setting.instance = instance,
            Request::Label { options, .. } => options.instance = instance,
            Request::Labels { options, .. } => options.instance = instance,
            Request::Bdf(asked) => asked.instance = instance,
        }
        request
    }
}

/// The arguments of a subcommand by their names, as a parser of command lines found them.
pub trait Arguments<'a> {
    // The text of a name.
    ghost text: { Self → List ℕ → Option (List ℕ) };

    // Whether this is the number of a name, None where the name has no number.
    ghost IsNumber: { Self → List ℕ → Option ℕ → Type 0 };

    // Whether this Boolean is the flag of a name.
    ghost IsFlag: { Self → List ℕ → Bool → Type 0 };

    /// The text of a name, if it has one.
    fn text_for(&self, name: &str) -> Option<&'a str>
        ensures { option_map (λ s. s.now) result ≡ text self.now name.now };

    /// The number of a name, if it has one.
    fn number_for(&self, name: &str) -> Option<u32>
        ensures { IsNumber self.now name.now result };

    /// Whether the flag of a name is set.
    fn is_set(&self, name: &str) -> bool
        ensures { IsFlag self.now name.now result };
}

/// The request of a subcommand with these arguments. None where the subcommand is unknown, an argument is absent, or a
/// text accompanies standard input's lines. None also for an unknown way to fit or treatment of missing glyphs, and for
/// measures without ink of lines or of a picture that grows.
pub fn request_of<'a, A: Arguments<'a>>(subcommand: &str, arguments: &A) -> Option<Request<'a>>
    ensures map { subcommand.now ≡ codes "map" → AsksMap (A.text arguments.now) (A.IsNumber arguments.now) (option_map asked_of result) }
    ensures faces { subcommand.now ≡ codes "faces" → option_map asked_of result ≡ faces_asked (A.text arguments.now (codes "FONT")) }
    ensures draw { subcommand.now ≡ codes "draw" → AsksDrawing (A.text arguments.now) (A.IsNumber arguments.now) (A.IsFlag arguments.now) Picture (option_map asked_of result) }
    ensures measure { subcommand.now ≡ codes "measure" → AsksMeasure (A.text arguments.now) (A.IsNumber arguments.now) (A.IsFlag arguments.now) (option_map asked_of result) }
    ensures label { subcommand.now ≡ codes "label" → AsksLabel (A.text arguments.now) (A.IsNumber arguments.now) (A.IsFlag arguments.now) (option_map asked_of result) }
    ensures bdf { subcommand.now ≡ codes "bdf" → AsksBdf (A.text arguments.now) (A.IsNumber arguments.now) (option_map asked_of result) }
    ensures other { subcommand.now ≢ codes "map" → subcommand.now ≢ codes "faces" → subcommand.now ≢ codes "draw" → subcommand.now ≢ codes "measure" → subcommand.now ≢ codes "label" → subcommand.now ≢ codes "bdf" → result ≡ None }
{
    match subcommand {
        "map" => map_of(arguments),
        "faces" => faces_of(arguments.text_for("FONT")),
        "draw" => drawing_of(arguments, Product::Picture),
        "measure" => measuring_of(arguments),
        "label" => labelling_of(arguments),
        "bdf" => bdf_of(arguments),
        _ => None,
    }
}

/// The request `draw OPTION.. FONT TEXT` or `draw OPTION.. --lines FONT`, or the same of `measure`, where its words and
/// options are present.
fn drawing_of<'a, A: Arguments<'a>>(arguments: &A, product: Product) -> Option<Request<'a>>
    ensures { AsksDrawing (A.text arguments.now) (A.IsNumber arguments.now) (A.IsFlag arguments.now) product (option_map asked_of result) }
{
    let text = arguments.text_for("TEXT");
    let lines = arguments.is_set("lines");
    let setting = ruled_setting_of(arguments, product);
    let font = arguments.text_for("FONT")?;
    let setting = setting?;
    match text {
        Some(text) => {
            if lines {
                return None;
            }
            Some(Request::Text {
                font,
                text,
                setting,
            })
        }
        None => {
            if !lines {
                return None;
            }
            Some(Request::Lines { font, setting })
        }
    }
}

/// The request of `measure`, by the request of the measure with ink and by the flag `--no-ink`.
fn measuring_of<'a, A: Arguments<'a>>(arguments: &A) -> Option<Request<'a>>
    ensures { AsksMeasure (A.text arguments.now) (A.IsNumber arguments.now) (A.IsFlag arguments.now) (option_map asked_of result) }
{
    let asked = drawing_of(arguments, Product::Measure);
    let bare = arguments.is_set("no-ink");
    if bare { without_ink(asked?) } else { asked }
}

/// The request of the same measure without ink. None for lines, and for a picture that grows: only ink makes it grow.
fn without_ink<'a>(asked: Request<'a>) -> Option<Request<'a>>
    ensures { option_map asked_of result ≡ without_ink (asked_of asked.entry) }
{
    match asked {
        Request::Text {
            font,
            text,
            setting,
        } => {
            if setting.grow {
                return None;
            }
            Some(Request::Layout {
                font,
                text,
                setting,
            })
        }
        Request::Map { .. }
        | Request::Faces { .. }
        | Request::Lines { .. }
        | Request::Layout { .. }
        | Request::Label { .. }
        | Request::Labels { .. }
        | Request::Bdf(_) => None,
    }
}

/// The request `map [--face N] FONT TEXT`, where both words are present.
fn map_of<'a, A: Arguments<'a>>(arguments: &A) -> Option<Request<'a>>
    ensures { AsksMap (A.text arguments.now) (A.IsNumber arguments.now) (option_map asked_of result) }
{
    let font = arguments.text_for("FONT");
    let text = arguments.text_for("TEXT");
    let face = arguments.number_for("face");
    Some(Request::Map {
        font: font?,
        text: text?,
        reading: reading_asked(face, Reading::Strict),
        instance: None,
    })
}

/// The request `faces FONT`, where the word is present.
fn faces_of<'a>(font: Option<&'a str>) -> Option<Request<'a>>
    ensures { option_map asked_of result ≡ faces_asked (option_map (λ s. s.now) font.entry) }
{
    Some(Request::Faces { font: font? })
}

/// The limit of the cache of glyphs from line to line, in bytes. All letters of a Latin font at the largest size fit,
/// and some thousand glyphs at a usual one.
pub const GLYPHS_KEPT: usize = 4_194_304;

/// The setting of `setting_of`, with the rules of lines of `rules_of`. None where one of the two is none.
fn ruled_setting_of<'a, A: Arguments<'a>>(arguments: &A, product: Product) -> Option<Setting<'a>>
    ensures { AsksSetting (A.text arguments.now) (A.IsNumber arguments.now) (A.IsFlag arguments.now) product result }
{
    let setting = setting_of(arguments, product);
    let rules = rules_of(arguments);
    let setting = setting?;
    Some(Setting {
        opening: Opening {
            reading: setting.opening.reading,
            rules: rules?,
        },
        ..setting
    })
}

/// The setting of `--size SIZE --margin MARGIN --fit FIT --missing MISSING` for a product, where all are present, of
/// `--face FACE`, which may be absent, and of `--keep-going`. Heights are exact, no pair is kerned, and there is no
/// instance. None where the name of the way to fit, or of the treatment of missing glyphs, is unknown.
fn setting_of<'a, A: Arguments<'a>>(arguments: &A, product: Product) -> Option<Setting<'a>>
    ensures { AsksPlainSetting (A.text arguments.now) (A.IsNumber arguments.now) (A.IsFlag arguments.now) product result }
{
    let size = arguments.number_for("size");
    let margin = arguments.number_for("margin");
    let fit = arguments.text_for("fit");
    let missing = arguments.text_for("missing");
    let grow = arguments.is_set("grow");
    let face = arguments.number_for("face");
    let keep_going = arguments.is_set("keep-going");
    let strict = Setting {
        ppem: size?,
        margin: margin?,
        fit: fit_named(fit?)?,
        opening: Opening::plain(Reading::Strict),
        missing: missing_named(missing?)?,
        grow,
        product,
        most: GLYPHS_KEPT,
        keep_going,
        instance: None,
    };
    Some(Setting {
        opening: Opening::plain(reading_asked(face, fit_reading(strict.fit))),
        ..strict
    })
}

/// The way to fit that has this name.
pub fn fit_named(name: &str) -> Option<Fit>
    ensures { result ≡ fit_named name.now }
{
    match name {
        FULL => Some(Fit::Full),
        NONE => Some(Fit::None),
        FALLBACK => Some(Fit::Fallback),
        BEST => Some(Fit::Best),
        _ => None,
    }
}

/// The treatment of characters without a glyph that has this name.
pub fn missing_named(name: &str) -> Option<Missing>
    ensures { result ≡ missing_named name.now }
{
    match name {
        DRAW => Some(Missing::Draw),
        TELL => Some(Missing::Tell),
        REFUSE => Some(Missing::Refuse),
        _ => None,
    }
}
