//! The request `label`: its options, and how they say that a label is drawn.

ghost use Rattle.std.specs.Prelude.{◌≡◌, option_map};
ghost use Rattle.tt_program_decisions.specs.Requests.{AsksLabel, AsksLabelOptions, IsLabelFor, align_named, asked_of, size_asked};

use crate::output::format_asked;
use crate::request::{Arguments, GLYPHS_KEPT, Request, fit_named, missing_named};
use crate::rules::rules_of;
use tt_core::{Reading, SIZE_LIMIT};
use tt_face::{AskedInstance, LineRules, Opening};
use tt_fit::Fit;
use tt_program_words::{CENTRE, LEFT, RIGHT};
use tt_render_settings::{Align, Label, Missing, Product, Setting, Space};
use tt_render_texts::{PictureFormat, reading_asked};

/// The options of `label`.
#[derive(Clone, Copy)]
pub struct LabelOptions<'a> {
    /// The size, or in a box the greatest size to try.
    pub size: u32,
    pub margin: u32,
    pub align: Align,
    /// The space that each picture has to have.
    pub space: Space,
    pub fit: Fit,
    pub missing: Missing,
    /// The number of the face, if one is requested.
    pub face: Option<u32>,
    pub rules: LineRules,
    /// Whether the lines behind a refused line are drawn.
    pub keep_going: bool,
    pub format: PictureFormat,
    /// The instance of a variable font, if one is requested.
    pub instance: Option<AskedInstance<'a>>,
}

/// The request `label OPTION.. FONT TEXT` or `label OPTION.. --lines FONT`, where its words and options are present.
pub(crate) fn labelling_of<'a, A: Arguments<'a>>(arguments: &A) -> Option<Request<'a>>
    ensures { AsksLabel (A.text arguments.now) (A.IsNumber arguments.now) (A.IsFlag arguments.now) (option_map asked_of result) }
{
    let text = arguments.text_for("TEXT");
    let lines = arguments.is_set("lines");
    let output = arguments.text_for("output");
    let options = label_options_of(arguments);
    let font = arguments.text_for("FONT")?;
    let options = options?;
    match text {
        Some(text) => {
            if lines {
                return None;
            }
            Some(Request::Label {
                font,
                text,
                options,
                output,
            })
        }
        None => {
            if !lines {
                return None;
            }
            Some(Request::Labels {
                font,
                options,
                output,
            })
        }
    }
}

/// The options `--size SIZE --margin MARGIN --align ALIGN --fit FIT --missing MISSING`, where all are present, and
/// `--face FACE`, `--width WIDTH` and `--box WxH`, which may be absent, with the rules of `rules_of`; and `--keep-going`,
/// `--png` and `--output FILE`, without an instance. With `--box` `--size` may be absent too. None where there are no
/// rules, where the words of the box are of another form, or where the name of a side, of the way to fit, or of the
/// treatment of missing glyphs, is unknown.
fn label_options_of<'a, A: Arguments<'a>>(arguments: &A) -> Option<LabelOptions<'a>>
    ensures { AsksLabelOptions (A.text arguments.now) (A.IsNumber arguments.now) (A.IsFlag arguments.now) result }
{
    let space = Space::asked(arguments.number_for("width"), arguments.text_for("box"));
    let size = size_asked(arguments.number_for("size"), space);
    let margin = arguments.number_for("margin");
    let align = arguments.text_for("align");
    let fit = arguments.text_for("fit");
    let missing = arguments.text_for("missing");
    let face = arguments.number_for("face");
    let rules = rules_of(arguments);
    let keep_going = arguments.is_set("keep-going");
    let png = arguments.is_set("png");
    let format = format_asked(png, arguments.text_for("output"));
    Some(LabelOptions {
        size: size?,
        margin: margin?,
        align: align_named(align?)?,
        space: space?,
        fit: fit_named(fit?)?,
        missing: missing_named(missing?)?,
        face,
        rules: rules?,
        keep_going,
        format,
        instance: None,
    })
}

/// The size of a label, or the greatest size to try in a box, which may be absent.
fn size_asked(size: Option<u32>, space: Option<Space>) -> Option<u32>
    ensures { result ≡ size_asked size space }
{
    match size {
        Some(size) => Some(size),
        None => match space {
            Some(Space::Box(_)) => Some(SIZE_LIMIT),
            _ => None,
        },
    }
}

/// The side that has this name.
pub fn align_named(name: &str) -> Option<Align>
    ensures { result ≡ align_named name.now }
{
    match name {
        LEFT => Some(Align::Left),
        CENTRE => Some(Align::Centre),
        RIGHT => Some(Align::Right),
        _ => None,
    }
}

/// How a label with these options is drawn by the font of a path.
pub(crate) fn label_for<'a>(path: &'a str, options: &LabelOptions<'a>) -> Label<'a>
    ensures { IsLabelFor path.now options.now result }
{
    let setting = Setting {
        ppem: options.size,
        margin: options.margin,
        fit: options.fit,
        opening: Opening {
            reading: reading_asked(options.face, Reading::Wide { face: 0 }),
            rules: options.rules,
        },
        missing: options.missing,
        grow: true,
        product: Product::Picture,
        most: GLYPHS_KEPT,
        keep_going: options.keep_going,
        instance: options.instance,
    };
    Label {
        setting,
        align: options.align,
        space: options.space,
        path,
        face_given: options.face.is_some(),
        format: options.format,
    }
}
