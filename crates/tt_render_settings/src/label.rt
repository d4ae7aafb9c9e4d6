//! How labels are drawn, and why they are not.

use crate::setting::Setting;
use crate::space::Space;
use tt_advice::Hint;
use tt_line::Align;
use tt_render_texts::{PictureFormat, TextsFault};

/// How the lines of a text are drawn in one picture for people.
#[derive(Clone, Copy)]
pub struct Label<'a> {
    /// The picture is that of all lines, enlarged so that no ink is cut, but for that at the sides of a given width: the fields `grow` and `product` are not used.
    /// In a box `ppem` is the greatest size to try.
    /// `most` is the limit of glyphs that are cached from label to label.
    pub setting: Setting<'a>,
    /// The side at which the lines begin or end.
    pub align: Align,
    /// The space that each picture has to have.
    pub space: Space,
    /// The path of the font, as it is reported.
    pub path: &'a str,
    /// Whether a face was requested.
    pub face_given: bool,
    pub format: PictureFormat,
}

/// The answer of a call that draws labels, with the fault of the first line that was refused and passed over; and the
/// report to a person of the font's file, where the font is refused.
#[derive(Drop)]
pub struct LabelsDrawn {
    pub answer: Result<Option<TextsFault>, TextsFault>,
    pub hint: Option<Hint>,
}

/// The answer of a call that writes a file by a font, and the report to a person of the font's file, where the font is
/// refused.
#[derive(Drop)]
pub struct Labelled {
    pub answer: Result<(), TextsFault>,
    pub hint: Option<Hint>,
}
