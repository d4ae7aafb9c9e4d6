//! How the lines of a face are laid out. OpenType, "GPOS: Glyph Positioning Table" and "kern: Kerning".

ghost use Rattle.std.specs.Prelude.{◌≡◌, ◌≤◌, length};
ghost use Rattle.tt_core.specs.Limits.{font_limit};
ghost use Rattle.tt_face.specs.Rules.{kerning_tables, pair_variation, plain_opening, table_bytes};

use crate::instance::FaceInstance;
use tt_core::{Dir, Reading};
use tt_kern::{Kerning, PairVariation};
use tt_metrics::Heights;
use tt_variation_store::gdef_store;

/// How the lines of a face are laid out, beside its size and its margin.
#[derive(Clone, Copy, Debug, PartialEq, Eq)]
pub struct LineRules {
    /// How ascent and descent are rounded.
    pub heights: Heights,
    /// Whether neighbouring glyphs are kerned.
    pub kerned: bool,
}

/// How a face of a font's file is opened.
#[derive(Clone, Copy, Debug, PartialEq, Eq)]
pub struct Opening {
    /// Which face, and how the font's file is read.
    pub reading: Reading,
    /// How the face's lines are laid out.
    pub rules: LineRules,
}

impl Opening {
    /// Opens a face by a reading. Its heights are exact, and no pair is kerned.
    pub fn plain(reading: Reading) -> Opening
        ensures { result ≡ plain_opening reading }
    {
        let rules = LineRules {
            heights: Heights::Exact,
            kerned: false,
        };
        Opening { reading, rules }
    }
}

/// The bytes of a table, none where the font lacks the table or where it passes the end of the file (profile).
#[tactic(auto, unfolding(crate::specs::Rules::table_bytes))]
pub(crate) fn table_bytes<'a>(dir: &Dir<'a>, tag: [u8; 4]) -> &'a [u8]
    ensures exact { result.now ≡ table_bytes dir.now tag }
    ensures size { length result.now ≤ font_limit }
{
    match dir.table(tag) {
        Ok(Some(table)) => table,
        _ => &[],
    }
}

/// How the values of GPOS vary with an instance. No defect of GDEF is an error.
fn pair_variation<'a>(dir: &Dir<'a>, instance: &Option<FaceInstance<'a>>) -> PairVariation<'a>
    ensures { result ≡ pair_variation dir.now instance.now }
{
    match instance {
        Some(instance) => {
            let coordinates = instance.coordinates();
            let store = gdef_store(table_bytes(dir, *b"GDEF"), coordinates.count());
            PairVariation::new(store, coordinates)
        }
        None => PairVariation::none(),
    }
}

/// The kerning of a font at an instance. No defect of its tables is an error.
pub(crate) fn kerning_in<'a>(dir: &Dir<'a>, instance: &Option<FaceInstance<'a>>) -> Kerning<'a>
    ensures { result ≡ kerning_tables dir.now instance.now }
{
    let mut kerning = Kerning::open(table_bytes(dir, *b"GPOS"), table_bytes(dir, *b"kern"));
    kerning.set_variation(pair_variation(dir, instance));
    kerning
}
