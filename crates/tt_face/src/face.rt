//! The tables of a face: those needed for every text, the glyphs' data, and the programs.

ghost use Rattle.std.specs.Prelude.{◌≡◌, ◌≤◌, length, option_map, IsTrue, IfOk, IfErr, OnOk};
ghost use Rattle.tt_core.specs.Directory.{file_directory, HasNo, PassesEnd};
ghost use Rattle.tt_core.specs.Limits.{font_limit};
ghost use Rattle.tt_core.specs.Outcomes.{Gives};
ghost use Rattle.tt_cmap.specs.Maps.{glyph_count};
ghost use Rattle.tt_metrics.specs.Metrics.{loca_format_of, glyphs_of};
ghost use Rattle.tt_face.specs.Defects.{IsGlyphTableDefect, HasProgramPastEnd};
ghost use Rattle.tt_face.specs.Faces.{finds_advances, glyphs_in, optional_table, programs_of};
ghost use Rattle.tt_face.specs.Listed.{variations_of};
ghost use Rattle.tt_face.specs.Names.{family_name_of, full_name_of, name_of};
ghost use Rattle.tt_face.specs.Programs.{program_tables};
ghost use Rattle.tt_face.specs.Rules.{ruled};
ghost use Rattle.tt_face.specs.Style.{style_of};
ghost use Rattle.tt_face.specs.Files.{face_of, face_by, face_with, IsFaceDefect, IsFaceDefectBy};
ghost use Rattle.tt_face.specs.Instance.{face_at_asked, face_at_coordinates, face_at_instance, IsDefectAtInstance, IsVariationDefect, LacksInstance};
ghost use Rattle.tt_face.specs.Views.{asked_view};

use crate::instance::{AskedInstance, FaceInstance, asked_coordinates};
use crate::names::{FAMILY_NAME, FULL_NAME, string_of, told_text};
use crate::programs::Programs;
use crate::rules::{LineRules, Opening, kerning_in, table_bytes};
use crate::style::style_of;
use std::alloc::{AllocError, Global};
use std::marker::Model;
use tt_axes::{Fvar, InstanceCoordinates};
use tt_cmap::{CharacterMap, Cmap};
use tt_core::{Dir, Fault, Reading};
use tt_deltas::Gvar;
use tt_glyf::{Glyf, Loca};
use tt_metrics::Metrics;
use tt_variation_store::{Hvar, Mvar};

/// The directory, the metrics and the character map of a font, and its instance if it is not the default. They borrow the
/// font's bytes.
#[derive(Drop)]
pub struct Face<'a> {
    dir: Dir<'a>,
    metrics: Metrics<'a>,
    cmap: CharacterMap<'a>,
    instance: Option<FaceInstance<'a>>,
}

impl<'a> Model for Face<'a> {
    ghost use Rattle.std.specs.Prelude.{◌≡◌};
    ghost use Rattle.tt_cmap.specs.Maps.{glyph_count};
    ghost use Rattle.tt_metrics.specs.Metrics.{glyphs_of};
    ghost use Rattle.tt_face.specs.Faces as faces;

    ghost Value = { faces.Face };

    ghost view = { λ f. record { directory = f.dir; metrics = f.metrics; cmap = f.cmap; instance = f.instance } };

    ghost invariant = { λ f. glyph_count f.cmap ≡ glyphs_of f.metrics };
}

impl<'a> Face<'a> {
    /// Opens the tables of a font file of at most 67,108,864 bytes. The glyphs' data and the programs are read when a
    /// line is drawn. Errors: those of the directory, of head, maxp, hhea and hmtx, and of cmap.
    #[tactic(auto, unfolding(crate::specs::Files::face_of))]
    pub fn open(file: &'a [u8]) -> Result<Face<'a>, Fault>
        requires { length file.now ≤ font_limit }
        ensures exact { Gives (λ f. f) result (face_of file.now) }
        ensures whole { IfOk result (λ f. f.directory ≡ file_directory file.now) }
        ensures sound { OnOk result (HasNo (IsFaceDefect file.now)) }
        ensures fault { IfErr result (IsFaceDefect file.now) }
    {
        let dir = Dir::open(file)?;
        let metrics = Metrics::open(&dir)?;
        let cmap = Cmap::open(dir.needed(*b"cmap")?, metrics.glyphs())?;
        Ok(Face {
            dir,
            metrics,
            cmap: CharacterMap::strict(cmap),
            instance: None,
        })
    }

    /// Opens the tables of the face that a reading asks for, in a file of at most 67,108,864 bytes. Errors: those of
    /// the directory and of its place, of head, maxp, hhea and hmtx, and of cmap.
    #[tactic(auto, unfolding(crate::specs::Files::face_by, crate::specs::Files::face_at))]
    pub fn read(file: &'a [u8], reading: Reading) -> Result<Face<'a>, Fault>
        requires { length file.now ≤ font_limit }
        ensures exact { Gives (λ f. f) result (face_by file.now reading) }
        ensures sound { OnOk result (HasNo (IsFaceDefectBy file.now reading)) }
        ensures fault { IfErr result (IsFaceDefectBy file.now reading) }
    {
        let dir = Dir::read(file, reading)?;
        let metrics = Metrics::open(&dir)?;
        let table = dir.needed(*b"cmap")?;
        let cmap = CharacterMap::open(table, metrics.glyphs(), reading)?;
        Ok(Face {
            dir,
            metrics,
            cmap,
            instance: None,
        })
    }

    /// Opens the tables of a face of a file of at most 67,108,864 bytes. Errors: as `read`.
    #[tactic(auto, unfolding(crate::specs::Files::face_with))]
    pub fn read_with(file: &'a [u8], opening: Opening) -> Result<Face<'a>, Fault>
        requires { length file.now ≤ font_limit }
        ensures exact { Gives (λ f. f) result (face_with file.now opening) }
        ensures sound { OnOk result (HasNo (IsFaceDefectBy file.now opening.reading)) }
        ensures fault { IfErr result (IsFaceDefectBy file.now opening.reading) }
    {
        let mut face = Face::read(file, opening.reading)?;
        face.set_rules(opening.rules);
        Ok(face)
    }

    /// Opens the tables of a face of a file at an instance, if one is asked for. Errors: as `read`; then those of fvar,
    /// NoInstance and NoAxis, and at an instance that is not the default those of gvar's header.
    #[tactic(auto, unfolding(crate::specs::Instance::face_at_instance))]
    pub fn read_at(
        file: &'a [u8],
        opening: Opening,
        instance: Option<AskedInstance>,
    ) -> Result<Face<'a>, Fault>
        requires { length file.now ≤ font_limit }
        ensures exact { Gives (λ f. f) result (face_at_instance file.now opening (option_map asked_view instance.entry)) }
        ensures sound { OnOk result (HasNo (IsDefectAtInstance file.now opening (option_map asked_view instance.entry))) }
        ensures fault { IfErr result (IsDefectAtInstance file.now opening (option_map asked_view instance.entry)) }
    {
        let mut face = Face::read(file, opening.reading)?;
        face.set_instance(instance)?;
        face.set_rules(opening.rules);
        Ok(face)
    }

    /// Moves the face of the font's default to an instance, if one is asked for. Of an error nothing is known but the
    /// fault.
    fn set_instance(&mut self, asked: Option<AskedInstance>) -> Result<(), Fault>
        ensures exact { Gives (λ u. self.new) result (face_at_asked self.old (option_map asked_view asked.entry)) }
        ensures sound { OnOk result (HasNo (LacksInstance self.old (option_map asked_view asked.entry))) }
        ensures fault { IfErr result (LacksInstance self.old (option_map asked_view asked.entry)) }
    {
        match asked {
            Some(asked) => {
                let coordinates = asked_coordinates(&self.dir, asked)?;
                self.set_coordinates(&coordinates)?;
                Ok(())
            }
            None => Ok(()),
        }
    }

    /// Moves the face of the font's default to coordinates. Where all are 0, the face stays.
    #[tactic(auto, unfolding(crate::specs::Instance::face_at_coordinates))]
    fn set_coordinates(&mut self, coordinates: &InstanceCoordinates) -> Result<(), Fault>
        ensures exact { Gives (λ u. self.new) result (face_at_coordinates self.old coordinates.now) }
        ensures sound { OnOk result (HasNo (IsVariationDefect self.old.directory coordinates.now)) }
        ensures fault { IfErr result (IsVariationDefect self.old.directory coordinates.now) }
    {
        if coordinates.are_zero() {
            return Ok(());
        }
        let axes = coordinates.count();
        let gvar = Gvar::open(&self.dir, axes)?;
        let hvar = Hvar::open(table_bytes(&self.dir, *b"HVAR"), axes);
        let mvar = Mvar::open(table_bytes(&self.dir, *b"MVAR"), axes);
        let cvar = table_bytes(&self.dir, *b"cvar");
        self.metrics.set_instance(&mvar, hvar, coordinates);
        self.instance = Some(FaceInstance::new(coordinates, gvar, cvar));
        Ok(())
    }

    /// The face's instance, if it is not the default.
    pub fn instance(&self) -> &Option<FaceInstance<'a>>
        ensures { result.now ≡ self.now.instance }
    {
        &self.instance
    }

    /// Whether advances come from the phantom points of glyphs: at an instance of a font without HVAR.
    pub fn finds_advances(&self) -> bool
        ensures { result ≡ finds_advances self.now }
    {
        self.instance.is_some() && !self.metrics.has_varied_advances()
    }

    /// The axes and the named instances of a variable font. None where fvar is missing or has a defect.
    pub fn variations(&self) -> Option<Fvar<'a>>
        ensures { result ≡ variations_of self.now.directory }
    {
        match Fvar::open(&self.dir) {
            Ok(fvar) => Some(fvar),
            Err(_) => None,
        }
    }

    /// Lays lines out by these rules from now on. A face that is opened has exact heights, and no pair is kerned. The
    /// tables GPOS and kern are read with kerning alone, and no defect of theirs is an error.
    #[tactic(auto, unfolding(crate::specs::Rules::ruled))]
    pub fn set_rules(&mut self, rules: LineRules)
        ensures { self.new ≡ ruled rules self.old }
    {
        let kerning = if rules.kerned {
            Some(kerning_in(&self.dir, &self.instance))
        } else {
            None
        };
        self.metrics.set_heights(rules.heights);
        self.metrics.set_kerning(kerning);
    }

    /// The units per em, the ascent and the descent, the glyph count and the advances.
    pub fn metrics(&self) -> &Metrics<'a>
        ensures { result.now ≡ self.now.metrics }
    {
        &self.metrics
    }

    /// The map from characters to glyphs.
    pub fn cmap(&self) -> &CharacterMap<'a>
        ensures exact { result.now ≡ self.now.cmap }
        ensures glyphs { glyph_count result.now ≡ glyphs_of self.now.metrics }
    {
        &self.cmap
    }

    /// loca and glyf. Errors: NoTable, TableRange, LocaShort.
    #[tactic(auto, unfolding(crate::specs::Faces::glyphs_in))]
    pub fn glyf(&self) -> Result<Glyf<'a>, Fault>
        ensures exact { Gives (λ t. t) result (glyphs_in self.now) }
        ensures format { IfOk result (λ t. t.format ≡ loca_format_of self.now.metrics) }
        ensures glyphs { IfOk result (λ t. t.glyphs ≡ glyphs_of self.now.metrics) }
        ensures sound { OnOk result (HasNo (IsGlyphTableDefect self.now)) }
        ensures fault { IfErr result (IsGlyphTableDefect self.now) }
    {
        // A short loca is reported before a missing glyf.
        let loca = Loca::open(self.dir.needed(*b"loca")?, &self.metrics)?;
        Ok(Glyf::of(loca, self.dir.needed(*b"glyf")?))
    }

    /// The face's full name in ASCII: at most 64 characters, none where the table of names has a defect. Error: memory ran
    /// out.
    #[tactic(auto, unfolding(crate::specs::Names::full_name_of))]
    pub fn full_name(&self, alloc: Global) -> Result<Vec<u8>, AllocError>
        ensures { IfOk result (λ name. name.items ≡ full_name_of self.now.directory) }
    {
        told_text(alloc, string_of(&self.dir, FULL_NAME))
    }

    /// The name with this number, as `full_name` has it. Error: memory ran out.
    #[tactic(auto, unfolding(crate::specs::Names::name_of))]
    pub fn name(&self, alloc: Global, id: u16) -> Result<Vec<u8>, AllocError>
        ensures { IfOk result (λ name. name.items ≡ name_of id self.now.directory) }
    {
        told_text(alloc, string_of(&self.dir, id))
    }

    /// The name of the face's family, as `full_name` has it. Error: memory ran out.
    #[tactic(auto, unfolding(crate::specs::Names::family_name_of))]
    pub fn family_name(&self, alloc: Global) -> Result<Vec<u8>, AllocError>
        ensures { IfOk result (λ name. name.items ≡ family_name_of self.now.directory) }
    {
        told_text(alloc, string_of(&self.dir, FAMILY_NAME))
    }

    /// macStyle of head, which says whether the face is bold or italic.
    pub fn style(&self) -> u16
        ensures { result ≡ style_of self.now.directory }
    {
        style_of(&self.dir)
    }

    /// The control values and the two programs. Error: TableRange, of the first table in this order.
    #[tactic(auto, unfolding(crate::specs::Faces::programs_of))]
    pub fn programs(&self) -> Result<Programs<'a>, Fault>
        ensures exact { Gives program_tables result (programs_of self.now.directory) }
        ensures fpgm { IfOk result (λ p. length p.fpgm.now ≤ font_limit) }
        ensures prep { IfOk result (λ p. length p.prep.now ≤ font_limit) }
        ensures sound { OnOk result (HasNo (HasProgramPastEnd self.now.directory)) }
        ensures fault { IfErr result (HasProgramPastEnd self.now.directory) }
    {
        let cvt = self.optional(*b"cvt ")?;
        let fpgm = self.optional(*b"fpgm")?;
        let prep = self.optional(*b"prep")?;
        Ok(Programs { cvt, fpgm, prep })
    }

    /// The bytes of a table, none where the font lacks it. Error: TableRange.
    #[tactic(auto, unfolding(crate::specs::Faces::optional_table))]
    fn optional(&self, tag: [u8; 4]) -> Result<&'a [u8], Fault>
        ensures exact { Gives (λ table. table.now) result (optional_table self.now.directory tag) }
        ensures size { IfOk result (λ table. length table.now ≤ font_limit) }
        ensures sound { OnOk result (HasNo (PassesEnd self.now.directory tag)) }
        ensures fault { IfErr result (PassesEnd self.now.directory tag) }
    {
        match self.dir.table(tag)? {
            Some(table) => Ok(table),
            None => Ok(&[]),
        }
    }
}
