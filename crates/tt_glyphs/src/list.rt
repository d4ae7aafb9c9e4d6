//! The bitmaps of a list of glyph numbers at one size: an entry for each number, and the rows.

ghost use Rattle.std.specs.Prelude.{◌≡◌, ℕ, ◌<◌, ◌≤◌, ◌^◌, length, take, drop, flat_map, map, All, IfOk, IsOkAnd};
ghost use Rattle.std.specs.List.{sum_by};
ghost use Rattle.tt_core.specs.Limits.{text_limit};
ghost use Rattle.tt_core.specs.Outcomes.{GivesUnless, IfTold, draw_font_fault, draw_job_fault};
ghost use Rattle.tt_face.specs.Faces.{Face};
ghost use Rattle.tt_fit.specs.Fitting.{Fitter};
ghost use Rattle.tt_glyphs.specs.Defects.{AreSound, EntryFits, IsListDefect, IsListRefusal, TellGlyphDefects};
ghost use Rattle.tt_glyphs.specs.Drawn.{DrawnFits, IsDrawn, IsSourceOf, drawn_edges, drawn_rows};
ghost use Rattle.tt_glyphs.specs.Listed.{drawn_numbers, entry_by, known_of};
ghost use Rattle.tt_glyphs.specs.Entries.{told_bytes};
ghost use Rattle.tt_glyphs.specs.Lists.{IsTriedList};
ghost use Rattle.tt_glyphs.specs.Requests.{GlyphJob, bitmaps_outcome, bitmaps_tested, job_for, sound_outcome};
ghost use Rattle.tt_glyphs.specs.Tried.{AreTriedBy, IsRuledBody, tried_chords, tried_crossings, tried_numbers};
ghost use Rattle.tt_metrics.specs.Metrics.{glyphs_of};
ghost use Rattle.tt_picture.specs.Distinct.{distinct};
ghost use Rattle.tt_picture.specs.Glyphs.{ArePlaces};
ghost use Rattle.tt_strike.specs.Defects.{IsSettingDefect, TellsDefects};
ghost use Rattle.tt_strike.specs.Makers.{job_at};
ghost use Rattle.tt_strike.specs.Picture.{setting};
ghost use Rattle.tt_strike.specs.Refusals.{as_job, refusal};
ghost use Rattle.tt_strike.specs.Work.{edges_limited};

use crate::drawing::{DrawnGlyph, draw_glyphs};
use crate::entries::entries_of;
use crate::outlines::test_outlines;
use crate::request::limits_for;
use crate::ruled::TriedGlyph;
use crate::told::GlyphEntry;
use crate::tried::{TriedList, tried_list};
use std::alloc::{AllocError, Global};
use std::marker::Model;
use tt_core::{DrawFault, JobFault};
use tt_face::Face;
use tt_fit::Fit;
use tt_scan::Sweep;
use tt_strike::FitterSource;

/// The bitmaps of a list of glyph numbers. All memory that their rows need is there already.
#[derive(Drop)]
pub struct BitmapList {
    /// One for each place of the list.
    entries: Vec<GlyphEntry>,
    /// The distinct glyphs of the font, in order of first appearance.
    drawn: Vec<DrawnGlyph>,
    /// The bytes of all rows.
    wanted: u64,
    sweep: Sweep,
}

impl Model for BitmapList {
    ghost use Rattle.std.specs.Prelude.{◌≡◌, ◌≤◌, All, flat_map};
    ghost use Rattle.std.specs.List.{sum_by};
    ghost use Rattle.tt_glyphs.specs.Drawn.{DrawnFits, drawn_edges, drawn_rows};
    ghost use Rattle.tt_glyphs.specs.Entries.{told_bytes};
    ghost use Rattle.tt_glyphs.specs.Requests as requests;

    ghost Value = { requests.Bitmaps };

    ghost view = { λ l. record { entries = l.entries.items; wanted = l.wanted; rows = flat_map drawn_rows l.drawn.items } };

    ghost invariant = { λ l. All DrawnFits l.drawn.items × All (λ d. drawn_edges d ≤ l.sweep.room) l.drawn.items
        × (l.wanted ≡ sum_by (λ d. told_bytes d.told) l.drawn.items) };
}

/// The distinct glyphs of a list, drawn by the work that their programs left. Errors: WorkLarge of their chords and
/// crossings; Memory.
fn drawn_of(
    source: &FitterSource,
    tried: Vec<TriedGlyph>,
    left: Option<u64>,
) -> Result<Vec<DrawnGlyph>, DrawFault>
    requires known { All (λ t. t.number < glyphs_of source.now.face.now.metrics) tried.items }
    requires ruled { All (λ t. IsRuledBody t.body) tried.items }
    ensures exact { GivesUnless refusal (λ v. tt) result (as_job (edges_limited source.now.fit left (tried_chords tried.items) (tried_crossings tried.items))) }
    ensures numbers { IfOk result (λ v. drawn_numbers v.items ≡ tried_numbers tried.items) }
    ensures drawn { IfOk result (λ v. (maker : ℕ → Fitter) → ((n : ℕ) → IsSourceOf source.now (maker n)) → AreTriedBy maker tried.items → All (λ d. IsDrawn source.now.fit (maker d.number) d) v.items) }
    ensures fits { IfOk result (λ v. All DrawnFits v.items) }
{
    let limits = limits_for(source.fit, left);
    match draw_glyphs(source, tried, limits)? {
        Some(drawn) => Ok(drawn),
        None => Err(DrawFault::Job(JobFault::WorkLarge)),
    }
}

/// The greatest number of edges of any of the glyphs.
fn most_edges(drawn: &[DrawnGlyph]) -> usize
    ensures { All (λ d. drawn_edges d ≤ result) drawn.now }
{
    let mut most = 0;
    for i in 0..drawn.len() {
        most = most.max(drawn[i].edges());
    }
    most
}

impl BitmapList {
    /// The list of numbers whose distinct glyphs these are. Error: memory ran out.
    fn of(
        alloc: Global,
        glyphs: &[u32],
        places: &[u16],
        drawn: Vec<DrawnGlyph>,
    ) -> Result<BitmapList, AllocError>
        requires few { length glyphs.now ≤ text_limit }
        requires distinct { drawn_numbers drawn.items ≡ distinct (known_of (length places.now) glyphs.now) }
        requires places { ArePlaces places.now (drawn_numbers drawn.items) }
        requires fits { All DrawnFits drawn.items }
        ensures entries { IfOk result (λ l. l.entries ≡ map (entry_by drawn.items (distinct glyphs.now)) glyphs.now) }
        ensures wanted { IfOk result (λ l. l.wanted ≡ sum_by (λ d. told_bytes d.told) drawn.items) }
        ensures small { IfOk result (λ l. l.wanted < 2 ^ 36) }
        ensures rows { IfOk result (λ l. l.rows ≡ flat_map drawn_rows drawn.items) }
    {
        let sweep = Sweep::new(alloc, most_edges(&drawn))?;
        let (entries, wanted) = entries_of(alloc, glyphs, places, &drawn)?;
        Ok(BitmapList {
            entries,
            drawn,
            wanted,
            sweep,
        })
    }

    /// The bitmaps of a list whose distinct glyphs are tried. Errors: WorkLarge of their chords and crossings; Memory.
    fn drawn_from(glyphs: &[u32], list: TriedList) -> Result<BitmapList, DrawFault>
        requires tried { (face : Face) × (a : GlyphJob) × (s : Fitter) × IsTriedList face a s list × (a.glyphs ≡ glyphs.now) }
        ensures exact { (face : Face) (a : GlyphJob) (s : Fitter) → IsTriedList face a s list.entry → a.glyphs ≡ glyphs.now → GivesUnless refusal (λ b. b) result (bitmaps_tested a.fit glyphs.now s) }
        ensures font { IfTold draw_font_fault result (λ _. ⊥) }
        ensures entries { IfOk result (λ b. length b.entries ≡ length glyphs.now) }
        ensures fits { IfOk result (λ b. All (EntryFits b.wanted) b.entries) }
        ensures wanted { IfOk result (λ b. b.wanted < 2 ^ 36) }
    {
        let TriedList {
            source,
            places,
            tried,
            left,
        } = list;
        let drawn = drawn_of(&source, tried, left)?;
        Ok(BitmapList::of(source.alloc, glyphs, &places, drawn)?)
    }

    /// The bitmaps of at most 4,096 glyph numbers, in the list's order. Each glyph is made once, with one fitter. A
    /// refused glyph has its fault in its entry, and the others are made. Errors, the first of: SizeRange, TextLong;
    /// those of loca and glyf, of the programs; WorkLarge of the points, of the deltas, of the chords, of the
    /// crossings. Memory may come at any allocation.
    pub fn make(
        alloc: Global,
        face: &Face,
        glyphs: &[u32],
        ppem: u32,
        fit: Fit,
    ) -> Result<BitmapList, DrawFault>
        ensures exact { GivesUnless refusal (λ b. b) result (bitmaps_outcome face.now (job_for glyphs.now ppem fit)) }
        // A fault stands in the tables or programs of the font. A list without a fault means that there is none.
        ensures defects { TellsDefects draw_font_fault (IsSettingDefect face.now (job_at ppem fit)) result }
        ensures job { IfTold draw_job_fault result (IsListRefusal face.now (job_for glyphs.now ppem fit)) }
        // The fault of an entry stands in its glyph. A glyph that is made or too large has no defect.
        ensures told { IfOk result (λ b. IsOkAnd (setting face.now ppem fit) (λ s. TellGlyphDefects s glyphs.now b.entries)) }
        ensures entries { IfOk result (λ b. length b.entries ≡ length glyphs.now) }
        ensures fits { IfOk result (λ b. All (EntryFits b.wanted) b.entries) }
        ensures wanted { IfOk result (λ b. b.wanted < 2 ^ 36) }
    {
        let tried = tried_list(alloc, face, glyphs, ppem, fit)?;
        BitmapList::drawn_from(glyphs, tried)
    }

    /// As `make`, but the first glyph of the list whose outline is refused refuses the list. Its fault comes after
    /// WorkLarge of the points and of the deltas, and before WorkLarge of the chords.
    pub fn make_sound(
        alloc: Global,
        face: &Face,
        glyphs: &[u32],
        ppem: u32,
        fit: Fit,
    ) -> Result<BitmapList, DrawFault>
        ensures exact { GivesUnless refusal (λ b. b) result (sound_outcome face.now (job_for glyphs.now ppem fit)) }
        // A fault stands in the font. A list without a fault means that its tables, programs and glyphs have none.
        ensures defects { TellsDefects draw_font_fault (IsListDefect face.now (job_for glyphs.now ppem fit)) result }
        ensures job { IfTold draw_job_fault result (IsListRefusal face.now (job_for glyphs.now ppem fit)) }
        // Each glyph of the font is made or too large.
        ensures sound { IfOk result (λ b. AreSound (glyphs_of face.now.metrics) b.entries) }
        ensures entries { IfOk result (λ b. length b.entries ≡ length glyphs.now) }
        ensures fits { IfOk result (λ b. All (EntryFits b.wanted) b.entries) }
        ensures wanted { IfOk result (λ b. b.wanted < 2 ^ 36) }
    {
        let tried = tried_list(alloc, face, glyphs, ppem, fit)?;
        test_outlines(&tried.tried)?;
        BitmapList::drawn_from(glyphs, tried)
    }

    /// An entry for each place of the list.
    pub fn entries(&self) -> &[GlyphEntry]
        ensures { result.now ≡ self.now.entries }
    {
        &self.entries
    }

    /// The bytes of all rows.
    pub fn wanted(&self) -> u64
        ensures { result ≡ self.now.wanted }
    {
        self.wanted
    }

    /// Writes all rows to the front of a room. No memory is taken. The list is used up, since the edges of large glyphs
    /// count how often they are crossed.
    pub fn write_rows(self, room: &mut [u8])
        requires { self.wanted ≤ length room.old }
        ensures rows { take self.wanted room.new ≡ self.rows }
        ensures rest { drop self.wanted room.new ≡ drop self.wanted room.old }
        ensures len { length room.new ≡ length room.old }
    {
        let BitmapList {
            mut drawn,
            mut sweep,
            ..
        } = self;
        let mut at = 0;
        for i in 0..drawn.len() {
            let end = at + drawn[i].bytes();
            drawn[i].write(&mut sweep, &mut room[at..end]);
            at = end;
        }
    }
}
