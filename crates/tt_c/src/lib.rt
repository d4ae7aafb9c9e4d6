//! The C library: what `include/tt_render.h` declares.
#![tactic(auto)]

ghost use Rattle.std.specs.Prelude.{◌≡◌};
ghost use Rattle.tt_core.specs.declared.collection.Reading.TheVariants as reading;
ghost use Rattle.tt_c_calls.specs.Asked.{face_reading};
ghost use Rattle.tt_c_calls.specs.Bitmaps.{DrawsGlyphs};
ghost use Rattle.tt_c_calls.specs.Fonts.{CountsFaces, OpensFont};
ghost use Rattle.tt_c_calls.specs.Layouts.{LaysOutText, PlacesPens};
ghost use Rattle.tt_c_calls.specs.LineRooms.{TellsRoom};
ghost use Rattle.tt_c_calls.specs.Lines.{DrawsTexts};
ghost use Rattle.tt_c_calls.specs.Maps.{MapsText};
ghost use Rattle.tt_c_calls.specs.Measures.{MeasuresText, PlacesCharacters};
ghost use Rattle.tt_c_calls.specs.Messages.{WritesMessage};
ghost use Rattle.tt_c_calls.specs.Pictures.{DrawsBand};
ghost use Rattle.tt_c_calls.specs.Strikes.{TellsStrike};
ghost use Rattle.tt_c_instances.specs.Maps.{MapsJob};
ghost use Rattle.tt_c_instances.specs.VariationLists.{TellsAxes, TellsInstances};
ghost use Rattle.tt_c_labels.specs.Labels.{DrawsLabel};

use std::alloc::Global;
use tt_c_calls::{
    Band, CAnswer, CBitmap, CCharacter, CFont, CGlyph, CJob, CLayout, CLine, CMeasure, CPen,
    CPicture, CStrike, TextRequest, Texts,
};
use tt_c_instances::{CAxisRange, CInstance};
use tt_c_labels::{CLabel, CLabelJob, LabelRequest};

/// The version of the library, as `TT_RENDER_VERSION` of the header: 10,000 times its first part, 100 times the second,
/// and the third.
#[unsafe(no_mangle)]
pub extern "C" fn tt_version() -> u32
    ensures { result ≡ 300 }
{
    300
}

/// `tt_c_calls::faces`.
#[unsafe(no_mangle)]
pub extern "C" fn tt_faces(font: &[u8], answer: &mut CAnswer) -> u32
    ensures status { result ≡ answer.new.status }
    ensures counts { CountsFaces font.now answer.new }
{
    *answer = tt_c_calls::faces(font);
    answer.status
}

/// `tt_c_calls::open` without a face.
#[unsafe(no_mangle)]
pub extern "C" fn tt_open(font: &[u8], told: &mut CFont, answer: &mut CAnswer) -> u32
    ensures status { result ≡ answer.new.status }
    ensures opens { OpensFont reading.Strict font.now told.old told.new answer.new }
{
    *answer = tt_c_calls::open(font, 0, told);
    answer.status
}

/// `tt_c_calls::open`.
#[unsafe(no_mangle)]
pub extern "C" fn tt_open_face(
    font: &[u8],
    face: u32,
    told: &mut CFont,
    answer: &mut CAnswer,
) -> u32
    ensures status { result ≡ answer.new.status }
    ensures opens { OpensFont (face_reading face) font.now told.old told.new answer.new }
{
    *answer = tt_c_calls::open(font, face, told);
    answer.status
}

/// `tt_c_instances::axes`.
#[unsafe(no_mangle)]
pub extern "C" fn tt_axes(
    alloc: Global,
    font: &[u8],
    face: u32,
    axes: &mut [CAxisRange],
    answer: &mut CAnswer,
) -> u32
    ensures status { result ≡ answer.new.status }
    ensures tells { TellsAxes (face_reading face) font.now axes.old axes.new answer.new }
{
    *answer = tt_c_instances::axes(alloc, font, face, axes);
    answer.status
}

/// `tt_c_instances::instances`.
#[unsafe(no_mangle)]
pub extern "C" fn tt_instances(
    alloc: Global,
    font: &[u8],
    face: u32,
    instances: &mut [CInstance],
    answer: &mut CAnswer,
) -> u32
    ensures status { result ≡ answer.new.status }
    ensures tells { TellsInstances (face_reading face) font.now instances.old instances.new answer.new }
{
    *answer = tt_c_instances::instances(alloc, font, face, instances);
    answer.status
}

/// `tt_c_calls::map` without a face.
#[unsafe(no_mangle)]
pub extern "C" fn tt_map(font: &[u8], text: &[u8], room: &mut [CGlyph], answer: &mut CAnswer) -> u32
    ensures status { result ≡ answer.new.status }
    ensures maps { MapsText reading.Strict text.now font.now room.old room.new answer.new }
{
    *answer = tt_c_calls::map(font, 0, text, room);
    answer.status
}

/// `tt_c_calls::map`.
#[unsafe(no_mangle)]
pub extern "C" fn tt_map_face(
    font: &[u8],
    face: u32,
    text: &[u8],
    room: &mut [CGlyph],
    answer: &mut CAnswer,
) -> u32
    ensures status { result ≡ answer.new.status }
    ensures maps { MapsText (face_reading face) text.now font.now room.old room.new answer.new }
{
    *answer = tt_c_calls::map(font, face, text, room);
    answer.status
}

/// `tt_c_instances::map_job`.
#[unsafe(no_mangle)]
pub extern "C" fn tt_map_job(
    alloc: Global,
    font: &[u8],
    text: &[u8],
    job: &CJob,
    room: &mut [CGlyph],
    answer: &mut CAnswer,
) -> u32
    ensures status { result ≡ answer.new.status }
    ensures maps { MapsJob job.now text.now font.now room.old room.new answer.new }
{
    let request = TextRequest { font, text, job };
    *answer = tt_c_instances::map_job(alloc, &request, room);
    answer.status
}

/// `tt_c_calls::measure`.
#[unsafe(no_mangle)]
pub extern "C" fn tt_measure(
    alloc: Global,
    font: &[u8],
    text: &[u8],
    job: &CJob,
    told: &mut CMeasure,
    answer: &mut CAnswer,
) -> u32
    ensures status { result ≡ answer.new.status }
    ensures measures { MeasuresText job.now text.now font.now told.old told.new answer.new }
{
    let request = TextRequest { font, text, job };
    *answer = tt_c_calls::measure(alloc, &request, told);
    answer.status
}

/// `tt_c_calls::characters`.
#[unsafe(no_mangle)]
pub extern "C" fn tt_characters(
    alloc: Global,
    font: &[u8],
    text: &[u8],
    job: &CJob,
    characters: &mut [CCharacter],
    answer: &mut CAnswer,
) -> u32
    ensures status { result ≡ answer.new.status }
    ensures places { PlacesCharacters job.now text.now font.now characters.old characters.new answer.new }
{
    let request = TextRequest { font, text, job };
    *answer = tt_c_calls::characters(alloc, &request, characters);
    answer.status
}

/// `tt_c_calls::strike`.
#[unsafe(no_mangle)]
pub extern "C" fn tt_strike(
    font: &[u8],
    job: &CJob,
    told: &mut CStrike,
    answer: &mut CAnswer,
) -> u32
    ensures status { result ≡ answer.new.status }
    ensures tells { TellsStrike job.now font.now told.old told.new answer.new }
{
    *answer = tt_c_calls::strike(font, job, told);
    answer.status
}

/// `tt_c_calls::layout`.
#[unsafe(no_mangle)]
pub extern "C" fn tt_layout(
    alloc: Global,
    font: &[u8],
    text: &[u8],
    job: &CJob,
    told: &mut CLayout,
    answer: &mut CAnswer,
) -> u32
    ensures status { result ≡ answer.new.status }
    ensures lays { LaysOutText job.now text.now font.now told.old told.new answer.new }
{
    let request = TextRequest { font, text, job };
    *answer = tt_c_calls::layout(alloc, &request, told);
    answer.status
}

/// `tt_c_calls::pens`.
#[unsafe(no_mangle)]
pub extern "C" fn tt_pens(
    alloc: Global,
    font: &[u8],
    text: &[u8],
    job: &CJob,
    pens: &mut [CPen],
    answer: &mut CAnswer,
) -> u32
    ensures status { result ≡ answer.new.status }
    ensures places { PlacesPens job.now text.now font.now pens.old pens.new answer.new }
{
    let request = TextRequest { font, text, job };
    *answer = tt_c_calls::pens(alloc, &request, pens);
    answer.status
}

/// `tt_c_calls::draw_glyphs`.
#[unsafe(no_mangle)]
pub extern "C" fn tt_glyphs(
    alloc: Global,
    font: &[u8],
    glyphs: &[u32],
    job: &CJob,
    rows: &mut [u8],
    told: &mut [CBitmap],
    answer: &mut CAnswer,
) -> u32
    ensures status { result ≡ answer.new.status }
    ensures draws { DrawsGlyphs job.now glyphs.now font.now rows.old rows.new told.old told.new answer.new }
{
    *answer = tt_c_calls::draw_glyphs(alloc, font, glyphs, job, rows, told);
    answer.status
}

/// `tt_c_calls::draw_band` of the whole picture, which has at most 4,096 rows.
#[unsafe(no_mangle)]
pub extern "C" fn tt_draw(
    alloc: Global,
    font: &[u8],
    text: &[u8],
    job: &CJob,
    rows: &mut [u8],
    told: &mut CPicture,
    answer: &mut CAnswer,
) -> u32
    ensures status { result ≡ answer.new.status }
    ensures draws { DrawsBand job.now text.now font.now 0 4096 rows.old rows.new told.old told.new answer.new }
{
    let whole = Band {
        first: 0,
        count: 4096,
    };
    let request = TextRequest { font, text, job };
    *answer = tt_c_calls::draw_band(alloc, &request, whole, rows, told);
    answer.status
}

/// `tt_c_calls::draw_band`.
#[unsafe(no_mangle)]
pub extern "C" fn tt_draw_band(
    alloc: Global,
    font: &[u8],
    text: &[u8],
    job: &CJob,
    first: u32,
    count: u32,
    rows: &mut [u8],
    told: &mut CPicture,
    answer: &mut CAnswer,
) -> u32
    ensures status { result ≡ answer.new.status }
    ensures draws { DrawsBand job.now text.now font.now first count rows.old rows.new told.old told.new answer.new }
{
    let band = Band { first, count };
    let request = TextRequest { font, text, job };
    *answer = tt_c_calls::draw_band(alloc, &request, band, rows, told);
    answer.status
}

/// `tt_c_labels::label`.
#[unsafe(no_mangle)]
pub extern "C" fn tt_label(
    alloc: Global,
    font: &[u8],
    text: &[u8],
    job: &CLabelJob,
    rows: &mut [u8],
    told: &mut CLabel,
    answer: &mut CAnswer,
) -> u32
    ensures status { result ≡ answer.new.status }
    ensures draws { DrawsLabel job.now text.now font.now rows.old rows.new told.old told.new answer.new }
{
    let request = LabelRequest { font, text, job };
    *answer = tt_c_labels::label(alloc, &request, rows, told);
    answer.status
}

/// `tt_c_calls::draw_lines`.
#[unsafe(no_mangle)]
pub extern "C" fn tt_draw_lines(
    alloc: Global,
    font: &[u8],
    texts: &[u8],
    ends: &[u64],
    job: &CJob,
    keep: usize,
    rows: &mut [u8],
    lines: &mut [CLine],
    answer: &mut CAnswer,
) -> u32
    ensures status { result ≡ answer.new.status }
    ensures draws { DrawsTexts job.now font.now texts.now ends.now rows.old rows.new lines.old lines.new answer.new }
{
    let all = Texts { bytes: texts, ends };
    *answer = tt_c_calls::draw_lines(alloc, font, &all, job, keep, rows, lines).0;
    answer.status
}

/// `tt_c_calls::lines_room`.
#[unsafe(no_mangle)]
pub extern "C" fn tt_lines_room(
    alloc: Global,
    font: &[u8],
    texts: &[u8],
    ends: &[u64],
    job: &CJob,
    keep: usize,
    answer: &mut CAnswer,
) -> u32
    ensures status { result ≡ answer.new.status }
    ensures tells { TellsRoom job.now font.now texts.now ends.now answer.new }
{
    let all = Texts { bytes: texts, ends };
    *answer = tt_c_calls::lines_room(alloc, font, &all, job, keep);
    answer.status
}

/// `tt_c_calls::message`.
#[unsafe(no_mangle)]
pub extern "C" fn tt_message(
    alloc: Global,
    told: &CAnswer,
    text: &mut [u8],
    answer: &mut CAnswer,
) -> u32
    ensures status { result ≡ answer.new.status }
    ensures writes { WritesMessage told.now text.old text.new answer.new }
{
    *answer = tt_c_calls::message(alloc, told, text);
    answer.status
}
