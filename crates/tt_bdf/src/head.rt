//! The lines of a font before its characters.

ghost use Rattle.std.specs.Prelude.{◌≡◌, ◌≤◌, All, length, string_bytes, IfOk, IfSome};
ghost use Rattle.tt_bdf.specs.Extent.{IsLimited, IsNear};
ghost use Rattle.tt_bdf.specs.Facts.{facts_of};
ghost use Rattle.tt_bdf.specs.Head.{box_text, count_text, default_text, extent_text, first_text, head_text, lines_text, name_text, names_text, properties_text, property_count, sizes_text, slant, spacing_name, style_text, weight_name};
ghost use Rattle.tt_core.specs.Limits.{size_limit, text_limit};

use crate::character::BdfCharacter;
use crate::default_character::default_character;
use crate::extent::{InkExtent, ink_extent};
use crate::font::BdfFont;
use crate::spacing::{Spacing, spacing_of};
use std::alloc::{AllocError, Global};

fn weight_name(bold: bool) -> &'static str
    ensures { result.now ≡ weight_name bold }
{
    if bold { "Bold" } else { "Medium" }
}

fn slant(italic: bool) -> &'static str
    ensures { result.now ≡ slant italic }
{
    if italic { "I" } else { "R" }
}

fn spacing_name(monospaced: bool) -> &'static str
    ensures { result.now ≡ spacing_name monospaced }
{
    if monospaced { "M" } else { "P" }
}

fn property_count(default: Option<u32>) -> u32
    ensures { result ≡ property_count default }
{
    match default {
        None => 16,
        Some(_) => 17,
    }
}

/// The family, the weight and the slant, as the name of the font has them.
fn style_text(alloc: Global, font: &BdfFont) -> Result<String, AllocError>
    ensures { IfOk result (λ text. string_bytes text ≡ style_text (facts_of font.now)) }
{
    let family = &font.family;
    let weight = weight_name(font.bold);
    let slant = slant(font.italic);
    format!(in alloc; "{family}-{weight}-{slant}")
}

/// The name of the font.
fn name_text(alloc: Global, font: &BdfFont, spacing: Spacing) -> Result<String, AllocError>
    requires { font.now.size ≤ size_limit }
    ensures { IfOk result (λ text. string_bytes text ≡ name_text (facts_of font.now) spacing) }
{
    let style = style_text(alloc, font)?;
    let size = font.size;
    let points = 10 * size;
    let spaced = spacing_name(spacing.monospaced);
    let average = spacing.average;
    format!(in alloc;
        "FONT -misc-{style}-Normal--{size}-{points}-72-72-{spaced}-{average}-ISO10646-1\n"
    )
}

fn first_text(alloc: Global, font: &BdfFont, spacing: Spacing) -> Result<String, AllocError>
    requires { font.now.size ≤ size_limit }
    ensures { IfOk result (λ text. string_bytes text ≡ first_text (facts_of font.now) spacing) }
{
    let name = name_text(alloc, font, spacing)?;
    let size = font.size;
    format!(in alloc; "STARTFONT 2.1\n{name}SIZE {size} 72 72\n")
}

fn extent_text(alloc: Global, e: InkExtent) -> Result<String, AllocError>
    requires { IsNear e }
    ensures { IfOk result (λ text. string_bytes text ≡ extent_text e) }
{
    let width = e.right - e.left;
    let height = e.top - e.bottom;
    let left = e.left;
    let bottom = e.bottom;
    format!(in alloc; "FONTBOUNDINGBOX {width} {height} {left} {bottom}\n")
}

/// The line of the box that holds all ink.
fn box_text(alloc: Global, extent: Option<InkExtent>) -> Result<String, AllocError>
    requires { IfSome extent IsNear }
    ensures { IfOk result (λ text. string_bytes text ≡ box_text extent) }
{
    match extent {
        None => String::from_str(alloc, "FONTBOUNDINGBOX 0 0 0 0\n"),
        Some(e) => extent_text(alloc, e),
    }
}

fn names_text(alloc: Global, font: &BdfFont, count: u32) -> Result<String, AllocError>
    ensures { IfOk result (λ text. string_bytes text ≡ names_text (facts_of font.now) count) }
{
    let family = &font.family;
    let weight = weight_name(font.bold);
    let slant = slant(font.italic);
    format!(in alloc;
        "STARTPROPERTIES {count}\nFOUNDRY \"misc\"\nFAMILY_NAME \"{family}\"\nWEIGHT_NAME \"{weight}\"\nSLANT \"{slant}\"\nSETWIDTH_NAME \"Normal\"\nADD_STYLE_NAME \"\"\n"
    )
}

fn sizes_text(alloc: Global, font: &BdfFont, spacing: Spacing) -> Result<String, AllocError>
    requires { font.now.size ≤ size_limit }
    ensures { IfOk result (λ text. string_bytes text ≡ sizes_text (facts_of font.now) spacing) }
{
    let size = font.size;
    let points = 10 * size;
    let spaced = spacing_name(spacing.monospaced);
    let average = spacing.average;
    format!(in alloc;
        "PIXEL_SIZE {size}\nPOINT_SIZE {points}\nRESOLUTION_X 72\nRESOLUTION_Y 72\nSPACING \"{spaced}\"\nAVERAGE_WIDTH {average}\nCHARSET_REGISTRY \"ISO10646\"\nCHARSET_ENCODING \"1\"\n"
    )
}

fn lines_text(alloc: Global, font: &BdfFont) -> Result<String, AllocError>
    ensures { IfOk result (λ text. string_bytes text ≡ lines_text (facts_of font.now)) }
{
    let rise = font.rise;
    let depth = font.depth;
    format!(in alloc; "FONT_ASCENT {rise}\nFONT_DESCENT {depth}\n")
}

fn default_text(alloc: Global, default: Option<u32>) -> Result<String, AllocError>
    ensures { IfOk result (λ text. string_bytes text ≡ default_text default) }
{
    match default {
        None => Ok(String::new(alloc)),
        Some(code) => format!(in alloc; "DEFAULT_CHAR {code}\n"),
    }
}

/// The lines from STARTPROPERTIES to ENDPROPERTIES.
fn properties_text(
    alloc: Global,
    font: &BdfFont,
    spacing: Spacing,
    default: Option<u32>,
) -> Result<String, AllocError>
    requires { font.now.size ≤ size_limit }
    ensures { IfOk result (λ text. string_bytes text ≡ properties_text (facts_of font.now) spacing default) }
{
    let names = names_text(alloc, font, property_count(default))?;
    let sizes = sizes_text(alloc, font, spacing)?;
    let lines = lines_text(alloc, font)?;
    let default = default_text(alloc, default)?;
    format!(in alloc; "{names}{sizes}{lines}{default}ENDPROPERTIES\n")
}

fn count_text(alloc: Global, count: usize) -> Result<String, AllocError>
    ensures { IfOk result (λ text. string_bytes text ≡ count_text count) }
{
    format!(in alloc; "CHARS {count}\n")
}

/// The lines of a font before its characters.
pub(crate) fn head_text(
    alloc: Global,
    font: &BdfFont,
    characters: &[BdfCharacter],
) -> Result<String, AllocError>
    requires size { font.now.size ≤ size_limit }
    requires some { 1 ≤ length characters.now }
    requires few { length characters.now ≤ text_limit }
    requires limits { All IsLimited characters.now }
    ensures { IfOk result (λ text. string_bytes text ≡ head_text (facts_of font.now) characters.now) }
{
    let spacing = spacing_of(characters);
    let first = first_text(alloc, font, spacing)?;
    let extent = box_text(alloc, ink_extent(characters))?;
    let properties = properties_text(alloc, font, spacing, default_character(characters))?;
    let count = count_text(alloc, characters.len())?;
    format!(in alloc; "{first}{extent}{properties}{count}")
}
