//! A picture in a format, whole in memory.

ghost use Rattle.std.specs.Prelude.{◌≡◌, false, length, IfOk};
ghost use Rattle.tt_pbm.specs.Writing.{Writes};
ghost use Rattle.tt_picture.specs.Pictures.{IsReady, image_of};
ghost use Rattle.tt_render_streams.specs.declared.formed.PictureFormat.TheVariants as format;
ghost use Rattle.tt_render_streams.specs.File.{file_in};
ghost use Rattle.tt_render_streams.specs.Formed.{IsWhole, formed_bytes, formed_picture};

use crate::drawn::{Drawn, piece_for};
use crate::writing::write_picture;
use std::alloc::{AllocError, Global};
use tt_core::Sink;
use tt_pbm::{Cut, write_all_of};
use tt_picture::Picture;
use tt_png::png;

/// How a picture is put into the bytes of a file.
#[derive(Clone, Copy, Debug, PartialEq, Eq)]
pub enum PictureFormat {
    /// Netpbm, "PBM", binary (P4).
    Pbm,
    /// PNG, as RFC 2083 has it.
    Png,
}

/// A picture with the bytes of its file.
#[derive(Drop)]
pub struct PngFile {
    pub picture: Picture,
    pub file: Vec<u8>,
}

/// A picture in a format, whole in memory.
#[derive(Drop)]
pub enum Formed {
    /// The rows are made as they are written.
    Pbm(Drawn),
    Png(PngFile),
}

impl Formed {
    /// The picture, of which rows may be made already.
    pub fn picture(&self) -> &Picture
        ensures { result.now ≡ formed_picture self.now }
    {
        match self {
            Formed::Pbm(drawn) => &drawn.picture,
            Formed::Png(whole) => &whole.picture,
        }
    }
}

/// All rows of a picture. Error: Memory.
fn all_rows(alloc: Global, picture: &mut Picture) -> Result<Vec<u8>, AllocError>
    requires { IsReady picture.old }
    ensures rows { IfOk result (λ rows. rows.items ≡ picture.old.rows) }
    ensures same { picture.new ≡ record picture.old { made = picture.new.made } }
{
    let count = picture.height();
    let mut rows = vec![in alloc; 0u8; picture.row_bytes() * count as usize]?;
    picture.next_rows(count, &mut rows);
    Ok(rows)
}

/// A picture with its file in PNG. Error: Memory.
fn png_of(alloc: Global, picture: Picture) -> Result<PngFile, AllocError>
    requires { IsReady picture }
    ensures file { IfOk result (λ whole. whole.file.items ≡ file_in format.Png (image_of picture)) }
    ensures same { IfOk result (λ whole. whole.picture ≡ record picture { made = whole.picture.made }) }
{
    let mut picture = picture;
    let rows = all_rows(alloc, &mut picture)?;
    let file = png(alloc, picture.width(), picture.height(), &rows)?;
    Ok(PngFile { picture, file })
}

/// A picture in a format, with all memory that its writing takes. Error: Memory.
pub fn form(alloc: Global, picture: Picture, format: PictureFormat) -> Result<Formed, AllocError>
    requires { IsReady picture }
    ensures exact { IfOk result (λ f. formed_bytes f ≡ file_in format (image_of picture)) }
    ensures whole { IfOk result IsWhole }
    ensures same { IfOk result (λ f. formed_picture f ≡ record picture { made = (formed_picture f).made }) }
{
    match format {
        PictureFormat::Pbm => {
            let piece = piece_for(alloc, &picture)?;
            Ok(Formed::Pbm(Drawn { picture, piece }))
        }
        PictureFormat::Png => Ok(Formed::Png(png_of(alloc, picture)?)),
    }
}

/// Writes the file of a picture. It takes no memory.
pub fn write_formed<W: Sink>(out: &mut W, formed: &mut Formed) -> Result<(), Cut>
    requires out { W.has_failed out.old ≡ false }
    requires whole { IsWhole formed.old }
    ensures { Writes result (W.written out.old) (W.written out.new) (W.has_failed out.new) (formed_bytes formed.old) }
{
    match formed {
        Formed::Pbm(drawn) => write_picture(out, drawn),
        Formed::Png(whole) => write_all_of(out, whole.file.as_slice()),
    }
}
