//! The characters of a text without a glyph, sought by the glyphs of recent characters first.

ghost use Rattle.std.specs.Prelude.{◌≡◌, ◌↔◌, [], true, chars, IfOk};
ghost use Rattle.tt_cmap.specs.Lacking.{lacking_of};

use crate::sized::SizedFace;
use crate::strike::Strike;
use std::alloc::AllocError;
use tt_cmap::lacking;

impl<'f, 'a> SizedFace<'f, 'a> {
    /// Whether the font has a glyph for each unit of a text. Recent characters are not looked up in the map.
    /// `KnownAdvances::has_all` is apart (for the prover): only here are the recent characters known as this face's.
    pub(crate) fn has_all(&mut self, text: &str) -> bool
        ensures exact { (result ≡ true) ↔ (lacking_of self.old.face.cmap (chars text.now) ≡ []) }
        ensures same { self.new ≡ self.old }
    {
        self.known.has_all(text)
    }
}

impl<'f, 'a> Strike<'f, 'a> {
    /// The distinct characters of a text's units without a glyph, in order of first appearance. A text that lacks none
    /// takes no memory. Error: memory ran out.
    pub fn lacking(&mut self, text: &str) -> Result<Vec<char>, AllocError>
        ensures exact { IfOk result (λ v. v.items ≡ lacking_of self.old.face.cmap (chars text.now)) }
        ensures same { self.new ≡ self.old }
    {
        let alloc = self.sized.alloc();
        if self.sized.has_all(text) {
            return Ok(Vec::new(alloc));
        }
        lacking(alloc, self.sized.face().cmap(), text)
    }
}
