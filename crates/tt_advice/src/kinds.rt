//! What a file is by its first bytes.

ghost use Rattle.std.specs.Prelude.{◌≡◌, drop};
ghost use Rattle.tt_advice.specs.Kinds.{begins, is_bitmaps, is_type1, kind_at, kind_of};

use crate::hint::FixedHint;

/// Whether some bytes begin with others.
pub(crate) fn begins(bytes: &[u8], with: &[u8]) -> bool
    ensures { result ≡ begins bytes.now with.now }
{
    with.len() <= bytes.len() && bytes[..with.len()] == with[..]
}

/// Whether some bytes begin like a Type 1 font, in one of its wrappings.
fn is_type1(bytes: &[u8]) -> bool
    ensures { result ≡ is_type1 bytes.now }
{
    begins(bytes, b"typ1") || begins(bytes, b"%!PS") || begins(bytes, b"\x80\x01")
}

/// Whether some bytes begin like a font of bitmaps: BDF or PCF.
fn is_bitmaps(bytes: &[u8]) -> bool
    ensures { result ≡ is_bitmaps bytes.now }
{
    begins(bytes, b"STAR") || begins(bytes, b"\x01fcp")
}

/// What a file with these bytes in place of a version is.
#[tactic(auto, unfolding(crate::specs::Kinds::kind_of))]
fn kind_of(bytes: &[u8]) -> FixedHint
    ensures { result ≡ kind_of bytes.now }
{
    if begins(bytes, b"OTTO") {
        FixedHint::Cff
    } else if begins(bytes, b"wOFF") {
        FixedHint::Woff
    } else if begins(bytes, b"wOF2") {
        FixedHint::Woff2
    } else if is_type1(bytes) {
        FixedHint::Type1
    } else if is_bitmaps(bytes) {
        FixedHint::Bitmaps
    } else if begins(bytes, b"\x1F\x8B") {
        FixedHint::Gzip
    } else if begins(bytes, b"<") {
        FixedHint::Page
    } else {
        FixedHint::NoFont
    }
}

/// What a file is by the bytes at an offset.
#[tactic(auto, using(std::proofs::lemmas::List::drop_all))]
pub(crate) fn kind_at(file: &[u8], at: usize) -> FixedHint
    ensures { result ≡ kind_at file.now at }
{
    if at >= file.len() {
        return kind_of(&[]);
    }
    kind_of(&file[at..])
}
