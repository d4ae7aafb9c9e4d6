//! The units of a text. Unicode, "Variation Selectors".

ghost use Rattle.std.specs.Prelude.{◌≡◌, ◌&&◌, [], ◌∷◌, chars, IfSome, MatchOption};
ghost use Rattle.std.specs.Str.{IsUtf8};
ghost use Rattle.tt_cmap.specs.Units.{is_selector, first_selector, selector_before, units};

use std::marker::Model;

/// A character of a text, and the variation selector that directly follows, if one does.
#[derive(Clone, Copy, Debug, PartialEq, Eq)]
pub struct TextUnit {
    pub character: char,
    pub selector: Option<char>,
}

/// Whether a character is a variation selector.
fn is_selector(c: char) -> bool
    ensures { result ≡ is_selector c }
{
    // Nearly all characters are below both ranges.
    if (c as u32) < 0xFE00 {
        return false;
    }
    ('\u{FE00}'..='\u{FE0F}').contains(&c) || ('\u{E0100}'..='\u{E01EF}').contains(&c)
}

/// The variation selector at the start of a text, if the text starts with one.
fn first_selector(text: &str) -> Option<char>
    ensures { result ≡ first_selector (chars text.now) }
{
    let Some(c) = text.chars().next() else {
        return None;
    };
    if is_selector(c) {
        return Some(c);
    }
    None
}

/// The selector that belongs to the character before a text, if one does.
#[inline(always)]
fn selector_before(pairs: bool, text: &str) -> Option<char>
    ensures { result ≡ selector_before pairs (chars text.now) }
{
    if pairs { first_selector(text) } else { None }
}

/// Whether a character is passed over: a selector that belongs to a character before, or to none.
#[inline(always)]
fn is_passed_over(pairs: bool, c: char) -> bool
    ensures { result ≡ (pairs && is_selector c) }
{
    pairs && is_selector(c)
}

/// The first unit of a text, and the text after the unit's character.
#[inline(always)]
fn first_unit<'t>(pairs: bool, text: &'t str) -> Option<(TextUnit, &'t str)>
    ensures first { MatchOption result (units pairs (chars text.now) ≡ [])
        (λ p. units pairs (chars text.now) ≡ p.0 ∷ units pairs (chars p.1.now)) }
    ensures utf8 { IfSome result (λ p. ∥ IsUtf8 p.1.now ∥₁) }
{
    let mut rest = text.chars();
    while let Some(character) = rest.next() {
        if !is_passed_over(pairs, character) {
            let after = rest.as_str();
            let selector = selector_before(pairs, after);
            let unit = TextUnit {
                character,
                selector,
            };
            return Some((unit, after));
        }
    }
    None
}

/// Gives the units of a text, one by one. Clauses see the units that are left.
#[derive(Drop)]
pub struct TextUnits<'t> {
    /// Whether selectors belong to characters. Else each character is a unit.
    pub(crate) pairs: bool,
    pub(crate) text: &'t str,
}

impl<'t> Model for TextUnits<'t> {
    ghost use Rattle.std.specs.Prelude.{List, chars};
    ghost use Rattle.std.specs.Str.{IsUtf8};
    ghost use Rattle.tt_cmap.specs.declared.units.TextUnit.{TextUnit};
    ghost use Rattle.tt_cmap.specs.Units.{units};

    ghost Value = { List TextUnit };

    ghost view = { λ t. units t.pairs (chars t.text.now) };

    ghost invariant = { λ t. ∥ IsUtf8 t.text.now ∥₁ };
}

impl<'t> Iterator for TextUnits<'t> {
    ghost use Rattle.std.specs.Iterator.{YieldsFirst, item_count};

    type Item = TextUnit;

    ghost next_gives = { YieldsFirst (λ units. units) };

    ghost remaining = { item_count (λ units. units) };

    #[inline(always)]
    fn next(&mut self) -> Option<TextUnit> {
        let Some((unit, rest)) = first_unit(self.pairs, self.text) else {
            return None;
        };
        self.text = rest;
        Some(unit)
    }
}
