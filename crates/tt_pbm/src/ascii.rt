//! A short text of ASCII. It is built from its end to its start, since division by 10 gives the last digit first.

ghost use Rattle.std.specs.Fmt.{signed_decimal};
ghost use Rattle.std.specs.Prelude.{◌≡◌, ◌+◌, ◌≤◌, ◌<◌, ◌++◌, [], ◌∷◌, length, decimal};

use itoa::write_digits;
use std::marker::Model;

/// Bytes of room for a text.
const ROOM: usize = 160;

/// A text of at most 160 bytes: the bytes from `at` on. Clauses see a list.
#[derive(Drop)]
pub struct Ascii {
    bytes: [u8; ROOM],
    at: usize,
}

impl Model for Ascii {
    ghost use Rattle.std.specs.Prelude.{ℕ, List, drop, ◌≤◌};

    ghost Value = { List ℕ };

    ghost view = { λ t. drop t.at t.bytes };

    ghost invariant = { λ t. t.at ≤ 160 };
}

impl Ascii {
    /// The empty text.
    pub fn new() -> Ascii
        ensures exact { result ≡ [] }
    {
        Ascii {
            bytes: [0; ROOM],
            at: ROOM,
        }
    }

    /// Makes the text empty.
    pub fn clear(&mut self)
        ensures exact { self.new ≡ [] }
    {
        self.at = ROOM;
    }

    /// The bytes of the text, from first to last.
    pub fn as_bytes(&self) -> &[u8]
        ensures exact { result.now ≡ self.now }
    {
        &self.bytes[self.at..]
    }

    /// Puts a byte before the text.
    pub fn push(&mut self, byte: u8)
        requires room { length self.old < 160 }
        ensures exact { self.new ≡ byte ∷ self.old }
    {
        self.at -= 1;
        self.bytes[self.at] = byte;
    }

    /// Puts some bytes before the text.
    pub fn push_bytes(&mut self, bytes: &[u8])
        requires room { length self.old + length bytes.now ≤ 160 }
        ensures exact { self.new ≡ bytes.now ++ self.old }
    {
        let end = self.at;
        self.at -= bytes.len();
        self.bytes[self.at..end].copy_from_slice(bytes);
    }

    /// Puts a number, in decimal, before the text.
    fn push_digits(&mut self, n: u64)
        requires room { length self.old + length (decimal n) ≤ 160 }
        ensures exact { self.new ≡ decimal n ++ self.old }
    {
        self.at = write_digits(n, &mut self.bytes, self.at);
    }

    /// Puts a number of at most five digits, in decimal, before the text.
    pub fn push_u16(&mut self, n: u16)
        requires room { length self.old + 5 ≤ 160 }
        ensures exact { self.new ≡ decimal n ++ self.old }
        ensures bound { length self.new ≤ length self.old + 5 }
    {
        self.push_digits(u64::from(n));
    }

    /// Puts a number of at most ten digits, in decimal, before the text.
    pub fn push_u32(&mut self, n: u32)
        requires room { length self.old + 10 ≤ 160 }
        ensures exact { self.new ≡ decimal n ++ self.old }
        ensures bound { length self.new ≤ length self.old + 10 }
    {
        self.push_digits(u64::from(n));
    }

    /// Puts a number, in decimal, before the text, and before the number a minus if the number is below 0.
    pub fn push_i64(&mut self, n: i64)
        requires room { length self.old + 20 ≤ 160 }
        ensures exact { self.new ≡ signed_decimal n ++ self.old }
        ensures bound { length self.new ≤ length self.old + 20 }
    {
        self.push_digits(n.unsigned_abs());
        if n < 0 {
            self.push(b'-');
        }
    }
}
