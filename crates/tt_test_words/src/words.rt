//! The words of a question.

ghost use Rattle.std.specs.Prelude.{◌≤◌, ◌<◌, ◌≤ℤ◌, ◌<ℤ◌, ◌^◌, pos, unsigned_abs};

use crate::line::Line;
use std::alloc::Global;

/// More edges, points and bytes than a question or a glyph has.
pub const MOST: usize = 1 << 20;

impl<'a> Line<'a> {
    /// The next word. If there is none, the line is refused.
    pub fn word(&mut self) -> &'a str {
        match self.next() {
            Some(word) => word,
            None => {
                self.refuse("a word is missing");
                ""
            }
        }
    }

    /// Refuses the line if a word is left.
    pub fn end(&mut self) {
        if self.next().is_some() {
            self.refuse("a word too many");
        }
    }

    /// The next word, a number from `low` to `high`. If it is no such number, the line is refused, and the answer is
    /// `low`.
    pub fn number(&mut self, low: i64, high: i64) -> i64
        requires { low ≤ℤ high }
        ensures low { low ≤ℤ result }
        ensures high { result ≤ℤ high }
    {
        let number = self.any_number();
        if number < low || high < number {
            self.refuse_number(number, low, high);
            return low;
        }
        number
    }

    /// The next word, a natural number from `low` to `high`. If it is no such number, the line is refused, and the answer
    /// is `low`.
    pub fn natural(&mut self, low: u32, high: u32) -> u32
        requires { low ≤ high }
        ensures low { low ≤ result }
        ensures high { result ≤ high }
    {
        self.number(i64::from(low), i64::from(high)) as u32
    }

    /// The next word, a number nearer to 0 than `limit`. If it is no such number, the line is refused, and the answer is
    /// the least one.
    pub fn near_zero(&mut self, limit: i32) -> i32
        requires { pos 1 ≤ℤ limit }
        ensures { pos (unsigned_abs result) <ℤ limit }
    {
        self.number(1 - i64::from(limit), i64::from(limit) - 1) as i32
    }

    /// The next word, a number. If it is none, the line is refused.
    fn any_number(&mut self) -> i64 {
        match self.word().parse::<i64>() {
            Ok(number) => number,
            Err(_) => {
                self.refuse("a word is no number");
                0
            }
        }
    }

    /// The next word, a count of what follows.
    pub fn count(&mut self) -> u32
        ensures { result ≤ 2 ^ 20 }
    {
        self.number(0, MOST as i64) as u32
    }

    /// The next word, bytes in hexadecimal, or `-`.
    pub fn bytes(&mut self, alloc: Global) -> Vec<u8> {
        let mut bytes = Vec::new(alloc);
        let word = self.word();
        if word == "-" {
            return bytes;
        }
        for pair in word.as_bytes().chunks(2) {
            match byte_of(pair) {
                Some(byte) => {
                    if bytes.push(byte).is_err() {
                        self.refuse("out of memory");
                    }
                }
                None => self.refuse("an odd number of digits, or no hexadecimal digit"),
            }
        }
        bytes
    }
}

/// The byte of two digits.
fn byte_of(pair: &[u8]) -> Option<u8> {
    let [high, low] = pair else {
        return None;
    };
    let (high, low) = (digit(*high), digit(*low));
    if high < 16 && low < 16 {
        return Some(16 * high + low);
    }
    None
}

/// The value of a digit, or 16.
fn digit(byte: u8) -> u8 {
    let digit = byte.wrapping_sub(b'0');
    if digit < 10 {
        return digit;
    }
    // The two cases of a letter differ by this bit.
    let letter = (byte | 32).wrapping_sub(b'a');
    if letter < 6 {
        return letter + 10;
    }
    16
}
