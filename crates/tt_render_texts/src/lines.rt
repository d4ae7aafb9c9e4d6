//! Reads the lines of a text in order.

ghost use Rattle.std.specs.Io.KnownBytes.{IsAtEnd, Keeps};
ghost use Rattle.std.specs.Prelude.{◌≡◌, ◌≢◌, ℕ, ◌+◌, ◌-◌, ◌<◌, ◌≤◌, [], true, false, is_err, length, take, drop, vec_len, All, IfOk, OnErr, MatchOption};
ghost use Rattle.tt_core.specs.Device.{RemembersFailure};
ghost use Rattle.tt_render_texts.specs.Lines.{IsFirstFeed, before_feed, line_room};

use std::alloc::{AllocError, Global};
use tt_core::{IoFailed, Source};
use tt_render_streams::read_after;

/// The longest line, in bytes.
pub const LINE_LIMIT: usize = 16_384;

/// The bytes of a reader's buffer: a line with its end, and one read.
const LINE_ROOM: usize = LINE_LIMIT + 2 + 65_536;

/// The bytes read of a text and not yet given out as lines: those of `buf` from `from` to `until`.
#[derive(Drop)]
pub struct LineReader {
    buf: Vec<u8>,
    from: usize,
    until: usize,
    ghost order: { from ≤ until },
    ghost within: { until ≤ vec_len buf },
    ghost whole: { vec_len buf ≡ line_room },
}

/// The place of a line in its reader's buffer.
#[derive(Clone, Copy)]
pub struct LinePlace {
    from: usize,
    until: usize,
    ghost order: { from ≤ until },
    ghost within: { until ≤ line_room },
}

/// What follows in a text.
#[derive(Clone, Copy)]
pub enum NextLine {
    /// A line. Its length is not tested.
    Line(LinePlace),
    /// A line of more than 16,384 bytes, whose end is not read yet. The next call finds this line again.
    Long,
    /// The end.
    End,
}

/// The place of the first line feed.
fn first_feed(bytes: &[u8]) -> Option<usize>
    ensures { MatchOption result (All (λ x. x ≢ 10) bytes.now) (IsFirstFeed bytes.now) }
{
    for (i, b) in bytes.iter().enumerate() {
        if *b == b'\n' {
            return Some(i);
        }
    }
    None
}

/// The length of a line without the carriage return before its line feed.
fn len_before_feed(line: &[u8]) -> usize
    ensures within { result ≤ length line.now }
    ensures exact { take result line.now ≡ before_feed line.now }
{
    if !line.is_empty() && line[line.len() - 1] == b'\r' {
        return line.len() - 1;
    }
    line.len()
}

impl LineReader {
    ghost use Rattle.tt_render_texts.specs.LineReading.{GetsMore, LosesFirst, ReadsLine, held, line_at, text_left};

    /// A reader that has read nothing yet.
    pub fn new(alloc: Global) -> Result<LineReader, AllocError>
        ensures { IfOk result (λ r. held r ≡ []) }
    {
        Ok(LineReader {
            buf: vec![in alloc; 0u8; LINE_ROOM]?,
            from: 0,
            until: 0,
        })
    }

    /// Moves the held bytes to the front of the buffer.
    fn move_to_front(&mut self)
        ensures front { self.new.from ≡ 0 }
        ensures held { held self.new ≡ held self.old }
    {
        self.buf.copy_within(self.from..self.until, 0);
        self.until -= self.from;
        self.from = 0;
    }

    /// Reads more bytes into the buffer, and returns how many: 0 only at the end.
    fn read_more<R: Source>(&mut self, source: &mut R) -> Result<usize, IoFailed>
        requires room { length (held self.old) < line_room }
        ensures more { IfOk result (GetsMore (held self.old) (held self.new) (R.left source.old) (R.left source.new)) }
        ensures end { IfOk result (λ n. n ≡ 0 → IsAtEnd (R.left source.new)) }
        ensures same { OnErr result (held self.new ≡ held self.old) }
        ensures unchanged { OnErr result (Keeps (R.left source.old) (R.left source.new)) }
        ensures failure { RemembersFailure (R.has_failed source.old) (R.has_failed source.new) result }
    {
        self.move_to_front();
        let until = self.until;
        let n = read_after(source, &mut self.buf, until)?;
        self.until = until + n;
        Ok(n)
    }

    /// Gives out a line of `len` bytes before its line feed.
    fn give_line(&mut self, len: usize) -> LinePlace
        requires { len < length (held self.old) }
        ensures line { line_at self.new result ≡ before_feed (take len (held self.old)) }
        ensures rest { held self.new ≡ drop (len + 1) (held self.old) }
    {
        let from = self.from;
        let end = from + len;
        let len = len_before_feed(&self.buf[from..end]);
        self.from = end + 1;
        LinePlace {
            from,
            until: from + len,
        }
    }

    /// Gives out all held bytes as a line without a line feed.
    fn give_rest(&mut self) -> LinePlace
        ensures line { line_at self.new result ≡ held self.old }
        ensures rest { held self.new ≡ [] }
    {
        let from = self.from;
        self.from = self.until;
        LinePlace {
            from,
            until: self.until,
        }
    }

    /// The first line feed among the held bytes, behind the first `known`, which have none.
    fn feed_behind(&self, known: usize) -> Option<usize>
        requires within { known ≤ length (held self.now) }
        requires none { All (λ x. x ≢ 10) (take known (held self.now)) }
        ensures { MatchOption result (All (λ x. x ≢ 10) (held self.now)) (IsFirstFeed (held self.now)) }
    {
        let at = first_feed(&self.buf[self.from + known..self.until])?;
        Some(known + at)
    }

    /// The next line, if there is one. Error: the device failed.
    pub fn read_line<R: Source>(&mut self, source: &mut R) -> Result<NextLine, IoFailed>
        requires { R.has_failed source.old ≡ false }
        ensures outcome { ReadsLine self.new result (text_left self.old (R.left source.old)) (text_left self.new (R.left source.new)) }
        ensures failure { R.has_failed source.new ≡ is_err result }
    {
        let mut known = 0;
        'pieces: loop {
            if let Some(at) = self.feed_behind(known) {
                return Ok(NextLine::Line(self.give_line(at)));
            }
            known = self.until - self.from;
            if known > LINE_LIMIT + 1 {
                return Ok(NextLine::Long);
            }
            if self.read_more(source)? == 0 {
                if known == 0 {
                    return Ok(NextLine::End);
                }
                return Ok(NextLine::Line(self.give_rest()));
            }
        }
    }

    /// Passes over the next line, of which some bytes are held, whatever its length. Returns false where 2^64 - 1 reads
    /// found no end of the line. Error: the device failed.
    pub fn pass_line<R: Source>(&mut self, source: &mut R) -> Result<bool, IoFailed>
        requires serves { R.has_failed source.old ≡ false }
        requires some { 0 < length (held self.old) }
        ensures passed { IfOk result (λ found. found ≡ true → LosesFirst (text_left self.old (R.left source.old)) (text_left self.new (R.left source.new))) }
        ensures failure { R.has_failed source.new ≡ is_err result }
    {
        'pieces: for _ in 0..u64::MAX {
            if let Some(at) = self.feed_behind(0) {
                let _ = self.give_line(at);
                return Ok(true);
            }
            let _ = self.give_rest();
            if self.read_more(source)? == 0 {
                return Ok(true);
            }
        }
        Ok(false)
    }

    /// The bytes of the line given out last.
    pub fn line(&self, place: LinePlace) -> &[u8]
        ensures { result.now ≡ line_at self.now place }
    {
        &self.buf[place.from..place.until]
    }
}
