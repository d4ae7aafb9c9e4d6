//! A reader and a writer over memory that move few bytes, or fail.

use std::io::{self, ErrorKind, Read, Write};

/// How a font is read, and how what is written is taken.
#[derive(Clone, Copy)]
pub(crate) struct Manner {
    /// How many bytes a call reads at most.
    pub(crate) read_step: usize,
    /// The number of the read that fails, or 0.
    pub(crate) fails_at: usize,
    /// How many bytes a call writes at most.
    pub(crate) write_step: usize,
    /// How many bytes are taken in all.
    pub(crate) room: usize,
    /// How a write after those ends.
    pub(crate) end: End,
}

/// How a write without room ends.
#[derive(Clone, Copy)]
pub(crate) enum End {
    /// It fails.
    Fails,
    /// It takes nothing.
    TakesNothing,
    /// It fails since the reader has closed the device.
    Closed,
}

impl Manner {
    /// All at once, and nothing fails.
    pub(crate) fn whole() -> Manner {
        Manner {
            read_step: usize::MAX,
            fails_at: 0,
            write_step: usize::MAX,
            room: usize::MAX,
            end: End::Fails,
        }
    }

    /// The same, but for the number of the read that fails.
    pub(crate) fn failing_at(self, fails_at: usize) -> Manner {
        Manner { fails_at, ..self }
    }
}

/// The bytes that are read.
#[derive(Drop)]
pub(crate) struct Given<'a> {
    bytes: &'a [u8],
    manner: Manner,
    calls: usize,
}

impl<'a> Given<'a> {
    pub(crate) fn new(bytes: &'a [u8], manner: Manner) -> Given<'a> {
        Given {
            bytes,
            manner,
            calls: 0,
        }
    }

    pub(crate) fn manner(&self) -> Manner {
        self.manner
    }
}

impl<'a> Read for Given<'a> {
    fn read(&mut self, buf: &mut [u8]) -> io::Result<usize> {
        self.calls = self.calls.saturating_add(1);
        if self.calls == self.manner.fails_at {
            return Err(io::Error::from(ErrorKind::BrokenPipe));
        }
        let n = self.manner.read_step.min(buf.len()).min(self.bytes.len());
        let (front, rest) = self.bytes.split_at(n);
        buf[..n].copy_from_slice(front);
        self.bytes = rest;
        Ok(n)
    }
}

const FNV_OFFSET: u64 = 0xCBF2_9CE4_8422_2325;

const FNV_PRIME: u64 = 0x0100_0000_01B3;

/// What was written: its count and its sum by FNV-1a.
#[derive(Drop)]
pub(crate) struct Written {
    manner: Manner,
    count: usize,
    sum: u64,
}

impl Written {
    pub(crate) fn new(manner: Manner) -> Written {
        Written {
            manner,
            count: 0,
            sum: FNV_OFFSET,
        }
    }

    pub(crate) fn count(&self) -> usize {
        self.count
    }

    pub(crate) fn sum(&self) -> u64 {
        self.sum
    }

    fn add(&mut self, bytes: &[u8]) {
        for byte in bytes {
            self.sum = (self.sum ^ u64::from(*byte)).wrapping_mul(FNV_PRIME);
        }
        self.count = self.count.saturating_add(bytes.len());
    }
}

impl Write for Written {
    fn write(&mut self, buf: &[u8]) -> io::Result<usize> {
        let left = self.manner.room.saturating_sub(self.count);
        let n = self.manner.write_step.min(buf.len()).min(left);
        if n == 0 && !buf.is_empty() {
            match self.manner.end {
                End::Fails => return Err(io::Error::from(ErrorKind::Other)),
                End::Closed => return Err(io::Error::from(ErrorKind::BrokenPipe)),
                End::TakesNothing => {}
            }
        }
        self.add(&buf[..n]);
        Ok(n)
    }

    fn flush(&mut self) -> io::Result<()> {
        Ok(())
    }
}
