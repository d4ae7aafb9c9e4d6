//! Readers and writers that are interrupted, or fail.

ghost use Rattle.std.specs.Prelude.{◌≡◌, ◌≤◌, length};

use std::io::{self, ErrorKind, Read, Write};

/// A device whose first `times` calls fail with `kind`. After them a read gives a byte 7, and a write takes one byte.
#[derive(Drop)]
pub(crate) struct Failing {
    pub(crate) times: u32,
    pub(crate) kind: ErrorKind,
}

impl Failing {
    fn fails(&mut self) -> bool {
        if self.times == 0 {
            return false;
        }
        self.times -= 1;
        true
    }
}

impl Read for Failing {
    fn read(&mut self, buf: &mut [u8]) -> io::Result<usize> {
        if self.fails() {
            return Err(io::Error::from(self.kind));
        }
        Ok(first_of(buf))
    }
}

impl Write for Failing {
    fn write(&mut self, buf: &[u8]) -> io::Result<usize> {
        if self.fails() {
            return Err(io::Error::from(self.kind));
        }
        Ok(buf.len().min(1))
    }

    fn flush(&mut self) -> io::Result<()> {
        Ok(())
    }
}

/// Puts a byte 7 at the front, where there is room for one.
fn first_of(buf: &mut [u8]) -> usize
    ensures len { length buf.new ≡ length buf.old }
    ensures bound { result ≤ length buf.new }
{
    if buf.is_empty() {
        return 0;
    }
    buf[0] = 7;
    1
}
