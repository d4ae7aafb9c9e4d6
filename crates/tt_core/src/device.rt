//! Readers and writers that remember whether they failed.

ghost use Rattle.std.specs.Prelude.{◌≡◌, ℕ, Bool, true, false, List, Option};
ghost use Rattle.std.specs.Io.{ReadsAtMost, WritesAtMost};
ghost use Rattle.std.specs.Io.KnownBytes.{ReadConsumes, WriteAppends};
ghost use Rattle.tt_core.specs.Device.{RemembersFailure, TakesSome};

use std::io::{ErrorKind, Read, Write};
use thiserror::Error;

/// How many times an interrupted call is tried before it counts as failed.
const TRIES: u32 = 1000;

/// The device failed. The cause is not reported.
#[derive(Clone, Copy, Debug, PartialEq, Eq, Error)]
#[error("the device failed")]
pub struct IoFailed;

/// The source of a font's bytes.
pub trait Source {
    // The bytes that later reads will give, if they are known.
    ghost left: { Self → Option (List ℕ) };

    ghost has_failed: { Self → Bool };

    /// Reads some bytes to the front of `buf` and returns their number. The number is 0 only at the end, or if `buf`
    /// is empty.
    fn read(&mut self, buf: &mut [u8]) -> Result<usize, IoFailed>
        ensures bound { ReadsAtMost result buf.new }
        ensures bytes { ReadConsumes (left self.old) (left self.new) result buf.new }
        ensures failure { RemembersFailure (has_failed self.old) (has_failed self.new) result };

    /// Whether a call has returned IoFailed.
    fn failed(&self) -> bool
        ensures { result ≡ has_failed self.now };
}

/// The destination of the lines or the picture.
pub trait Sink {
    // The bytes written so far, if they are known.
    ghost written: { Self → Option (List ℕ) };

    ghost has_failed: { Self → Bool };

    /// Writes some bytes from the front of `buf` and returns their number: at least one, unless `buf` is empty.
    fn write(&mut self, buf: &[u8]) -> Result<usize, IoFailed>
        ensures bound { WritesAtMost result buf.now }
        ensures some { TakesSome result buf.now }
        ensures bytes { WriteAppends (written self.old) (written self.new) result buf.now }
        ensures failure { RemembersFailure (has_failed self.old) (has_failed self.new) result };

    /// Whether a call has returned IoFailed.
    fn failed(&self) -> bool
        ensures { result ≡ has_failed self.now };
}

/// A `Read` as a `Source`, or a `Write` as a `Sink`.
#[derive(Drop)]
pub struct Device<T> {
    inner: T,
    failed: bool,
}

impl<T> Device<T> {
    ghost use Rattle.tt_core.specs.Device.{device_inner, has_device_failed};

    pub fn new(inner: T) -> Self
        ensures inner { device_inner result ≡ inner }
        ensures failure { has_device_failed result ≡ false }
    {
        Device {
            inner,
            failed: false,
        }
    }

    fn fail(&mut self) -> IoFailed
        ensures { self.new ≡ record self.old { failed = true } }
    {
        self.failed = true;
        IoFailed
    }
}

impl<R: Read> Source for Device<R> {
    ghost use Rattle.std.specs.Prelude.{◌≡◌};
    ghost use Rattle.tt_core.specs.Device.{device_inner, has_device_failed};

    ghost left = { λ d. R.remaining (device_inner d) };

    ghost has_failed = { has_device_failed };

    fn read(&mut self, buf: &mut [u8]) -> Result<usize, IoFailed> {
        for _ in 0..TRIES {
            match self.inner.read(buf) {
                Ok(n) => return Ok(n),
                Err(error) => {
                    if error.kind() != ErrorKind::Interrupted {
                        break;
                    }
                }
            }
        }
        Err(self.fail())
    }

    fn failed(&self) -> bool {
        self.failed
    }
}

impl<W: Write> Sink for Device<W> {
    ghost use Rattle.std.specs.Prelude.{◌≡◌};
    ghost use Rattle.tt_core.specs.Device.{device_inner, has_device_failed};

    ghost written = { λ d. W.contents (device_inner d) };

    ghost has_failed = { has_device_failed };

    fn write(&mut self, buf: &[u8]) -> Result<usize, IoFailed> {
        for _ in 0..TRIES {
            match self.inner.write(buf) {
                Ok(n) => {
                    if n > 0 || buf.is_empty() {
                        return Ok(n);
                    }
                    break;
                }
                Err(error) => {
                    if error.kind() != ErrorKind::Interrupted {
                        break;
                    }
                }
            }
        }
        Err(self.fail())
    }

    fn failed(&self) -> bool {
        self.failed
    }
}
