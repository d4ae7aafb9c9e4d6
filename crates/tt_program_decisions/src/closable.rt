//! Standard output, which remembers whether its reader had closed it.

ghost use Rattle.std.specs.Prelude.{◌≡◌, Bool, true, false};

use std::io::{ErrorKind, Write};
use tt_core::{IoFailed, Sink};
use tt_render_streams::{Formed, NotPut, Pictures, write_formed};

/// How many times an interrupted write is tried before it counts as failed.
const TRIES: u32 = 1000;

/// A `Sink` that its reader may close.
pub trait Closable: Sink {
    // Whether a write failed since the reader had closed the sink.
    ghost closes: { Self → Bool };

    /// Whether a write failed since the reader had closed the sink.
    fn is_closed(&self) -> bool
        ensures { result ≡ closes self.now };
}

/// A `Write` as a `Closable` sink.
#[derive(Drop)]
pub struct OutDevice<W> {
    inner: W,
    failed: bool,
    closed: bool,
}

impl<W> OutDevice<W> {
    ghost use Rattle.tt_program_decisions.specs.Closable.{has_output_failed, is_output_closed, output_inner};

    pub fn new(inner: W) -> Self
        ensures inner { output_inner result ≡ inner }
        ensures failure { has_output_failed result ≡ false }
        ensures closed { is_output_closed result ≡ false }
    {
        OutDevice {
            inner,
            failed: false,
            closed: false,
        }
    }

    /// Remembers a failure, and whether its cause is a reader that had closed the sink.
    fn fail(&mut self, closed: bool) -> IoFailed
        ensures { self.new ≡ record self.old { failed = true; closed = closed } }
    {
        self.failed = true;
        self.closed = closed;
        IoFailed
    }
}

impl<W: Write> Sink for OutDevice<W> {
    ghost use Rattle.std.specs.Prelude.{◌≡◌};
    ghost use Rattle.tt_program_decisions.specs.Closable.{has_output_failed, output_inner};

    ghost written = { λ o. W.contents (output_inner o) };

    ghost has_failed = { has_output_failed };

    fn write(&mut self, buf: &[u8]) -> Result<usize, IoFailed> {
        let mut closed = false;
        for _ in 0..TRIES {
            match self.inner.write(buf) {
                Ok(n) => {
                    if n > 0 || buf.is_empty() {
                        return Ok(n);
                    }
                    break;
                }
                Err(error) => {
                    closed = error.kind() == ErrorKind::BrokenPipe;
                    if error.kind() != ErrorKind::Interrupted {
                        break;
                    }
                }
            }
        }
        Err(self.fail(closed))
    }

    fn failed(&self) -> bool {
        self.failed
    }
}

impl<W: Write> Closable for OutDevice<W> {
    ghost use Rattle.tt_program_decisions.specs.Closable.{is_output_closed};

    ghost closes = { is_output_closed };

    fn is_closed(&self) -> bool {
        self.closed
    }
}

/// A stream of pictures.
impl<W: Write> Pictures for OutDevice<W> {
    ghost use Rattle.tt_program_decisions.specs.Closable.{has_output_failed, output_inner};

    ghost written = { λ o. W.contents (output_inner o) };

    ghost shown = { λ number bytes. bytes };

    ghost has_failed = { has_output_failed };

    fn put(&mut self, _number: Option<u32>, formed: Formed) -> Result<(), NotPut> {
        let mut formed = formed;
        match write_formed(self, &mut formed) {
            Ok(()) => Ok(()),
            Err(cut) => Err(NotPut::Cut { sent: cut.sent }),
        }
    }
}
