//! Where the program writes: standard output, and files of pictures.

ghost use Rattle.std.specs.Prelude.{◌≡◌, ℕ, false, List, Option, None, IfErr};
ghost use Rattle.tt_render_streams.specs.Formed.{IsWhole, formed_bytes};
ghost use Rattle.tt_render_streams.specs.Putting.{IsPart};

use std::fs;
use std::io::{ErrorKind, Write};
use std::rt::Files;
use tt_core::{Device, IoFailed, Sink};
use tt_program_decisions::{Closable, OutDevice, file_name};
use tt_render_streams::{Formed, NotPut, Pictures, write_formed};

/// A file that could not be created, and why.
#[derive(Drop)]
pub(crate) struct Unmade {
    pub(crate) path: String,
    pub(crate) kind: ErrorKind,
}

/// Standard output, and the files of pictures, if `-o` names some.
#[derive(Drop)]
pub(crate) struct OutputFiles<'a, W, R> {
    files: &'a R,
    stream: OutDevice<W>,
    /// The name of the files of pictures. Without one they go to standard output.
    name: Option<&'a str>,
    /// Whether a picture is not in its place.
    failed: bool,
    pub(crate) unmade: Option<Unmade>,
}

impl<'a, W: Write, R: Files + AllocGlobal> OutputFiles<'a, W, R> {
    ghost use Rattle.tt_program_decisions.specs.Closable.{has_output_failed};

    /// Nothing is written yet.
    pub(crate) fn new(files: &'a R, stream: W, name: Option<&'a str>) -> OutputFiles<'a, W, R>
        ensures stream { has_output_failed result.stream ≡ false }
        ensures pictures { result.failed ≡ false }
    {
        OutputFiles {
            files,
            stream: OutDevice::new(stream),
            name,
            failed: false,
            unmade: None,
        }
    }

    /// Writes a picture to standard output.
    fn put_stream(&mut self, formed: &mut Formed) -> Result<(), NotPut>
        requires { IsWhole formed.old }
        ensures { IfErr result (IsPart (λ bytes. bytes) None None (formed_bytes formed.old)) }
    {
        if self.stream.failed() {
            return Err(NotPut::Uncreated);
        }
        put_all(&mut self.stream, formed)
    }

    /// Creates the file of a picture, and writes the picture there.
    fn put_file(
        &mut self,
        name: &str,
        number: Option<u32>,
        formed: &mut Formed,
    ) -> Result<(), NotPut>
        requires { IsWhole formed.old }
        ensures { IfErr result (IsPart (λ bytes. bytes) None None (formed_bytes formed.old)) }
    {
        let Ok(path) = file_name(self.files.alloc(), name, number) else {
            return Err(NotPut::Uncreated);
        };
        match fs::create(self.files, path.as_str()) {
            Ok(file) => put_all(&mut Device::new(file), formed),
            Err(error) => {
                self.unmade = Some(Unmade {
                    path,
                    kind: error.kind(),
                });
                Err(NotPut::Uncreated)
            }
        }
    }
}

/// Writes a picture.
fn put_all<S: Sink>(out: &mut S, formed: &mut Formed) -> Result<(), NotPut>
    requires out { S.has_failed out.old ≡ false }
    requires whole { IsWhole formed.old }
    ensures { IfErr result (IsPart (λ bytes. bytes) None None (formed_bytes formed.old)) }
{
    match write_formed(out, formed) {
        Ok(()) => Ok(()),
        Err(cut) => Err(NotPut::Cut { sent: cut.sent }),
    }
}

impl<'a, W: Write, R: Files + AllocGlobal> Sink for OutputFiles<'a, W, R> {
    ghost use Rattle.tt_program_decisions.specs.Closable.{has_output_failed, output_inner};

    ghost written = { λ o. W.contents (output_inner o.stream) };

    ghost has_failed = { λ o. has_output_failed o.stream };

    /// Writes to standard output. A method (for the prover): one type is the sink of texts and takes the pictures.
    fn write(&mut self, buf: &[u8]) -> Result<usize, IoFailed> {
        self.stream.write(buf)
    }

    fn failed(&self) -> bool {
        self.stream.failed()
    }
}

impl<'a, W: Write, R: Files + AllocGlobal> Closable for OutputFiles<'a, W, R> {
    ghost use Rattle.tt_program_decisions.specs.Closable.{is_output_closed};

    ghost closes = { λ o. is_output_closed o.stream };

    fn is_closed(&self) -> bool {
        self.stream.is_closed()
    }
}

// No contract knows what stands in files.
impl<'a, W: Write, R: Files + AllocGlobal> Pictures for OutputFiles<'a, W, R> {
    ghost written = { λ o. None };

    ghost shown = { λ number bytes. bytes };

    ghost has_failed = { λ o. o.failed };

    fn put(&mut self, number: Option<u32>, formed: Formed) -> Result<(), NotPut> {
        let mut formed = formed;
        let put = match self.name {
            Some(name) => self.put_file(name, number, &mut formed),
            None => self.put_stream(&mut formed),
        };
        self.failed = put.is_err();
        put
    }
}
