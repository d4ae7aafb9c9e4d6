//! Writing all bytes.

ghost use Rattle.std.specs.Prelude.{◌≡◌, false};
ghost use Rattle.tt_pbm.specs.Writing.{Writes};

use tt_core::Sink;

/// A write failed. Only the first `sent` bytes of the call were written.
#[derive(Clone, Copy, Debug, PartialEq, Eq)]
pub struct Cut {
    pub sent: u64,
}

/// Writes all of the bytes. Error: a Cut if a write fails; the sink has then failed.
pub fn write_all_of<W: Sink>(out: &mut W, bytes: &[u8]) -> Result<(), Cut>
    requires { W.has_failed out.old ≡ false }
    ensures { Writes result (W.written out.old) (W.written out.new) (W.has_failed out.new) bytes.now }
{
    let mut sent = 0;
    while sent < bytes.len() {
        match out.write(&bytes[sent..]) {
            Ok(n) => sent += n,
            Err(_) => return Err(Cut { sent: sent as u64 }),
        }
    }
    Ok(())
}
