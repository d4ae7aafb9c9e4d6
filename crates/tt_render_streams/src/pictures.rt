//! Where the pictures of texts go.

ghost use Rattle.std.specs.Prelude.{◌≡◌, ℕ, Bool, false, List, Option};
ghost use Rattle.tt_render_streams.specs.Formed.{IsWhole, formed_bytes};
ghost use Rattle.tt_render_streams.specs.Putting.{Puts};

use crate::formed::{Formed, write_formed};
use std::io::Write;
use tt_core::Device;

/// Why a picture is not in its place, or not all of it.
#[derive(Clone, Copy, Debug, PartialEq, Eq)]
pub enum NotPut {
    /// Its place could not be made, as a file that cannot be created. Nothing was written.
    Uncreated,
    /// Writing failed after `sent` bytes of the picture.
    Cut { sent: u64 },
}

/// Where pictures go, one after the other: to one stream, or each to a place of its own, as a file.
pub trait Pictures {
    // The bytes that stand there so far, if they are known.
    ghost written: { Self → Option (List ℕ) };

    // The bytes there of a picture, by its line's number and by its bytes. A stream has the bytes alone.
    ghost shown: { Option ℕ → List ℕ → List ℕ };

    ghost has_failed: { Self → Bool };

    /// Makes the place of a picture, which is whole in memory, and writes its file there. `number` is that of the
    /// picture's line, if the picture is one of many.
    fn put(&mut self, number: Option<u32>, formed: Formed) -> Result<(), NotPut>
        requires serves { has_failed self.old ≡ false }
        requires whole { IsWhole formed }
        ensures { Puts (shown number) result (written self.old) (written self.new) (has_failed self.new) (formed_bytes formed) };
}

/// A stream.
impl<W: Write> Pictures for Device<W> {
    ghost use Rattle.tt_core.specs.Device.{device_inner, has_device_failed};

    ghost written = { λ d. W.contents (device_inner d) };

    ghost shown = { λ number bytes. bytes };

    ghost has_failed = { has_device_failed };

    fn put(&mut self, _number: Option<u32>, formed: Formed) -> Result<(), NotPut> {
        let mut formed = formed;
        match write_formed(self, &mut formed) {
            Ok(()) => Ok(()),
            Err(cut) => Err(NotPut::Cut { sent: cut.sent }),
        }
    }
}
