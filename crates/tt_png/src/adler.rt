//! Adler-32. RFC 1950, sections 2.2 and 9.

ghost use Rattle.std.specs.Prelude.{◌≡◌, ◌^◌, ◌<◌, length};
ghost use Rattle.tt_png.specs.Adler.{adler_32};

/// The greatest prime below 2^16.
const BASE: u64 = 65521;

/// The Adler-32 of bytes. They are so few that both sums fit without a remainder on the way.
pub(crate) fn adler_32(bytes: &[u8]) -> u32
    requires { length bytes.now < 2 ^ 24 }
    ensures { result ≡ adler_32 bytes.now }
{
    let mut first: u64 = 1;
    let mut second: u64 = 0;
    for byte in bytes {
        first += u64::from(*byte);
        second += first;
    }
    (second % BASE * 65536 + first % BASE) as u32
}
