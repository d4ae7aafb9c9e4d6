//! The reading that a request asks for (profile).

ghost use Rattle.std.specs.Prelude.{◌≡◌};
ghost use Rattle.tt_render_texts.specs.Readings.{fit_reading, reading_asked};

use tt_core::Reading;
use tt_fit::Fit;

/// The reading with a fit alone. `Fit::Best` is for any font, so its reading is wide.
pub fn fit_reading(fit: Fit) -> Reading
    ensures { result ≡ fit_reading fit }
{
    match fit {
        Fit::Best => Reading::Wide { face: 0 },
        Fit::Full | Fit::None | Fit::Fallback => Reading::Strict,
    }
}

/// The wide reading of a face with a number; without one, the other reading.
pub fn reading_asked(face: Option<u32>, other: Reading) -> Reading
    ensures { result ≡ reading_asked face other }
{
    match face {
        Some(face) => Reading::Wide { face },
        None => other,
    }
}
