//! The font of a fitter: its metrics, and its instance.

ghost use Rattle.std.specs.Prelude.{◌≡◌};

use tt_face::FaceInstance;
use tt_metrics::Metrics;

/// A font's metrics, and its instance if that is not the default.
#[derive(Drop)]
pub(crate) struct FittedFont<'a> {
    pub(crate) metrics: Metrics<'a>,
    pub(crate) instance: Option<FaceInstance<'a>>,
}

/// A copy of a font's instance. The bytes of tables are not copied.
pub(crate) fn instance_copy<'a>(instance: &Option<FaceInstance<'a>>) -> Option<FaceInstance<'a>>
    ensures { result ≡ instance.now }
{
    match instance {
        Some(own) => Some(own.copy()),
        None => None,
    }
}
