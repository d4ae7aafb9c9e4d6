//! The program's decisions: the request of a command line, and the exit status and line of each end.
#![tactic(auto)]

mod bdf;
mod closable;
mod instances;
mod labelling;
mod output;
mod performing;
mod refusal;
mod request;
mod rules;
mod stopping;
mod telling;
mod telling_bdf;
mod telling_labels;
mod telling_texts;
mod tips;
mod unfound;
mod unopened;

pub use bdf::{BdfRequest, stop_of_request};
pub use closable::{Closable, OutDevice};
pub use instances::{InstanceWords, axes_asked, instance_words};
pub use labelling::{LabelOptions, align_named};
pub use output::file_name;
pub use performing::perform;
pub use request::{Arguments, GLYPHS_KEPT, Request, fit_named, missing_named, request_of};
pub use stopping::{Stop, stop_of_open, stop_of_print, stop_of_words, tell_stop};
pub use tips::tell_refused;
pub use unopened::{tell_unmade, tell_unopened};
