//! The program `wesl`, for any runtime: from the words of a command line to a text or an error.
#![tactic(auto)]

mod answer;
mod asked;
mod failure;
mod handed;
mod map;
mod notes;
mod options;
mod outputs;
mod reading;
mod refusal;
mod run;
mod same;
mod serve;
mod written;

pub use run::run_words;
pub use wesl_diagnostics::serve_bundle;
