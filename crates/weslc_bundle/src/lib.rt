//! The program: from a bundle on one reader to a text on a writer, or to a line about the first fault.
#![tactic(auto)]

mod answer;
mod bundle;
mod error;
mod features;
mod field;
mod handed;
mod input;
mod kinds;
mod options;
mod output;
mod request;
mod running;
mod serve;

pub use error::ServeError;
pub use features::read_feature;
pub use field::Field;
pub use kinds::{condition_kind, eval_kind, syntax_kind, validate_kind};
pub use options::read_options;
pub use request::{BundleError, Key};
pub use serve::serve_bundle;
pub use wesl_conditions::{CondCompError, Features};
pub use weslc_compile::{
    BasicSourceMap, CompileError, CompileRefusal, CoreAnswer, ErrorContext, EscapeMangler, Feature,
    ImportKind, Mode, Options, Refused, ResolveError, ResolveKind, SourceMap, VirtualResolver,
    compile, link, lower, try_compile,
};
pub use weslc_precompile::{PrecompileError, Unprintable, check_unit, parse_str, precompile};
pub use weslc_run::{RunRefusal, eval, run};
pub use weslc_values::{
    Binding, OverrideValue, RunResult, ValueError, inputs_of, read_bindings, read_inputs,
    read_overrides, result_text, zero_inputs,
};
pub use wgsl_eval_machine::Fault;
