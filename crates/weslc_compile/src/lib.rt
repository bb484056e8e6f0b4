//! The call `compile` over the whole language.
#![tactic(auto)]

mod calls;
mod compiling;
mod refusal;

pub use calls::compile;
pub use refusal::CompileRefusal;
pub use weslc_calls::{
    BasicSourceMap, CompileError, CoreAnswer, ErrorContext, EscapeMangler, Fault, Feature,
    ImportKind, Mode, NameFault, Options, ResolveError, ResolveKind, SourceMap, ValidateError,
    VirtualResolver, link, try_compile,
};
pub use wgsl_lower::{Refused, lower, lower_owned};
