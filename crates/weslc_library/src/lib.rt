//! `weslc` as a library: its calls, and the crates that are named for what they give, one name a crate. The program `weslc` reads a bundle
//! and makes these calls.
#![tactic(auto)]

mod surface;

pub use wesl_cond;
pub use wesl_link;
pub use weslc_bundle::{
    BasicSourceMap, Binding, CompileError, CompileRefusal, ErrorContext, Feature, Features, Mode,
    Options, OverrideValue, PrecompileError, RunRefusal, RunResult, SourceMap, VirtualResolver,
    compile, eval, link, precompile, run, serve_bundle,
};
pub use weslc_workspace::{Compiled, Linked, Workspace};
pub use wgsl_context;
pub use wgsl_lower;
pub use wgsl_parse;
pub use wgsl_syntax;
pub use wgsl_to_expr;
pub use wgsl_types;
pub use wgsl_value;
