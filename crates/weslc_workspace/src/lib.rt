//! A workspace: modules that are edited, and what is linked and compiled of them.
#![tactic(auto)]

mod answer;
mod asking;
mod content;
mod modules;
mod parse;
mod printed;
mod workspace;

pub use answer::{Compiled, Linked};
pub use content::Workspace;
pub use weslc_calls::{
    BasicSourceMap, CompileError, ErrorContext, Feature, Mode, Options, SourceMap,
};
pub use weslc_compile::CompileRefusal;
