//! Phrases of WGSL and of the grammar of imports, read from tokens: the driver of the parser that shifts and reduces. A phrase has parts, a
//! place, failed checks and a depth; those of a rule are gathered, and what the rule makes of them stands in their place.
#![tactic(auto)]

mod alone;
mod answer;
mod driver;
mod failure;
mod gather;
mod leaf;
mod phrase;

pub use answer::{Unread, read};
pub use driver::{MAX_DEPTH, Reader, Start};
pub use phrase::{Check, Failure};
pub use wgsl_reduce_actions::StatementNode;
pub use wgsl_semantic_values::{GlobalDeclarationNode, Part, TranslationUnit, let_go, take};
