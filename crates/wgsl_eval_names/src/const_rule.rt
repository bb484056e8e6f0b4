//! What the declarations of a module use, which of its functions are const by the rule, and in which order its values are started.

mod backward;
mod order;
mod rule;
mod statements;
mod uses;
mod walk;

pub use order::start_order;
pub use rule::const_functions;
pub use uses::{Used, uses_of};
