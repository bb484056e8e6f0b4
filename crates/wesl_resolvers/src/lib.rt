//! Where whole modules come from: the trait that finds them by their paths, and resolvers over one other resolver.
#![tactic(auto)]

mod error;
mod none;
mod owned;
mod recording;
mod resolver;

pub use error::ResolveError;
pub use none::NoResolver;
pub use recording::RecordingResolver;
pub use resolver::Resolver;
pub use wesl_conditions::CondCompError;
pub use wgsl_token::fault::{Error, Refusal};
