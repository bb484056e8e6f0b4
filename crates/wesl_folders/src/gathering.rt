//! The files of the modules that a call asks for: read one by one, as loading asks for them, into a resolver that holds their texts.

mod loading;
mod rounds;
mod sources;

pub use rounds::{Wanted, gather};
pub use sources::{ModuleFile, Sources};
