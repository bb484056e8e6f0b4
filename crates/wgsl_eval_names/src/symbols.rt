//! The declarations of a module by their names and numbers, without the statements of functions.

mod aliases;
mod declared;
mod directory;
mod follow;

pub use declared::{Declared, Header};
pub use directory::Directory;
pub use follow::{Meaning, Target};
pub use wgsl_declarations::Struct;
