//! What is known of a declaration.

use wgsl_memory::Instance;
use wgsl_shader_type::Type;

/// What is known of a declaration.
#[derive(Drop)]
pub enum Slot {
    /// Nothing yet.
    Unknown,
    /// It is being evaluated.
    Open,
    /// The value of a const or an override, or the reference of a variable.
    Found(Instance),
    /// An assertion holds.
    Tested,
    /// The type of a structure, and how many steps it took.
    Struct(Type, u64),
}
