//! The places of a module.

/// What stands at a place of a module.
#[derive(Clone, Copy, PartialEq, Eq)]
pub enum Kind {
    Directive,
    /// A `;` alone.
    Void,
    Assertion,
    Variable,
    Alias,
    Struct {
        members: u32,
    },
    Function {
        parameters: u32,
        is_entry_point: bool,
    },
}

/// A directive or a declaration of a module.
#[derive(Clone, Copy)]
pub struct Place {
    pub kind: Kind,
    /// The number of its name, where it has one.
    pub name: Option<u32>,
    /// Its marks are those of the list from `start` on, up to `end`, which is not among them.
    pub start: usize,
    pub end: usize,
}
