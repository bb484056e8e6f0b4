//! Where a walk over a list of items is.

/// What is known of a chain of conditions before the next item.
#[derive(Clone, Copy)]
pub struct Chain {
    /// The item before has `@if` or `@elif`, so that the chain may go on.
    pub is_open: bool,
    /// An item of the chain stays, whose condition is not decided.
    pub is_waiting: bool,
    /// An item of the chain is true, so that later ones go.
    pub is_decided: bool,
}
