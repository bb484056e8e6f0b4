//! Texts that are laid out as given tokens: what the tokens of a text are depends on the tokens alone, and not on the blankspace and
//! the comments between them.

pub mod laws;
