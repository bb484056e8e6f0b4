//! Whether tokens begin with what stands in a template list.

ghost use Rattle.std.specs.Prelude.{IfOk};
ghost use Rattle.wgsl_templates.specs.Answers.{IsAnswer};

use crate::meaning::Kind;
use std::alloc::AllocError;

/// What some tokens from the front say of a template list.
#[derive(Clone, Copy)]
pub enum Answer {
    /// One stands first.
    List,
    /// None does, whatever follows.
    Never,
    /// None does, if nothing follows.
    Unfinished,
}

/// A recognizer of template lists.
pub trait Recognizer {
    /// Whether tokens behind the start of a template list begin with what stands in one. Only memory can fail.
    fn recognize(&self, kinds: &[Kind]) -> Result<Answer, AllocError>
        ensures { IfOk result (IsAnswer kinds.now) };
}
