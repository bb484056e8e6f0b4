//! The errors of conditions.

use std::alloc::AllocError;
use thiserror::Error as Message;
use wgsl_base::Text;

/// What is wrong with a condition.
#[derive(Debug, Drop, PartialEq, Message)]
pub enum CondCompError {
    /// The name of a flag has a path or template arguments. It is given as it is printed.
    #[error("invalid feature flag `{0}`")]
    InvalidFeatureFlag(Text),
    /// The flag is set to `Feature::Error`.
    #[error("unexpected feature flag `{0}`")]
    UnexpectedFeatureFlag(Text),
    /// The expression is no condition.
    #[error("invalid condition")]
    InvalidExpression,
    /// `@elif` or `@else` without an `@if` or `@elif` on the item before.
    #[error("`@elif` or `@else` without a preceding `@if` or `@elif`")]
    NoPrecedingIf,
    /// An item has two conditions.
    #[error("more than one condition on one item")]
    DuplicateIf,
    /// Memory was refused. This says nothing of the conditions.
    #[error("out of memory")]
    OutOfMemory,
}

impl From<AllocError> for CondCompError {
    ghost use Rattle.std.specs.Prelude.{◌≡◌};
    ghost use Rattle.wesl_conditions.specs.declared.features.error.CondCompError.TheVariants.{OutOfMemory};

    ghost from_gives = { λ _ error. error ≡ OutOfMemory };

    fn from(_error: AllocError) -> CondCompError {
        CondCompError::OutOfMemory
    }
}
