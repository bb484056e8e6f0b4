//! Errors of conditions.

use crate::fields::kind::Kind;
use weslc_bundle::{CondCompError, condition_kind};
use wgsl_base::Text;

pub(crate) fn kind_of(error: &CondCompError) -> Kind {
    Kind::inner("Condition", condition_kind(error))
}

/// The flag that an error is about.
pub(crate) fn flag_of(error: &CondCompError) -> Option<&Text> {
    match error {
        CondCompError::InvalidFeatureFlag(flag) | CondCompError::UnexpectedFeatureFlag(flag) => {
            Some(flag)
        }
        CondCompError::InvalidExpression
        | CondCompError::NoPrecedingIf
        | CondCompError::DuplicateIf
        | CondCompError::OutOfMemory => None,
    }
}
