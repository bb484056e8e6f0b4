//! Why a text is not precompiled.

use std::alloc::AllocError;
use wesl_cond::CondCompError;
use wgsl_base::Text;
use wgsl_check_unit::Error;
use wgsl_token::fault::Refusal;

/// Why a text is not precompiled.
#[derive(Debug, Drop, PartialEq)]
pub enum PrecompileError {
    /// Memory was refused. This says nothing of the text.
    OutOfMemory,
    /// The fault of the text.
    Syntax(Error),
    /// The first error of its conditions.
    Condition(CondCompError),
    /// No text derives what is left. The name is what `check_unit` tells of it: that of the first node that no text derives, or of the
    /// declaration that holds it, if there is one.
    Unprintable(Option<Text>),
    /// The parser gave up: on the text, which is nested too deep, or on what is left of it. This says nothing else of the text.
    GaveUp(Refusal),
}

impl From<AllocError> for PrecompileError {
    ghost use Rattle.std.specs.Prelude.{◌≡◌};
    ghost use Rattle.weslc_precompile.specs.declared.error.PrecompileError.TheVariants.{OutOfMemory};

    ghost from_gives = { λ _ error. error ≡ OutOfMemory };

    fn from(_error: AllocError) -> PrecompileError {
        PrecompileError::OutOfMemory
    }
}
