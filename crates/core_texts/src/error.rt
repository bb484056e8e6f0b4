//! Why a text is no unit of the part, and why a unit has no text.

use core_widening::NarrowError;
use std::alloc::AllocError;
use thiserror::Error as Message;
use wgsl_base::Text;
use wgsl_token::fault::{Error, Refusal};

/// Why a text is no unit of the part.
#[derive(Clone, Copy, Debug, Message)]
pub enum PartError {
    /// The text is no module: its first fault.
    #[error("{0}")]
    Syntax(Error),
    /// The text is a module, and uses what is beyond the part.
    #[error("it uses what is not supported yet")]
    Unsupported,
    /// The parser gave up on the text, which is nested too deep. This says nothing else of it.
    #[error("{0}")]
    GaveUp(Refusal),
    /// Memory was refused. This says nothing of the text.
    #[error("out of memory")]
    OutOfMemory,
}

/// Why a unit is not printed.
#[derive(Debug, Drop, Message)]
pub enum PrintError {
    /// No text derives the unit. The name is that of the first node that no text derives, in the order of the text, though one derives each
    /// of its parts; or that of the declaration that holds it, where the node has no name.
    #[error("no text stands for it")]
    Unprintable(Option<Text>),
    /// The parser gave up on what was printed, which is nested deeper than a text may be. This says nothing else of the unit.
    #[error("{0}")]
    GaveUp(Refusal),
    /// Memory was refused. This says nothing of the unit.
    #[error("out of memory")]
    OutOfMemory,
}

impl From<AllocError> for PartError {
    ghost use Rattle.std.specs.Prelude.{◌≡◌};
    ghost use Rattle.core_texts.specs.declared.error.PartError.TheVariants.{OutOfMemory};

    ghost from_gives = { λ _ error. error ≡ OutOfMemory };

    fn from(_error: AllocError) -> PartError {
        PartError::OutOfMemory
    }
}

impl From<NarrowError> for PartError {
    ghost use Rattle.std.specs.Prelude.{◌≡◌};
    ghost use Rattle.core_texts.specs.Texts.{of_narrowing};

    ghost from_gives = { λ narrowing error. error ≡ of_narrowing narrowing };

    fn from(error: NarrowError) -> PartError {
        match error {
            NarrowError::Unsupported => PartError::Unsupported,
            NarrowError::OutOfMemory => PartError::OutOfMemory,
        }
    }
}

impl From<AllocError> for PrintError {
    ghost use Rattle.std.specs.Prelude.{◌≡◌};
    ghost use Rattle.core_texts.specs.declared.error.PrintError.TheVariants.{OutOfMemory};

    ghost from_gives = { λ _ error. error ≡ OutOfMemory };

    fn from(_error: AllocError) -> PrintError {
        PrintError::OutOfMemory
    }
}
