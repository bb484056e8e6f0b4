//! Why a linked unit has no compiled text.

use core_lower::DeclarationFault;
use core_validate::ValidateFault;
use std::alloc::AllocError;
use thiserror::Error as Message;
use wgsl_base::Text;
use wgsl_token::fault::Refusal;

/// Why a linked unit is not compiled. The first fault is named, in the order of these variants; names are those of the
/// linked unit.
#[derive(Debug, Drop, Message)]
pub enum UnitRefusal {
    #[error("{0}")]
    Validate(ValidateFault),
    /// Two declarations, or a declaration and a parameter, have this name in the text, or WGSL declares it.
    #[error("the name {0} is unclear")]
    UnclearName(Text),
    /// A const has no value, or what is rewritten is at fault.
    #[error("an evaluation goes wrong")]
    Eval(DeclarationFault),
    /// No text derives what is compiled. The name is that of the first node that no text derives, in the order of the text, though one derives
    /// each of its parts; or that of the declaration that holds it, where the node has no name.
    #[error("no text stands for what is compiled")]
    Unprintable(Option<Text>),
    /// The parser gave up on the text of what is compiled, which is nested deeper than a text may be. This says nothing else of the unit.
    #[error("{0}")]
    GaveUp(Refusal),
    /// Memory was refused. This says nothing of the unit.
    #[error("out of memory")]
    OutOfMemory,
}

impl From<AllocError> for UnitRefusal {
    ghost use Rattle.std.specs.Prelude.{◌≡◌};
    ghost use Rattle.core_unit.specs.declared.error.UnitRefusal.TheVariants.{OutOfMemory};

    ghost from_gives = { λ _ e. e ≡ OutOfMemory };

    fn from(_: AllocError) -> UnitRefusal {
        UnitRefusal::OutOfMemory
    }
}
