//! What the calls of a workspace answer, which is lent.

ghost use Rattle.std.specs.Prelude.{◌≡◌, true, false};
ghost use Rattle.weslc_workspace.specs.Refusals.{is_memory, is_link_refused, is_out_of_memory};

use weslc_calls::{BasicSourceMap, CompileError};
use weslc_compile::CompileRefusal;

/// What `link` answers: a text and the map from it back to the modules, or the first fault.
pub type Linked = Result<(String, BasicSourceMap), CompileError>;

/// What `compile` answers.
pub type Compiled = Result<(String, BasicSourceMap), CompileRefusal>;

/// An answer that is held. It is dropped by a call of this module, so that whoever holds one need not prove the drop of all that it owns.
pub(crate) struct HeldLinked {
    pub(crate) answer: Linked,
}

impl HeldLinked {
    /// Memory was refused.
    pub(crate) fn out_of_memory() -> HeldLinked
        ensures { is_link_refused result.answer ≡ true }
    {
        HeldLinked {
            answer: Err(CompileError::OutOfMemory),
        }
    }

    /// An answer; or that memory was refused, where it was refused behind it.
    pub(crate) fn new(answer: Linked, is_refused: bool) -> HeldLinked
        ensures { is_link_refused result.answer ≡ false → result.answer ≡ answer }
    {
        let held = HeldLinked { answer };
        if is_refused {
            return HeldLinked::out_of_memory();
        }
        held
    }
}

impl Drop for HeldLinked {
    fn drop(self) {
        let HeldLinked { answer } = self;
        drop(answer);
    }
}

/// The same of `compile`.
pub(crate) struct HeldCompiled {
    pub(crate) answer: Compiled,
}

impl HeldCompiled {
    /// Memory was refused.
    pub(crate) fn out_of_memory() -> HeldCompiled
        ensures { is_out_of_memory result.answer ≡ true }
    {
        HeldCompiled {
            answer: Err(CompileRefusal::Compile(CompileError::OutOfMemory)),
        }
    }

    /// An answer; or that memory was refused, where it was refused behind it.
    pub(crate) fn new(answer: Compiled, is_refused: bool) -> HeldCompiled
        ensures { is_out_of_memory result.answer ≡ false → result.answer ≡ answer }
    {
        let held = HeldCompiled { answer };
        if is_refused {
            return HeldCompiled::out_of_memory();
        }
        held
    }

    /// Whether memory was refused: the compilation did not come to its end.
    pub(crate) fn is_out_of_memory(&self) -> bool
        ensures { result ≡ is_out_of_memory self.now.answer }
    {
        match &self.answer {
            Ok(_) => false,
            Err(CompileRefusal::Eval(_, _)) => false,
            Err(CompileRefusal::Compile(error)) => is_memory(error),
        }
    }
}

/// Whether memory was refused.
#[tactic(auto, using(crate::proofs::Refused::not_memory))]
fn is_memory(error: &CompileError) -> bool
    ensures { result ≡ is_memory error.now }
{
    matches!(error, CompileError::OutOfMemory)
}

impl Drop for HeldCompiled {
    fn drop(self) {
        let HeldCompiled { answer } = self;
        drop(answer);
    }
}
