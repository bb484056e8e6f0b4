//! Why the program writes no text.

ghost use Rattle.std.specs.Prelude.{◌≡◌};

use crate::input::InputError;
use crate::request::BundleError;
use std::alloc::AllocError;
use weslc_compile::{CompileError, CompileRefusal, ErrorContext};
use weslc_precompile::PrecompileError;
use weslc_run::RunRefusal;
use wgsl_eval_machine::Fault;

/// Why the program writes no text.
#[derive(Drop)]
pub enum ServeError {
    /// A read failed.
    Read,
    /// There are more bytes than a bundle may have.
    TooLong,
    /// They are no bundle.
    Bundle(BundleError),
    /// The modules are not linked or compiled.
    Compile(CompileError),
    /// A fault of evaluation, in the declaration that is named, where modules are compiled that are beyond the proved part.
    Eval(ErrorContext, Fault),
    /// No module stands at the root that is to be precompiled.
    NoRoot,
    /// The root is not precompiled.
    Precompile(PrecompileError),
    /// The run or the evaluation goes wrong, or the expression is none.
    Run(RunRefusal),
    /// Memory was refused. This says nothing of the bytes.
    OutOfMemory,
}

impl From<InputError> for ServeError {
    ghost use Rattle.weslc_bundle.specs.Served.{refused_input};

    ghost from_gives = { λ e refusal. refusal ≡ refused_input e };

    fn from(error: InputError) -> ServeError {
        match error {
            InputError::Read => ServeError::Read,
            InputError::TooLong => ServeError::TooLong,
            InputError::OutOfMemory => ServeError::OutOfMemory,
        }
    }
}

impl From<BundleError> for ServeError {
    ghost use Rattle.weslc_bundle.specs.Served.{refused_bundle};

    ghost from_gives = { λ e refusal. refusal ≡ refused_bundle e };

    fn from(error: BundleError) -> ServeError {
        match error {
            BundleError::OutOfMemory => ServeError::OutOfMemory,
            error => ServeError::Bundle(error),
        }
    }
}

impl From<CompileError> for ServeError {
    ghost use Rattle.weslc_bundle.specs.Served.{RefusesCall};

    ghost from_gives = { RefusesCall };

    fn from(error: CompileError) -> ServeError {
        match error {
            CompileError::OutOfMemory => ServeError::OutOfMemory,
            error => ServeError::Compile(error),
        }
    }
}

impl From<CompileRefusal> for ServeError {
    ghost use Rattle.weslc_bundle.specs.Served.{RefusesWholeCall};

    ghost from_gives = { RefusesWholeCall };

    fn from(refusal: CompileRefusal) -> ServeError {
        match refusal {
            CompileRefusal::Compile(error) => ServeError::from(error),
            CompileRefusal::Eval(context, fault) => ServeError::Eval(context, fault),
        }
    }
}

impl From<PrecompileError> for ServeError {
    ghost use Rattle.weslc_bundle.specs.Served.{refused_precompiling};

    ghost from_gives = { λ e refusal. refusal ≡ refused_precompiling e };

    fn from(error: PrecompileError) -> ServeError {
        match error {
            PrecompileError::OutOfMemory => ServeError::OutOfMemory,
            error => ServeError::Precompile(error),
        }
    }
}

impl From<AllocError> for ServeError {
    ghost use Rattle.weslc_bundle.specs.declared.error.ServeError.TheVariants.{OutOfMemory};

    ghost from_gives = { λ _ refusal. refusal ≡ OutOfMemory };

    fn from(_: AllocError) -> ServeError {
        ServeError::OutOfMemory
    }
}
