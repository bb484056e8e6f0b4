//! What the parser tells of a text, kept so that no text is parsed twice.

ghost use Rattle.std.specs.Prelude.{◌≡◌, List, ℕ, Option, IfOk};
ghost use Rattle.wgsl_parser.specs.Texts.{ParsesModule};
ghost use Rattle.wesl_resolvers.specs.Found.{TellsUnit};
ghost use Rattle.wesl_virtual_resolver.specs.Refused.{RefusedAs};
ghost use Rattle.weslc_workspace.specs.Found.{found_in};
ghost use Rattle.weslc_workspace.specs.Outcome.{IsToldOf};

use std::alloc::{AllocError, Global};
use wesl_load::HeldUnit;
use wesl_resolvers::ResolveError;
use wgsl_base::{CloneIn, Text};
use wgsl_declarations::TranslationUnit;
use wgsl_parser::parse_str;
use wgsl_path::ModulePath;
use wgsl_token::fault::{Error, Refusal};

/// What the parser tells of a text: its tree, or its fault.
pub(crate) struct Parse {
    outcome: Result<HeldUnit, Error>,
}

/// A text, and what the parser tells of it.
#[derive(Drop)]
pub(crate) struct ParsedText {
    pub(crate) text: Text,
    pub(crate) parse: Parse,
    ghost told: { ∥ ParsesModule text parse.outcome ∥₁ },
}

impl Parse {
    /// Parses a text. This is the one place where a workspace does.
    pub(crate) fn new(alloc: Global, text: &str) -> Result<Parse, AllocError>
        ensures { IfOk result (λ parse. ParsesModule text.now parse.outcome) }
    {
        match parse_str(alloc, text) {
            Ok(unit) => Ok(Parse {
                outcome: Ok(HeldUnit::new(unit)),
            }),
            Err(error) => match error.refusal() {
                Some(Refusal::OutOfMemory) => Err(AllocError),
                _ => Ok(Parse {
                    outcome: Err(error),
                }),
            },
        }
    }

    /// A copy of the tree; or the fault, of the module at a path.
    pub(crate) fn copy(
        &self,
        alloc: Global,
        path: &ModulePath,
    ) -> Result<TranslationUnit, ResolveError>
        ensures { (there : Option (List ℕ)) → IsToldOf there self.now.outcome → TellsUnit (found_in there) path.now result }
    {
        match &self.outcome {
            Ok(unit) => Ok(unit.get().clone_in(alloc)?),
            Err(error) => Err(refusal(alloc, path, *error)),
        }
    }
}

impl Drop for Parse {
    fn drop(self) {
        let Parse { outcome } = self;
        drop(outcome);
    }
}

/// The fault of the text of the module at a path.
fn refusal(alloc: Global, path: &ModulePath, error: Error) -> ResolveError
    ensures { RefusedAs path.now error result }
{
    let Ok(path) = path.clone_in(alloc) else {
        return ResolveError::OutOfMemory;
    };
    match error.refusal() {
        None => ResolveError::Syntax(path, error),
        Some(Refusal::OutOfMemory) => ResolveError::OutOfMemory,
        Some(refusal) => ResolveError::GaveUp(path, refusal),
    }
}
