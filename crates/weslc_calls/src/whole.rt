//! Linking over the whole language.

ghost use Rattle.std.specs.Prelude.{◌≡◌, IfOk, string_bytes};
ghost use Rattle.wgsl_declarations.specs.View.{unit_tree};
ghost use Rattle.core_calls.specs.Derivable.{SaysTree};
ghost use Rattle.weslc_calls.specs.Plain.{IsPlain};

use core_calls::{BasicSourceMap, CompileError, Options, Unprintable, print_checked};
use std::alloc::Global;
use wesl_preprocess::{Conditions, Decided, Preprocessor};
use wesl_resolvers::Resolver;
use weslc_link::{BeyondCore, link_modules, source_map};
use wgsl_declarations::{TranslationUnit, let_go};
use wgsl_path::ModulePath;
use wgsl_token::fault::Refusal;

/// Linked modules as a text. Their conditions are decided as each is resolved.
#[tactic(auto, using(crate::proofs::Plain::plain_of_unit))]
pub(crate) fn link_whole<R: Resolver>(
    alloc: Global,
    resolver: &mut R,
    beyond: Option<BeyondCore>,
    root: &ModulePath,
    options: &Options,
) -> Result<(String, BasicSourceMap), CompileError>
    ensures { IfOk result (λ answer. IsPlain (string_bytes answer.0)) }
{
    let features = &options.features;
    let inner = Preprocessor::new(resolver, Conditions { features });
    let mut decided = Decided { inner };
    let mut linked = link_modules(alloc, &mut decided, beyond, root, options)?;
    let text = printed(alloc, linked.take_unit(alloc))?;
    let map = source_map(alloc, &mut decided, root, &linked)?;
    Ok((text, map))
}

fn printed(alloc: Global, unit: TranslationUnit) -> Result<String, CompileError>
    ensures { IfOk result (λ text. SaysTree (string_bytes text) (unit_tree unit)) }
{
    let mut unit = unit;
    let printed = print_checked(alloc, &mut unit);
    let_go(unit);
    match printed {
        Ok(text) => Ok(text),
        Err(Unprintable::Node(name)) => Err(CompileError::unprintable(name)),
        Err(Unprintable::GaveUp(Refusal::OutOfMemory)) => Err(CompileError::OutOfMemory),
        Err(Unprintable::GaveUp(refusal)) => Err(CompileError::gave_up(refusal)),
    }
}
