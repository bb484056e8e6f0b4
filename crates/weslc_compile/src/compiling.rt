//! From modules to a compiled text.

ghost use Rattle.std.specs.Prelude.{◌≡◌, [], IfOk, string_bytes};
ghost use Rattle.wesl_load.specs.Asked.{StayAsked};
ghost use Rattle.wgsl_lower.specs.Lowered.{AllStay};
ghost use Rattle.weslc_compile.specs.Plain.{IsPlain};

use crate::refusal::{CompileRefusal, told};
use std::alloc::Global;
use wesl_resolvers::Resolver;
use weslc_calls::{
    BasicSourceMap, BeyondCore, CompileError, Conditions, Decided, HeldModules, LinkedModules,
    Options, Preprocessor, Unprintable, check_clear, print_checked, source_map, validate,
};
use wgsl_declarations::{TranslationUnit, let_go};
use wgsl_guard::guard_templates;
use wgsl_lower::{Refused, lower_owned};
use wgsl_path::ModulePath;
use wgsl_token::fault::Refusal;

/// The text of a lowered unit, in which what could be read as a template list is kept apart.
#[tactic(auto, using(crate::proofs::Plain::guarded_plain))]
fn guarded_text(alloc: Global, unit: &mut TranslationUnit) -> Result<String, CompileError>
    requires no_imports { unit.old.imports ≡ [] }
    requires declarations { AllStay unit.old.global_declarations }
    ensures { IfOk result (λ text. IsPlain (string_bytes text)) }
{
    guard_templates(alloc, unit)?;
    match print_checked(alloc, unit) {
        Ok(text) => Ok(text),
        Err(Unprintable::Node(name)) => Err(CompileError::unprintable(name)),
        Err(Unprintable::GaveUp(Refusal::OutOfMemory)) => Err(CompileError::OutOfMemory),
        Err(Unprintable::GaveUp(refusal)) => Err(CompileError::gave_up(refusal)),
    }
}

/// A unit's text, once it is lowered; or why it is not lowered, or has no text then.
fn lowered_text(
    alloc: Global,
    unit: TranslationUnit,
    max_steps: u64,
) -> Result<Result<String, CompileError>, Refused>
    ensures { IfOk result (λ printed. IfOk printed (λ text. IsPlain (string_bytes text))) }
{
    match lower_owned(alloc, unit, max_steps) {
        Ok(lowered) => {
            let mut lowered = lowered;
            let printed = guarded_text(alloc, &mut lowered);
            let_go(lowered);
            Ok(printed)
        }
        Err(refused) => Err(refused),
    }
}

/// A linked unit as a compiled text: validated, found to have clear names, lowered, guarded, printed and checked, in this order. The unit is
/// taken.
fn compile_linked(
    alloc: Global,
    linked: &mut LinkedModules,
    max_steps: u64,
) -> Result<String, CompileRefusal>
    ensures { IfOk result (λ text. IsPlain (string_bytes text)) }
{
    validate(alloc, linked)?;
    check_clear(alloc, linked)?;
    let directives = linked.unit.get().global_directives.len();
    let unit = linked.take_unit(alloc);
    match lowered_text(alloc, unit, max_steps) {
        Ok(Ok(text)) => Ok(text),
        Ok(Err(error)) => Err(CompileRefusal::Compile(error)),
        Err(refused) => Err(told(alloc, linked, directives, refused)),
    }
}

/// What is linked as a compiled text, and the map from it back to the modules.
fn compile_decided<R: Resolver>(
    alloc: Global,
    resolver: &mut R,
    beyond: Option<BeyondCore>,
    root: &ModulePath,
    options: &Options,
) -> Result<(String, BasicSourceMap), CompileRefusal>
    ensures plain { IfOk result (λ answer. IsPlain (string_bytes answer.0)) }
    ensures asked { StayAsked (R.asked resolver.old) (R.asked resolver.new) }
    ensures same_reference { R.holds resolver.new ≡ R.holds resolver.old }
{
    let mut held = HeldModules::link(alloc, resolver, beyond, root, options)?;
    let text = compile_linked(alloc, held.get_mut(), options.max_steps)?;
    let map = source_map(alloc, resolver, root, held.get())?;
    Ok((text, map))
}

/// Modules as a compiled text, and the map from it back to them.
pub(crate) fn compile_modules<R: Resolver>(
    alloc: Global,
    resolver: &mut R,
    beyond: Option<BeyondCore>,
    root: &ModulePath,
    options: &Options,
) -> Result<(String, BasicSourceMap), CompileRefusal>
    ensures plain { IfOk result (λ answer. IsPlain (string_bytes answer.0)) }
    ensures asked { StayAsked (R.asked resolver.old) (R.asked resolver.new) }
{
    let features = &options.features;
    let inner = Preprocessor::new(resolver, Conditions { features });
    let mut decided = Decided { inner };
    let answer = compile_decided(alloc, &mut decided, beyond, root, options);
    let Decided {
        inner: Preprocessor {
            resolver: _lent,
            preprocess: _,
        },
    } = decided;
    answer
}
