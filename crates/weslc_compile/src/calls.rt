//! The call.

ghost use Rattle.std.specs.Prelude.{◌≡◌, ◌⊎◌, true, IfOk, IfErr, string_bytes};
ghost use Rattle.wgsl_path.specs.Paths.{path_text};
ghost use Rattle.weslc_calls.specs.Found.{at_text, part_names};
ghost use Rattle.weslc_calls.specs.Mapped.{HasNames};
ghost use Rattle.core_reach.specs.Alone.{only};
ghost use Rattle.weslc_calls.specs.OfCore.{sources};
ghost use Rattle.weslc_calls.specs.Answers.{IsMapped, IsCompiledText};
ghost use Rattle.weslc_compile.specs.Plain.{IsPlain};
ghost use Rattle.weslc_compile.specs.Whole.{IsTodo, IsBeyond, RefusesCore, IsAnswerFor, OfAsked};

use crate::compiling::compile_modules;
use crate::refusal::CompileRefusal;
use std::alloc::Global;
use wesl_resolvers::Resolver;
use weslc_calls::{
    BasicSourceMap, CompileError, CoreAnswer, Fault, NameFault, Options, try_compile,
};
use wgsl_path::ModulePath;

/// Whether the part met what is beyond what it evaluates.
fn is_todo(error: &CompileError) -> bool
    ensures { result ≡ true → IsTodo error.now }
{
    matches!(
        error,
        CompileError::Eval(_, Fault::Name(NameFault::Todo, _))
    )
}

/// One text without imports, paths, conditions, aliases, consts and assertions in which what the options ask for of the modules is
/// validated and lowered, and the map from it back to the modules; or the first fault. Each evaluation of an expression or a declaration
/// may take so many steps as the options say. The root is not relative.
pub fn compile<R: Resolver>(
    alloc: Global,
    resolver: &mut R,
    root: &ModulePath,
    options: &Options,
) -> Result<(String, BasicSourceMap), CompileRefusal>
    ensures plain { IfOk result (λ answer. IsPlain (string_bytes answer.0)) }
    ensures text { IsBeyond (R.answers resolver.old) root.now options.now ⊎ IfOk result (λ answer. IsCompiledText (sources options.now.features (R.answers resolver.old)) (path_text root.now) options.now.keep options.now.max_modules options.now.max_steps (string_bytes answer.0)) }
    ensures map { IsBeyond (R.answers resolver.old) root.now options.now ⊎ IfOk result (λ answer. IsMapped (sources options.now.features (R.answers resolver.old)) (path_text root.now) options.now.keep options.now.max_modules (at_text (R.texts resolver.old)) answer.1) }
    ensures names { IsBeyond (R.answers resolver.old) root.now options.now ⊎ IfOk result (λ answer. HasNames (part_names (R.display_names resolver.old)) answer.1) }
    ensures refusal { IsBeyond (R.answers resolver.old) root.now options.now ⊎ IfErr result (RefusesCore (R.answers resolver.old) root.now options.now) }
    ensures alone { OfAsked (R.asked resolver.new) (λ inside. IsAnswerFor (only inside (sources options.now.features (R.answers resolver.old))) (at_text (R.texts resolver.old)) root.now options.now result) }
{
    match try_compile(alloc, resolver, root, options) {
        CoreAnswer::BeyondCore(beyond) => compile_modules(alloc, resolver, beyond, root, options),
        CoreAnswer::Answered(Ok(answer)) => Ok(answer),
        CoreAnswer::Answered(Err(error)) => {
            if is_todo(&error) {
                drop(error);
                compile_modules(alloc, resolver, None, root, options)
            } else {
                Err(CompileRefusal::Compile(error))
            }
        }
    }
}
