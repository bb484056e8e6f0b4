//! The calls.

ghost use Rattle.std.specs.Prelude.{◌≡◌, IfOk, IfErr, OnOk, string_bytes};
ghost use Rattle.wgsl_path.specs.Paths.{path_text};
ghost use Rattle.wesl_resolve.specs.Found.{SameAnswers, SameTexts};
ghost use Rattle.weslc_errors.specs.Mapped.{HasNames};
ghost use Rattle.weslc_errors.specs.Asked.{AreAsked, AreAskedAsLoaded};
ghost use Rattle.weslc_errors.specs.Alone.{only, Alone};
ghost use Rattle.weslc_errors.specs.Answers.{RefusesToLink, RefusesToCompile, IsMapped, IsLinkedText, IsCompiledText};

use core_compiled::compile_unit;
use std::alloc::Global;
use weslc_errors::{
    BasicSourceMap, CompileError, Linked, Options, PrintError, Resolver, linked_unit, print_core,
};
use wgsl_path::ModulePath;

/// One text without imports that declares what the kept names of the root reach, and the map from it back to the modules;
/// or the first fault. The root is not relative.
pub fn link<R: Resolver>(
    alloc: Global,
    resolver: &mut R,
    root: &ModulePath,
    options: &Options,
) -> Result<(String, BasicSourceMap), CompileError>
    ensures text { IfOk result (λ answer. IsLinkedText (R.answers resolver.old) (path_text root.now) options.now.keep options.now.max_modules (string_bytes answer.0)) }
    ensures map { IfOk result (λ answer. IsMapped (R.answers resolver.old) (path_text root.now) options.now.keep options.now.max_modules (R.texts resolver.old) answer.1) }
    ensures names { IfOk result (λ answer. HasNames (R.display_names resolver.old) answer.1) }
    ensures refusal { IfErr result (RefusesToLink (R.answers resolver.old) (path_text root.now) options.now.keep options.now.max_modules) }
    ensures asked { AreAsked (R.answers resolver.old) (path_text root.now) options.now.keep options.now.max_modules (R.asked resolver.old) (R.asked resolver.new) }
    ensures all_asked { OnOk result (AreAskedAsLoaded (R.answers resolver.old) (path_text root.now) options.now.keep options.now.max_modules (R.asked resolver.old) (R.asked resolver.new)) }
    ensures same_answers { SameAnswers (R.answers resolver.old) (R.answers resolver.new) }
    ensures same_texts { SameTexts (R.texts resolver.old) (R.texts resolver.new) }
    ensures same_names { R.display_names resolver.new ≡ R.display_names resolver.old }
    ensures same_reference { R.holds resolver.new ≡ R.holds resolver.old }
{
    let Linked { unit, map } = linked_unit(alloc, resolver, root, options)?;
    match print_core(alloc, unit) {
        Ok(text) => Ok((text, map)),
        Err(PrintError::Unprintable(name)) => Err(CompileError::unprintable(name)),
        Err(PrintError::GaveUp(refusal)) => Err(CompileError::gave_up(refusal)),
        Err(PrintError::OutOfMemory) => Err(CompileError::OutOfMemory),
    }
}

/// One text without imports and consts in which what the kept names of the root reach is validated and lowered, and the map
/// from it back to the modules; or the first fault. Each evaluation of an expression or a declaration may take so many steps as the
/// options say. The root is not relative.
pub fn compile<R: Resolver>(
    alloc: Global,
    resolver: &mut R,
    root: &ModulePath,
    options: &Options,
) -> Result<(String, BasicSourceMap), CompileError>
    ensures text { IfOk result (λ answer. IsCompiledText (R.answers resolver.old) (path_text root.now) options.now.keep options.now.max_modules options.now.max_steps (string_bytes answer.0)) }
    ensures map { IfOk result (λ answer. IsMapped (R.answers resolver.old) (path_text root.now) options.now.keep options.now.max_modules (R.texts resolver.old) answer.1) }
    ensures names { IfOk result (λ answer. HasNames (R.display_names resolver.old) answer.1) }
    ensures refusal { IfErr result (RefusesToCompile (R.answers resolver.old) (path_text root.now) options.now.keep options.now.max_modules options.now.max_steps) }
    ensures alone_text { Alone (R.asked resolver.old) (R.asked resolver.new) (λ inside. IfOk result (λ answer. IsCompiledText (only inside (R.answers resolver.old)) (path_text root.now) options.now.keep options.now.max_modules options.now.max_steps (string_bytes answer.0))) }
    ensures alone_map { Alone (R.asked resolver.old) (R.asked resolver.new) (λ inside. IfOk result (λ answer. IsMapped (only inside (R.answers resolver.old)) (path_text root.now) options.now.keep options.now.max_modules (R.texts resolver.old) answer.1)) }
    ensures alone_refusal { Alone (R.asked resolver.old) (R.asked resolver.new) (λ inside. IfErr result (RefusesToCompile (only inside (R.answers resolver.old)) (path_text root.now) options.now.keep options.now.max_modules options.now.max_steps)) }
    ensures asked { AreAsked (R.answers resolver.old) (path_text root.now) options.now.keep options.now.max_modules (R.asked resolver.old) (R.asked resolver.new) }
    ensures all_asked { OnOk result (AreAskedAsLoaded (R.answers resolver.old) (path_text root.now) options.now.keep options.now.max_modules (R.asked resolver.old) (R.asked resolver.new)) }
    ensures same_answers { SameAnswers (R.answers resolver.old) (R.answers resolver.new) }
    ensures same_texts { SameTexts (R.texts resolver.old) (R.texts resolver.new) }
    ensures same_names { R.display_names resolver.new ≡ R.display_names resolver.old }
    ensures same_reference { R.holds resolver.new ≡ R.holds resolver.old }
{
    let Linked { unit, map } = linked_unit(alloc, resolver, root, options)?;
    match compile_unit(alloc, &unit, options.max_steps) {
        Ok(text) => Ok((text, map)),
        Err(refusal) => Err(CompileError::of_unit(alloc, &map, refusal)),
    }
}
