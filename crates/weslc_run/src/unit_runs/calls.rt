//! The calls.

use crate::eval_question::{EvalExpression, OWN_NAME, is_own};
use crate::unit_runs::evaluation::eval_unit;
use crate::unit_runs::kept::{keeping, keeping_only};
use crate::unit_runs::refusal::{RunRefusal, check_printable, told, without_own};
use crate::unit_runs::running::{HandedOverride, run_unit};
use core_calls::{BasicSourceMap, CompileError, EscapeMangler, Options, SourceMap};
use std::alloc::{AllocError, Global};
use wesl_preprocess::{Conditions, Decided, Preprocessor};
use wesl_resolvers::Resolver;
use weslc_link::{
    BeyondCore, HeldModules, HeldUnit, LinkedModules, declaration_map, of_resolve, validate,
};
use weslc_values::{Binding, OverrideValue, RunResult};
use wgsl_base::{CloneIn, Items, Text};
use wgsl_declarations::{GlobalDeclaration, TranslationUnit, retain_declarations};
use wgsl_memory::Inputs;
use wgsl_path::ModulePath;

/// The name in the linked unit of a symbol, if that is held.
fn printed_name(
    alloc: Global,
    map: &BasicSourceMap,
    root: &ModulePath,
    handed: &OverrideValue,
) -> Result<Option<Text>, AllocError> {
    let name = handed.name.as_str();
    let printed = if handed.module == *root {
        Text::from_str(alloc, name)?
    } else {
        EscapeMangler.mangle(alloc, &handed.module, name)?
    };
    match map.get_decl(printed.as_str()) {
        Some((module, item)) if *module == handed.module && item == name => Ok(Some(printed)),
        _ => Ok(None),
    }
}

/// The values of overrides by their names in the linked unit. Values of what is not held are left out.
fn handed_overrides(
    alloc: Global,
    linked: &LinkedModules,
    root: &ModulePath,
    overrides: &[OverrideValue],
) -> Result<Items<HandedOverride>, AllocError> {
    let mut by_name = Items::new(alloc);
    if overrides.is_empty() {
        return Ok(by_name);
    }
    let map = declaration_map(alloc, linked)?;
    for handed in overrides {
        if let Some(name) = printed_name(alloc, &map, root, handed)? {
            let value = handed.value.clone(alloc)?;
            by_name.push(HandedOverride { name, value })?;
        }
    }
    Ok(by_name)
}

/// The number among the declarations of the one with this name.
fn number_of(unit: &TranslationUnit, name: &str) -> Option<usize> {
    for (number, declaration) in unit.global_declarations.as_slice().iter().enumerate() {
        if is_named(declaration.node(), name) {
            return Some(number);
        }
    }
    None
}

fn is_named(declaration: &GlobalDeclaration, name: &str) -> bool {
    match declaration {
        GlobalDeclaration::Declaration(declaration) => declaration.ident.as_str() == name,
        GlobalDeclaration::TypeAlias(alias) => alias.ident.as_str() == name,
        GlobalDeclaration::Struct(declaration) => declaration.ident.as_str() == name,
        GlobalDeclaration::Function(function) => function.ident.as_str() == name,
        GlobalDeclaration::Void | GlobalDeclaration::ConstAssert(_) => false,
    }
}

/// Links modules, with the entry point kept, starts the unit and runs the entry point; or the first refusal. Values of overrides are handed
/// in by module and name. The root is not relative.
pub fn run<R: Resolver>(
    alloc: Global,
    resolver: &mut R,
    root: &ModulePath,
    options: &Options,
    entry: &str,
    inputs: &Inputs,
    bindings: &[Binding],
    overrides: &[OverrideValue],
) -> Result<RunResult, RunRefusal> {
    let kept = keeping(alloc, options, entry)?;
    let features = &options.features;
    let inner = Preprocessor::new(resolver, Conditions { features });
    let mut decided = Decided { inner };
    let held = HeldModules::link(alloc, &mut decided, None, root, &kept)?;
    run_linked(
        alloc,
        held.get(),
        root,
        entry,
        inputs,
        bindings,
        overrides,
        options.max_steps,
    )
}

fn run_linked(
    alloc: Global,
    linked: &LinkedModules,
    root: &ModulePath,
    entry: &str,
    inputs: &Inputs,
    bindings: &[Binding],
    overrides: &[OverrideValue],
    max_steps: u64,
) -> Result<RunResult, RunRefusal> {
    validate(alloc, linked)?;
    let handed = handed_overrides(alloc, linked, root, overrides)?;
    let unit = linked.unit.get();
    match run_unit(
        alloc,
        unit,
        entry,
        inputs,
        bindings,
        handed.as_slice(),
        max_steps,
    ) {
        Ok(run) => {
            check_printable(alloc, unit)?;
            Ok(run)
        }
        Err(error) => Err(told(alloc, linked, number_of(unit, entry), error)),
    }
}

/// The root's unit, where at least one module may be loaded.
fn root_unit<R: Resolver>(
    alloc: Global,
    resolver: &mut R,
    root: &ModulePath,
    options: &Options,
) -> Result<HeldUnit, CompileError> {
    if options.max_modules == 0 {
        return Err(CompileError::too_many_modules(alloc, root)?);
    }
    match resolver.resolve_module(alloc, root) {
        Ok(unit) => Ok(HeldUnit::new(unit)),
        Err(error) => Err(of_resolve(error)),
    }
}

/// The root's unit with a const behind it that stands for the expression.
fn root_with_const<R: Resolver>(
    alloc: Global,
    resolver: &mut R,
    root: &ModulePath,
    options: &Options,
    question: EvalExpression,
) -> Result<BeyondCore, CompileError> {
    let mut unit = root_unit(alloc, resolver, root, options)?;
    question.append(alloc, unit.get_mut())?;
    let path = root.clone_in(alloc)?;
    Ok(BeyondCore { path, unit })
}

/// What the const of an expression at the end of the root needs, linked.
fn linked_const<R: Resolver>(
    alloc: Global,
    resolver: &mut R,
    root: &ModulePath,
    options: &Options,
    question: EvalExpression,
) -> Result<HeldModules, CompileError> {
    let with_const = root_with_const(alloc, resolver, root, options, question)?;
    let kept = keeping_only(alloc, options, OWN_NAME)?;
    HeldModules::link(alloc, resolver, Some(with_const), root, &kept)
}

/// The text of the value of an expression, as it is meant at the end of the root, where a const stands for it that alone is kept; or the
/// first refusal, of which the first is that the text is no expression. The root is not relative.
pub fn eval<R: Resolver>(
    alloc: Global,
    resolver: &mut R,
    root: &ModulePath,
    options: &Options,
    expression: &str,
) -> Result<Text, RunRefusal> {
    let features = &options.features;
    let inner = Preprocessor::new(resolver, Conditions { features });
    let mut decided = Decided { inner };
    let linked = match EvalExpression::parse(alloc, expression) {
        Ok(question) => linked_const(alloc, &mut decided, root, options, question),
        Err(error) => return Err(RunRefusal::of_expression(error)),
    };
    let mut held = linked?;
    let text = eval_linked(alloc, held.get(), options.max_steps)?;
    check_rest(alloc, held.get_mut())?;
    Ok(text)
}

fn eval_linked(alloc: Global, linked: &LinkedModules, max_steps: u64) -> Result<Text, RunRefusal> {
    if let Err(error) = validate(alloc, linked) {
        return Err(RunRefusal::from(without_own(error)));
    }
    match eval_unit(alloc, linked.unit.get(), max_steps) {
        Ok(text) => Ok(text),
        Err(error) => Err(told(alloc, linked, None, error)),
    }
}

/// Whether a text stands for the linked unit without the const of an evaluation, which is taken off it.
fn check_rest(alloc: Global, linked: &mut LinkedModules) -> Result<(), CompileError> {
    let declarations = &mut linked.unit.get_mut().global_declarations;
    retain_declarations(declarations, |declaration| !is_own(declaration.node()));
    check_printable(alloc, linked.unit.get())
}
