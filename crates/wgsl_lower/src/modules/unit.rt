//! Modules, in document order.

use crate::folding::{Evaluator, Stop, fold_attributes};
use crate::modules::declarations::fold_global;
use crate::pruning::Effects;
use std::alloc::{AllocError, Global};
use wgsl_declarations::{GlobalDeclarationNode, GlobalDirective, TranslationUnit};
use wgsl_eval_names::Declared;
use wgsl_expressions::Items;

/// What was being done when a module was refused.
#[derive(Clone, Copy, Debug, PartialEq, Eq)]
pub enum Place {
    /// A directive, by its number.
    Directive(usize),
    /// A declaration was being started or folded, by its number.
    Declaration(usize),
    /// Neither.
    Unit,
}

fn fold_directive(
    evaluator: &mut Evaluator<'_>,
    directive: &mut GlobalDirective,
) -> Result<(), Stop> {
    match directive {
        GlobalDirective::Diagnostic(x) => fold_attributes(evaluator, &mut x.attributes),
        GlobalDirective::Enable(x) => fold_attributes(evaluator, &mut x.attributes),
        GlobalDirective::Requires(x) => fold_attributes(evaluator, &mut x.attributes),
    }
}

fn fold_directives(
    evaluator: &mut Evaluator<'_>,
    directives: &mut Items<GlobalDirective>,
) -> Result<(), (Place, Stop)> {
    for i in 0..directives.len() {
        if let Err(stop) = fold_directive(evaluator, directives.get_mut(i)) {
            return Err((Place::Directive(i), stop));
        }
    }
    Ok(())
}

fn fold_globals(
    evaluator: &mut Evaluator<'_>,
    declarations: &mut Items<GlobalDeclarationNode>,
) -> Result<(), (Place, Stop)> {
    for i in 0..declarations.len() {
        if let Err(stop) = fold_global(evaluator, declarations.get_mut(i).node_mut(), i) {
            return Err((Place::Declaration(i), stop));
        }
    }
    Ok(())
}

fn place_of(number: Option<usize>) -> Place {
    match number {
        Some(number) => Place::Declaration(number),
        None => Place::Unit,
    }
}

/// Starts consts and assertions, and folds directives and declarations, in place.
pub(crate) fn fold_unit(
    evaluator: &mut Evaluator<'_>,
    unit: &mut TranslationUnit,
) -> Result<(), (Place, Stop)> {
    if let Err(stop) = evaluator.start_each() {
        return Err((place_of(evaluator.place()), stop));
    }
    fold_directives(evaluator, &mut unit.global_directives)?;
    fold_globals(evaluator, &mut unit.global_declarations)
}

/// The names of the functions whose calls may do something.
pub(crate) fn effects_of<'s>(
    alloc: Global,
    evaluator: &Evaluator<'s>,
) -> Result<Effects<'s>, AllocError> {
    let mut effects = Effects::new(alloc);
    let directory = evaluator.directory();
    for number in 0..directory.len() {
        if let Declared::Function(header) = directory.declared(number)
            && !evaluator.is_const_function(number)
        {
            effects.insert(header.name)?;
        }
    }
    Ok(effects)
}
