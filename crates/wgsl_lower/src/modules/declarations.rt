//! Declarations of modules.

ghost use Rattle.std.specs.Prelude.{◌≡◌};
ghost use Rattle.wgsl_lower.specs.Lowered.{stays};

use crate::folding::{
    Evaluator, Stop, fold_attributes, fold_declaration, fold_maybe_type, fold_statements,
    fold_type, type_of_written,
};
use wgsl_declarations::{FormalParameter, Function, GlobalDeclaration, Struct};
use wgsl_lower_expressions::clear_block;
use wgsl_shader_type::Type;
use wgsl_simple_statements::DeclarationKind;

fn fold_struct(evaluator: &mut Evaluator<'_>, x: &mut Struct) -> Result<(), Stop> {
    fold_attributes(evaluator, &mut x.attributes)?;
    for i in 0..x.members.len() {
        let member = x.members.get_mut(i).node_mut();
        fold_attributes(evaluator, &mut member.attributes)?;
        fold_type(evaluator, &mut member.ty)?;
    }
    Ok(())
}

/// The name of a parameter is in scope from now on.
fn fold_parameter(evaluator: &mut Evaluator<'_>, x: &mut FormalParameter) -> Result<(), Stop> {
    fold_attributes(evaluator, &mut x.attributes)?;
    let ty = type_of_written(evaluator, &mut x.ty)?;
    evaluator.defer(x.ident.name(), ty)
}

/// The body of a function that is const by the rule and has no result is cleared, once it is folded.
fn fold_body(
    evaluator: &mut Evaluator<'_>,
    x: &mut Function,
    number: usize,
    returns: Option<&Type>,
) -> Result<(), Stop> {
    fold_attributes(evaluator, &mut x.body.attributes)?;
    fold_statements(evaluator, &mut x.body.statements, returns)?;
    if returns.is_none() && evaluator.is_const_function(number) {
        clear_block(&mut x.body);
    }
    Ok(())
}

fn fold_function(
    evaluator: &mut Evaluator<'_>,
    x: &mut Function,
    number: usize,
) -> Result<(), Stop> {
    fold_attributes(evaluator, &mut x.attributes)?;
    evaluator.enter()?;
    for i in 0..x.parameters.len() {
        fold_parameter(evaluator, x.parameters.get_mut(i))?;
    }
    fold_attributes(evaluator, &mut x.return_attributes)?;
    let returns = fold_maybe_type(evaluator, &mut x.return_type)?;
    let folded = fold_body(evaluator, x, number, returns.as_ref());
    drop(returns);
    folded?;
    evaluator.leave();
    Ok(())
}

/// Whether a declaration stays: a variable, an override, a structure or a function.
pub(crate) fn stays(declaration: &GlobalDeclaration) -> bool
    ensures { result ≡ stays declaration.now }
{
    match declaration {
        GlobalDeclaration::Declaration(x) => !matches!(x.kind, DeclarationKind::Const),
        GlobalDeclaration::Struct(_) => true,
        GlobalDeclaration::Function(_) => true,
        GlobalDeclaration::Void => false,
        GlobalDeclaration::TypeAlias(_) => false,
        GlobalDeclaration::ConstAssert(_) => false,
    }
}

/// Folds a declaration that stays, by its number.
pub(crate) fn fold_global(
    evaluator: &mut Evaluator<'_>,
    declaration: &mut GlobalDeclaration,
    number: usize,
) -> Result<(), Stop> {
    if !stays(declaration) {
        return Ok(());
    }
    match declaration {
        GlobalDeclaration::Declaration(x) => {
            drop(fold_declaration(evaluator, x)?);
            Ok(())
        }
        GlobalDeclaration::Struct(x) => fold_struct(evaluator, x),
        GlobalDeclaration::Function(x) => fold_function(evaluator, x, number),
        GlobalDeclaration::Void => Ok(()),
        GlobalDeclaration::TypeAlias(_) => Ok(()),
        GlobalDeclaration::ConstAssert(_) => Ok(()),
    }
}
