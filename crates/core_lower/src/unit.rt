//! Lowered units.

ghost use Rattle.std.specs.Prelude.{◌≡◌, [], map, IfOk};
ghost use Rattle.core_syntax.specs.View.{unit_tree, declaration_tree};
ghost use Rattle.core_eval.specs.Refusals.{Answers};
ghost use Rattle.core_eval.specs.Scopes.{decls, outside, scope_of};
ghost use Rattle.core_lower_expressions.specs.Computed as spec;
ghost use Rattle.core_lower_expressions.specs.Lowered.{IsLowering};
ghost use Rattle.core_lower.specs.Keeps.{AreClear, Keeps};

use crate::function::lowered_function;
use core_eval::{Declarations, Scope, Start, UnitError, Values, refused, start_values};
use core_order::start_order;
use core_syntax::{GlobalDeclaration, GlobalDeclarationNode, Spanned, TranslationUnit};
use std::alloc::Global;
use wgsl_base::Items;

// A function is lowered and added, a const left out.
fn push_lowered(
    alloc: Global,
    scope: &Scope<'_>,
    done: &mut Items<GlobalDeclarationNode>,
    node: &GlobalDeclarationNode,
) -> Result<(), UnitError>
    ensures { Answers (λ u. decls done.new) (spec.pushed (scope_of scope.now) (decls done.old) (declaration_tree node.now.node)) result }
{
    if let GlobalDeclaration::Function(function) = node.node() {
        match lowered_function(alloc, scope, function) {
            Ok(low) => done.push(Spanned::new(
                alloc,
                GlobalDeclaration::Function(low),
                node.span(),
            )?)?,
            Err(error) => return Err(refused(alloc, &function.ident.name, error)),
        }
    }
    Ok(())
}

fn lowered_in_turn(
    alloc: Global,
    scope: &Scope<'_>,
    nodes: &[GlobalDeclarationNode],
) -> Result<Items<GlobalDeclarationNode>, UnitError>
    ensures { Answers decls (spec.all_pushed (scope_of scope.now) [] (decls nodes.now)) result }
{
    let mut done = Items::new(alloc);
    for node in nodes {
        push_lowered(alloc, scope, &mut done, node)?;
    }
    Ok(done)
}

fn lowered_declarations(
    alloc: Global,
    declarations: &Declarations<'_>,
    consts: &Values<'_>,
    nodes: &[GlobalDeclarationNode],
) -> Result<Items<GlobalDeclarationNode>, UnitError>
    ensures { Answers decls (spec.lowered_declarations (outside declarations.now consts.now) (decls nodes.now)) result }
{
    let scope = Scope {
        declarations,
        consts,
        parameters: &[],
    };
    lowered_in_turn(alloc, &scope, nodes)
}

// The unit of the functions, once the consts have these values.
fn lowered_under(
    alloc: Global,
    declarations: &Declarations<'_>,
    consts: &Values<'_>,
    nodes: &[GlobalDeclarationNode],
) -> Result<TranslationUnit, UnitError>
    ensures { Answers unit_tree (spec.lowered_under (outside declarations.now consts.now) (decls nodes.now)) result }
{
    let global_declarations = lowered_declarations(alloc, declarations, consts, nodes)?;
    Ok(TranslationUnit {
        imports: Items::new(alloc),
        global_declarations,
    })
}

// The unit, where its consts get their values in this order.
fn lowered_after(
    alloc: Global,
    unit: &TranslationUnit,
    order: &[usize],
) -> Result<TranslationUnit, UnitError>
    ensures { Answers unit_tree (spec.lowered_after order.now (unit_tree unit.now)) result }
{
    let nodes = unit.global_declarations.as_slice();
    let Start {
        declarations,
        consts,
    } = start_values(alloc, nodes, order)?;
    lowered_under(alloc, &declarations, &consts, nodes)
}

fn lowered_unit(
    alloc: Global,
    unit: &TranslationUnit,
    max_steps: u64,
) -> Result<TranslationUnit, UnitError>
    ensures { IsLowering unit_tree max_steps (unit_tree unit.now) result }
{
    // Nothing that is evaluated at the const stage takes a step yet.
    let _allowed = max_steps;
    let order = start_order(alloc, unit.global_declarations.as_slice())?;
    lowered_after(alloc, unit, order.as_slice())
}

/// The plain unit without consts: outermost constant expressions are written as their values, what a function returns is converted
/// to its type, and the body of a function that has neither a result nor a stage is cleared. It is refused at the first fault of a const,
/// then of a function: of the consts in the order of the start (text order, but each after those that it reaches, these by the same
/// rule), of the functions in text order. Each evaluation of an expression or a declaration may take `max_steps` steps.
pub fn lower(
    alloc: Global,
    unit: &TranslationUnit,
    max_steps: u64,
) -> Result<TranslationUnit, UnitError>
    ensures exactly { IsLowering unit_tree max_steps (unit_tree unit.now) result }

    // A run that ends well ends well after, with the same answer and in no more steps, where no name is a type's.
    ensures keeps { AreClear (unit_tree unit.now).declarations → IfOk result (λ low. Keeps (unit_tree unit.now).declarations (unit_tree low).declarations) }
{
    lowered_unit(alloc, unit, max_steps)
}
