//! The start: the values of the consts, one after another.

ghost use Rattle.std.specs.Prelude.{◌≡◌, List, [], ◌∷◌, ◌++◌, Some, OnOk, IfOk, slice_get};
ghost use Rattle.core_syntax.specs.Tree.{Decl};
ghost use Rattle.core_syntax.specs.View.{declaration_tree};
ghost use Rattle.core_syntax.specs.declared.declaration.GlobalDeclaration.TheVariants.{Declaration as TheDeclaration};
ghost use Rattle.core_meaning.specs.Names.{find_decl};
ghost use Rattle.core_meaning.specs.ConstStage.{Consts};
ghost use Rattle.core_eval.specs.Start as spec;
ghost use Rattle.core_eval.specs.Scopes.{decls, Declares, Holds};
ghost use Rattle.core_eval.specs.Starts.{Tells, Starts};

use crate::error::{UnitError, refused};
use crate::find::{declaration, declarations_of};
use crate::scope::{Declarations, Values};
use crate::typing::const_value;
use core_syntax::{Declaration, GlobalDeclaration, GlobalDeclarationNode};
use std::alloc::{AllocError, Global};
use std::collections::HashMap;
use wgsl_base::Text;
use wgsl_shader_type::LiteralInstance;

/// What names mean outside of functions, once the consts have their values.
#[derive(Drop)]
pub struct Start<'a> {
    pub declarations: Declarations<'a>,
    pub consts: Values<'a>,
}

fn add_value<'a>(
    consts: &mut Values<'a>,
    name: &'a Text,
    value: LiteralInstance,
) -> Result<(), AllocError>
    ensures { OnOk result ((cs : Consts) → Holds consts.old cs → Holds consts.new (cs ++ (name.now, value) ∷ [])) }
{
    let key = name.as_str();
    if consts.contains_key(key) {
        return Ok(());
    }
    consts.insert(key, value)?;
    Ok(())
}

fn push_const<'a>(
    alloc: Global,
    declarations: &Declarations<'a>,
    consts: &mut Values<'a>,
    name: &'a Text,
    declared: &Declaration,
) -> Result<(), UnitError>
    ensures { (ds : List Decl) (cs : Consts) → Declares declarations.now ds → Holds consts.old cs → Tells consts.new (spec.valued ds cs name.now (Some (declaration_tree (TheDeclaration declared.now)))) result }
{
    match const_value(alloc, declarations, consts, declared) {
        Ok(value) => {
            add_value(consts, name, value)?;
            Ok(())
        }
        Err(error) => Err(refused(alloc, name, error)),
    }
}

fn push_value<'a>(
    alloc: Global,
    declarations: &Declarations<'a>,
    consts: &mut Values<'a>,
    name: &'a Text,
) -> Result<(), UnitError>
    ensures { (ds : List Decl) (cs : Consts) → Declares declarations.now ds → Holds consts.old cs → Tells consts.new (spec.valued ds cs name.now (find_decl name.now ds)) result }
{
    match declaration(name, declarations) {
        Some(GlobalDeclaration::Declaration(d)) => push_const(alloc, declarations, consts, name, d),
        Some(GlobalDeclaration::Function(_)) => Ok(()),
        None => Ok(()),
    }
}

fn push_value_at<'a>(
    alloc: Global,
    declarations: &Declarations<'a>,
    consts: &mut Values<'a>,
    nodes: &'a [GlobalDeclarationNode],
    position: usize,
) -> Result<(), UnitError>
    ensures { (cs : Consts) → Declares declarations.now (decls nodes.now) → Holds consts.old cs → Tells consts.new (spec.valued_at (decls nodes.now) cs (slice_get (decls nodes.now) position)) result }
{
    let Some(node) = nodes.get(position) else {
        return Ok(());
    };
    match node.node() {
        GlobalDeclaration::Declaration(d) => {
            push_value(alloc, declarations, consts, &d.ident.name)
        }
        GlobalDeclaration::Function(_) => Ok(()),
    }
}

fn values_of<'a>(
    alloc: Global,
    declarations: &Declarations<'a>,
    nodes: &'a [GlobalDeclarationNode],
    order: &[usize],
) -> Result<Values<'a>, UnitError>
    ensures { Declares declarations.now (decls nodes.now) → Starts (λ consts. consts) (spec.consts_of (decls nodes.now) order.now) result }
{
    let mut consts = HashMap::new(alloc);
    for position in order {
        push_value_at(alloc, declarations, &mut consts, nodes, *position)?;
    }
    Ok(consts)
}

/// The consts of a unit with their values, or the first fault. `order` has the positions of their declarations, in the order in
/// which they get their values; a const whose value is needed before its turn is `CyclicDecl`.
pub fn start_values<'a>(
    alloc: Global,
    nodes: &'a [GlobalDeclarationNode],
    order: &[usize],
) -> Result<Start<'a>, UnitError>
    ensures declares { IfOk result (λ start. Declares start.declarations (decls nodes.now)) }
    ensures starts { Starts (λ start. start.consts) (spec.consts_of (decls nodes.now) order.now) result }
{
    let declarations = declarations_of(alloc, nodes)?;
    let consts = values_of(alloc, &declarations, nodes, order)?;
    Ok(Start {
        declarations,
        consts,
    })
}
