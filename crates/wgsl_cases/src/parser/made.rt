//! Modules that no text is: a module's text is parsed, and one name in it is changed. What `check_unit` tells of each.

use std::alloc::{AllocError, Global};
use wgsl_parse::syntax::{
    CompoundStatement, Expression, GlobalDeclaration, Statement, Text, TranslationUnit,
};
use wgsl_parse::{Unprintable, check_unit, parse_str};

/// Changes a callee, or a name that stands alone.
fn rename_in_expression(expression: &mut Expression, name: Text) {
    match expression {
        Expression::FunctionCall(x) => x.get_mut().ty.ident.rename(name),
        Expression::TypeOrIdentifier(x) => x.ident.rename(name),
        _ => {}
    }
}

/// Changes the name in a body's first statement: that of a local declaration, or the place of an assignment.
fn rename_in_body(body: &mut CompoundStatement, name: Text) {
    if body.statements.is_empty() {
        return;
    }
    match body.statements.get_mut(0).node_mut() {
        Statement::Assignment(x) => rename_in_expression(x.lhs.node_mut(), name),
        Statement::Declaration(x) => x.get_mut().ident.rename(name),
        Statement::Return(x) => {
            if let Some(value) = &mut x.expression {
                rename_in_expression(value.node_mut(), name);
            }
        }
        _ => {}
    }
}

/// Changes the name of a first member or parameter, of an alias's type, or in a body. Without a name the members go.
fn rename_in(declaration: &mut GlobalDeclaration, name: Text) {
    match declaration {
        GlobalDeclaration::TypeAlias(x) => x.ty.ident.rename(name),
        GlobalDeclaration::Struct(x) => {
            if name.as_str().is_empty() {
                x.members.retain(|_| false);
            } else if !x.members.is_empty() {
                x.members.get_mut(0).node_mut().ident.rename(name);
            }
        }
        GlobalDeclaration::Function(x) => {
            if x.parameters.is_empty() {
                rename_in_body(&mut x.body, name);
            } else {
                x.parameters.get_mut(0).ident.rename(name);
            }
        }
        _ => {}
    }
}

/// What `check_unit` tells of a module: `derivable`, or the name of the first node that no text derives, or `none`.
fn told(alloc: Global, unit: &TranslationUnit) -> Result<String, AllocError> {
    match check_unit(alloc, unit) {
        Ok(()) => String::from_str(alloc, "derivable"),
        Err(Unprintable::Node(Some(name))) => String::from_str(alloc, name.as_str()),
        Err(Unprintable::Node(None)) => String::from_str(alloc, "none"),
        Err(Unprintable::GaveUp(_)) => Err(AllocError),
    }
}

/// What is told of the module of a text, with this name in its first declaration.
pub fn answer(alloc: Global, text: &str, name: &str) -> Result<String, AllocError> {
    match parse_str(alloc, text) {
        Ok(unit) => {
            let mut unit = unit;
            let name = Text::from_str(alloc, name)?;
            if !unit.global_declarations.is_empty() {
                rename_in(unit.global_declarations.get_mut(0).node_mut(), name);
            }
            told(alloc, &unit)
        }
        Err(_) => String::from_str(alloc, "no module"),
    }
}
