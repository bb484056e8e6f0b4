//! Visits that answer lists of nodes.

use crate::resolvers::unit;
use std::alloc::{AllocError, Global};
use std::test::Fail;
use wesl_visit::VisitStatements;
use wesl_visit_children_mut::VisitAttributes;
use wesl_visit_in_modules::{VisitExpressions, VisitTypes};
use wgsl_declarations::{GlobalDeclaration, TranslationUnit};
use wgsl_expressions::{Attribute, Expression, TypeExpression};
use wgsl_statements::Statement;

const TEXT: &str =
    "@x(1) fn g(a: array<u32>) -> u32 { @y { let b: u32 = a[0] + 1; } return 1 + 2; }";

/// How many nodes were met.
fn count<T>(answer: Result<Vec<&T>, AllocError>) -> Option<usize> {
    match answer {
        Ok(nodes) => Some(nodes.len()),
        Err(AllocError) => None,
    }
}

/// How many statements, attributes, expressions and types are met in a node.
fn counts<N: VisitStatements + VisitAttributes + VisitExpressions + VisitTypes>(
    alloc: Global,
    node: &N,
) -> Option<[usize; 4]> {
    Some([
        count(VisitStatements::visit(node, alloc))?,
        count(VisitAttributes::visit(node, alloc))?,
        count(VisitExpressions::visit(node, alloc))?,
        count(VisitTypes::visit(node, alloc))?,
    ])
}

/// The last declaration.
fn declaration(unit: &TranslationUnit) -> Option<&GlobalDeclaration> {
    Some(unit.global_declarations.as_slice().last()?.node())
}

fn statement(unit: &TranslationUnit) -> Option<&Statement> {
    match declaration(unit)? {
        GlobalDeclaration::Function(function) => {
            Some(function.body.statements.as_slice().first()?.node())
        }
        _ => None,
    }
}

/// How many expressions and types are met in a part of one.
fn parts<N: VisitExpressions + VisitTypes>(alloc: Global, node: &N) -> Option<[usize; 2]> {
    Some([
        count(VisitExpressions::visit(node, alloc))?,
        count(VisitTypes::visit(node, alloc))?,
    ])
}

fn counts_in_unit(alloc: Global) -> Option<[usize; 4]> {
    let unit = unit(alloc, TEXT)?;
    counts(alloc, unit.get())
}

fn counts_in_function(alloc: Global) -> Option<[usize; 4]> {
    let unit = unit(alloc, TEXT)?;
    counts(alloc, declaration(unit.get())?)
}

fn counts_in_statement(alloc: Global) -> Option<[usize; 4]> {
    let unit = unit(alloc, TEXT)?;
    counts(alloc, statement(unit.get())?)
}

/// The initializer of a const.
fn initializer(unit: &TranslationUnit) -> Option<&Expression> {
    match declaration(unit)? {
        GlobalDeclaration::Declaration(declaration) => {
            Some(declaration.initializer.as_ref()?.node())
        }
        _ => None,
    }
}

fn type_of(expression: &Expression) -> Option<&TypeExpression> {
    match expression {
        Expression::FunctionCall(call) => Some(&call.get().ty),
        _ => None,
    }
}

/// Of a call and of what it calls.
fn counts_in_call(alloc: Global) -> Option<([usize; 2], [usize; 2])> {
    let unit = unit(alloc, "const b = array<u32, 2>(1, 2);")?;
    let call = initializer(unit.get())?;
    let of_call = parts(alloc, call)?;
    let of_type = parts(alloc, type_of(call)?)?;
    Some((of_call, of_type))
}

fn attribute(unit: &TranslationUnit) -> Option<&Attribute> {
    match declaration(unit)? {
        GlobalDeclaration::Function(function) => {
            Some(function.attributes.as_slice().first()?.node())
        }
        _ => None,
    }
}

fn counts_in_attribute(alloc: Global) -> Option<[usize; 2]> {
    let unit = unit(alloc, TEXT)?;
    parts(alloc, attribute(unit.get())?)
}

#[test]
fn nodes_are_met(rt: HostRuntime) -> Result<(), Fail> {
    let alloc = rt.alloc();
    assert_eq!(rt; counts_in_unit(alloc), Some([2, 2, 4, 4]));
    assert_eq!(rt; counts_in_function(alloc), Some([2, 2, 4, 4]));
    assert_eq!(rt; counts_in_statement(alloc), Some([1, 1, 1, 2]));
    assert_eq!(rt; counts_in_call(alloc), Some(([4, 1], [2, 1])));
    assert_eq!(rt; counts_in_attribute(alloc), Some([1, 0]));
    Ok(())
}
