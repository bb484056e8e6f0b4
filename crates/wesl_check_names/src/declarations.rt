//! The steps of declarations and directives.

use crate::expressions::{counted, walk_attributes, walk_optional, walk_optional_type, walk_type};
use crate::statements::{walk_assertion, walk_statements};
use std::alloc::AllocError;
use wesl_name_rules::{DeclareStep, Role, Step, StepList};
use wgsl_declarations::{
    Declaration, FormalParameter, Function, GlobalDeclaration, GlobalDirective, Struct,
    StructMemberNode, TypeAlias,
};
use wgsl_expressions::{Items, Span, Text};

/// What a directive names.
fn walk_names(
    names: &Items<Text>,
    is_required: bool,
    list: &mut StepList,
) -> Result<(), AllocError> {
    for text in names.as_slice() {
        let name = list.number(text.as_str())?;
        let step = if is_required {
            Step::Feature(name)
        } else {
            Step::Extension(name)
        };
        list.push(step, Span { start: 0, end: 0 })?;
    }
    Ok(())
}

/// The steps of a directive.
pub(crate) fn walk_directive(
    directive: &GlobalDirective,
    list: &mut StepList,
) -> Result<(), AllocError> {
    match directive {
        GlobalDirective::Diagnostic(_) => Ok(()),
        GlobalDirective::Enable(x) => walk_names(&x.extensions, false, list),
        GlobalDirective::Requires(x) => walk_names(&x.extensions, true, list),
    }
}

/// The steps of a declaration of a value.
fn walk_variable(x: &Declaration, span: Span, list: &mut StepList) -> Result<(), AllocError> {
    walk_attributes(x.attributes.as_slice(), list)?;
    walk_optional_type(&x.ty, span, list)?;
    walk_optional(&x.initializer, list)?;
    let step = DeclareStep::Variable {
        has_type: x.ty.is_some(),
        has_value: x.initializer.is_some(),
    };
    list.push(Step::Declare(step), span)
}

/// The steps of `alias`.
fn walk_alias(x: &TypeAlias, span: Span, list: &mut StepList) -> Result<(), AllocError> {
    walk_attributes(x.attributes.as_slice(), list)?;
    walk_type(&x.ty, Role::Type, span, list)?;
    list.push(Step::Declare(DeclareStep::Place), span)
}

/// The steps of members, one by one.
fn walk_members(members: &[StructMemberNode], list: &mut StepList) -> Result<(), AllocError> {
    for (number, member) in members.iter().enumerate() {
        let span = member.span;
        let x = member.node();
        walk_attributes(x.attributes.as_slice(), list)?;
        walk_type(&x.ty, Role::Type, span, list)?;
        let name = list.number(x.ident.as_str())?;
        let number = counted(number)?;
        list.push(Step::Declare(DeclareStep::Member { name, number }), span)?;
    }
    Ok(())
}

/// The steps of a structure.
fn walk_struct(x: &Struct, list: &mut StepList) -> Result<(), AllocError> {
    walk_attributes(x.attributes.as_slice(), list)?;
    walk_members(x.members.as_slice(), list)
}

/// The steps of the types of parameters, one by one.
fn walk_parameters(
    parameters: &[FormalParameter],
    span: Span,
    list: &mut StepList,
) -> Result<(), AllocError> {
    for (number, x) in parameters.iter().enumerate() {
        walk_attributes(x.attributes.as_slice(), list)?;
        walk_type(&x.ty, Role::Type, span, list)?;
        let step = DeclareStep::ParameterType(counted(number)?);
        list.push(Step::Declare(step), span)?;
    }
    Ok(())
}

/// Declares parameters, whose types are known.
fn walk_locals(
    parameters: &[FormalParameter],
    span: Span,
    list: &mut StepList,
) -> Result<(), AllocError> {
    for (number, x) in parameters.iter().enumerate() {
        let name = list.number(x.ident.as_str())?;
        let number = counted(number)?;
        list.push(Step::Declare(DeclareStep::Parameter { name, number }), span)?;
    }
    Ok(())
}

/// The steps of what stands in front of the body of a function: what it returns.
fn walk_signature(x: &Function, span: Span, list: &mut StepList) -> Result<(), AllocError> {
    walk_attributes(x.attributes.as_slice(), list)?;
    walk_parameters(x.parameters.as_slice(), span, list)?;
    walk_attributes(x.return_attributes.as_slice(), list)?;
    walk_optional_type(&x.return_type, span, list)?;
    list.push(Step::Declare(DeclareStep::Place), span)
}

/// The steps of a function. The number of the first one behind its signature.
fn walk_function(x: &Function, span: Span, list: &mut StepList) -> Result<usize, AllocError> {
    walk_signature(x, span, list)?;
    let body = list.len();
    walk_attributes(x.body.attributes.as_slice(), list)?;
    list.push(Step::Enter, span)?;
    walk_locals(x.parameters.as_slice(), span, list)?;
    walk_statements(x.body.statements.as_slice(), list)?;
    list.push(Step::Leave, span)?;
    Ok(body)
}

/// The steps of a declaration. The number of the first one of the body, if it is a function; else that of the first one behind it.
pub(crate) fn walk_declaration(
    declaration: &GlobalDeclaration,
    span: Span,
    list: &mut StepList,
) -> Result<usize, AllocError> {
    match declaration {
        GlobalDeclaration::Void => {}
        GlobalDeclaration::Declaration(x) => walk_variable(x, span, list)?,
        GlobalDeclaration::TypeAlias(x) => walk_alias(x, span, list)?,
        GlobalDeclaration::Struct(x) => walk_struct(x, list)?,
        GlobalDeclaration::Function(x) => return walk_function(x, span, list),
        GlobalDeclaration::ConstAssert(x) => walk_assertion(x, list)?,
    }
    Ok(list.len())
}
