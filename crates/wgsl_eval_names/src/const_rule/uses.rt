//! What each declaration of a module uses.

use crate::const_rule::statements::{list, statement, value};
use crate::const_rule::walk::{Left, Place, Walk};
use crate::symbols::Directory;
use std::alloc::{AllocError, Global};
use wgsl_base::Items;
use wgsl_declarations::{Function, GlobalDeclaration, Struct, TranslationUnit};

/// What a declaration uses.
#[derive(Drop)]
pub struct Used {
    /// The declarations whose names occur in it.
    pub edges: Items<usize>,
    /// Those whose names occur in the types of its members, or in the alias that it is.
    pub member_edges: Items<usize>,
    /// Whether nothing excludes it from the const functions but what it uses.
    pub is_clean: bool,
    /// Whether the type of a member, or the alias that it is, names `ptr`.
    pub has_pointer: bool,
}

fn function_left<'s>(walk: &mut Walk<'s>, x: &'s Function) -> Result<(), AllocError> {
    list(walk, &x.body)?;
    for parameter in x.parameters.as_slice().iter().rev() {
        walk.then(Left::Declare(parameter.ident.name()))?;
    }
    walk.then(Left::Enter)?;
    walk.then(Left::Attributes(x.body.attributes.as_slice()))?;
    if let Some(ty) = &x.return_type {
        walk.then(Left::Type(ty, Place::Plain))?;
    }
    walk.then(Left::Attributes(x.return_attributes.as_slice()))?;
    for parameter in x.parameters.as_slice().iter().rev() {
        walk.then(Left::Type(&parameter.ty, Place::Plain))?;
        walk.then(Left::Attributes(parameter.attributes.as_slice()))?;
    }
    walk.then(Left::Attributes(x.attributes.as_slice()))
}

fn struct_left<'s>(walk: &mut Walk<'s>, x: &'s Struct) -> Result<(), AllocError> {
    for member in x.members.as_slice().iter().rev() {
        walk.then(Left::Type(&member.node().ty, Place::Member))?;
        walk.then(Left::Attributes(member.node().attributes.as_slice()))?;
    }
    walk.then(Left::Attributes(x.attributes.as_slice()))
}

fn declaration_left<'s>(
    walk: &mut Walk<'s>,
    declaration: &'s GlobalDeclaration,
) -> Result<(), AllocError> {
    match declaration {
        GlobalDeclaration::Void => Ok(()),
        GlobalDeclaration::Declaration(x) => value(walk, x),
        GlobalDeclaration::TypeAlias(x) => {
            walk.then(Left::Type(&x.ty, Place::Member))?;
            walk.then(Left::Attributes(x.attributes.as_slice()))
        }
        GlobalDeclaration::Struct(x) => struct_left(walk, x),
        GlobalDeclaration::Function(x) => function_left(walk, x),
        GlobalDeclaration::ConstAssert(x) => {
            walk.expression(&x.expression)?;
            walk.then(Left::Attributes(x.attributes.as_slice()))
        }
    }
}

fn walk_through<'s>(walk: &mut Walk<'s>, directory: &Directory<'s>) -> Result<(), AllocError> {
    for _turn in 0..u64::MAX {
        match walk.up_to_statement(directory)? {
            Some(node) => statement(walk, node)?,
            None => return Ok(()),
        }
    }
    Err(AllocError)
}

fn found_in<'s>(
    alloc: Global,
    directory: &Directory<'s>,
    declaration: &'s GlobalDeclaration,
) -> Result<Used, AllocError> {
    let mut walk = Walk::new(alloc);
    declaration_left(&mut walk, declaration)?;
    walk_through(&mut walk, directory)?;
    let Walk {
        alloc: _,
        left,
        locals,
        edges,
        member_edges,
        is_clean,
        has_pointer,
    } = walk;
    drop(left);
    drop(locals);
    Ok(Used {
        edges,
        member_edges,
        is_clean,
        has_pointer,
    })
}

/// What each declaration of a module uses, in text order.
pub fn uses_of<'s>(
    alloc: Global,
    directory: &Directory<'s>,
    unit: &'s TranslationUnit,
) -> Result<Items<Used>, AllocError> {
    let mut uses = Items::new(alloc);
    for node in unit.global_declarations.as_slice() {
        uses.push(found_in(alloc, directory, node.node())?)?;
    }
    Ok(uses)
}
