//! Declarations of values and constant assertions as text.

ghost use Rattle.std.specs.Prelude.{◌≡◌, ◌++◌, Some, map, codes};
ghost use Rattle.std.specs.Option.{option_map};
ghost use Rattle.std.specs.Fmt.{WritesOnOk};
ghost use Rattle.wgsl_expressions.specs.View.{node_tree, type_tree};
ghost use Rattle.wgsl_simple_statements.specs.View.{assertion_tree, value_tree};
ghost use Rattle.wgsl_simple_statements.specs.Print.{access_text, space_text, kind_text, annotation_text, initializer_text, asserted_text, declared_text, simple_text, simple_line};

use crate::declaration::{ConstAssert, Declaration, DeclarationKind};
use std::fmt;
use std::fmt::Display;
use wgsl_expressions::{
    AccessMode, AddressSpace, ExpressionNode, TypeExpression, write_attributes,
};

fn write_access<W: fmt::Write>(access: Option<AccessMode>, f: &mut fmt::Formatter<W>) -> fmt::Result
    ensures { WritesOnOk W.write_str_gives f.old result (access_text access) f.new }
{
    match access {
        None => Ok(()),
        Some(access) => {
            f.write_str(", ")?;
            access.fmt(f)
        }
    }
}

fn write_space<W: fmt::Write>(
    space: Option<(AddressSpace, Option<AccessMode>)>,
    f: &mut fmt::Formatter<W>,
) -> fmt::Result
    ensures { WritesOnOk W.write_str_gives f.old result (space_text space) f.new }
{
    match space {
        None => Ok(()),
        Some((space, access)) => {
            f.write_str("<")?;
            space.fmt(f)?;
            write_access(access, f)?;
            f.write_str(">")
        }
    }
}

impl fmt::Display for DeclarationKind {
    ghost output = { λ x. Some (kind_text x) };

    fn fmt<W: fmt::Write>(&self, f: &mut fmt::Formatter<W>) -> fmt::Result {
        match self {
            DeclarationKind::Const => f.write_str("const"),
            DeclarationKind::Override => f.write_str("override"),
            DeclarationKind::Let => f.write_str("let"),
            DeclarationKind::Var(space) => {
                f.write_str("var")?;
                write_space(*space, f)
            }
        }
    }
}

fn write_annotation<W: fmt::Write>(
    ty: &Option<TypeExpression>,
    f: &mut fmt::Formatter<W>,
) -> fmt::Result
    ensures { WritesOnOk W.write_str_gives f.old result (annotation_text (option_map type_tree ty.now)) f.new }
{
    match ty {
        None => Ok(()),
        Some(ty) => {
            f.write_str(": ")?;
            ty.fmt(f)
        }
    }
}

fn write_initializer<W: fmt::Write>(
    value: &Option<ExpressionNode>,
    f: &mut fmt::Formatter<W>,
) -> fmt::Result
    ensures { WritesOnOk W.write_str_gives f.old result (initializer_text (option_map node_tree value.now)) f.new }
{
    match value {
        None => Ok(()),
        Some(value) => {
            f.write_str(" = ")?;
            value.node().fmt(f)
        }
    }
}

/// Writes a declaration from behind its attributes to its `;`.
fn write_declared<W: fmt::Write>(
    declaration: &Declaration,
    f: &mut fmt::Formatter<W>,
) -> fmt::Result
    ensures { WritesOnOk W.write_str_gives f.old result (declared_text declaration.now.kind declaration.now.ident.name (option_map type_tree declaration.now.ty) (option_map node_tree declaration.now.initializer)) f.new }
{
    declaration.kind.fmt(f)?;
    f.write_str(" ")?;
    f.write_str(declaration.ident.as_str())?;
    write_annotation(&declaration.ty, f)?;
    write_initializer(&declaration.initializer, f)
}

impl Declaration {
    /// Writes it up to its `;`.
    pub fn write_bare<W: fmt::Write>(&self, f: &mut fmt::Formatter<W>) -> fmt::Result
        ensures { WritesOnOk W.write_str_gives f.old result (simple_text (value_tree self.now)) f.new }
    {
        write_attributes(self.attributes.as_slice(), f)?;
        write_declared(self, f)
    }
}

impl fmt::Display for Declaration {
    ghost output = { λ x. Some (simple_line (value_tree x)) };

    fn fmt<W: fmt::Write>(&self, f: &mut fmt::Formatter<W>) -> fmt::Result {
        self.write_bare(f)?;
        f.write_str(";\n")
    }
}

fn write_asserted<W: fmt::Write>(
    condition: &ExpressionNode,
    f: &mut fmt::Formatter<W>,
) -> fmt::Result
    ensures { WritesOnOk W.write_str_gives f.old result (asserted_text (node_tree condition.now)) f.new }
{
    f.write_str("const_assert ")?;
    condition.node().fmt(f)
}

impl ConstAssert {
    /// Writes it up to its `;`.
    pub fn write_bare<W: fmt::Write>(&self, f: &mut fmt::Formatter<W>) -> fmt::Result
        ensures { WritesOnOk W.write_str_gives f.old result (simple_text (assertion_tree self.now)) f.new }
    {
        write_attributes(self.attributes.as_slice(), f)?;
        write_asserted(&self.expression, f)
    }
}

impl fmt::Display for ConstAssert {
    ghost output = { λ x. Some (simple_line (assertion_tree x)) };

    fn fmt<W: fmt::Write>(&self, f: &mut fmt::Formatter<W>) -> fmt::Result {
        self.write_bare(f)?;
        f.write_str(";\n")
    }
}
