//! Declarations as text.

ghost use Rattle.std.specs.Prelude.{◌≡◌, ◌++◌, Some, map, codes};
ghost use Rattle.std.specs.List.{flat_map};
ghost use Rattle.std.specs.Option.{option_map};
ghost use Rattle.std.specs.Fmt.{WritesOnOk};
ghost use Rattle.wgsl_declarations.specs.ExpressionsView.{type_tree};
ghost use Rattle.wgsl_declarations.specs.ExpressionsPrint.{commas, indent};
ghost use Rattle.wgsl_declarations.specs.AttributesView.{attributes_tree};
ghost use Rattle.wgsl_statements.specs.View.{block_tree};
ghost use Rattle.wgsl_declarations.specs.View.{alias_tree, member_tree, members_tree, structure_tree, parameter_tree, function_tree, declaration_tree};
ghost use Rattle.wgsl_declarations.specs.Print.{alias_text, structure_text, member_text, members_text, param_text, head_text, result_text, body_text, decl_text, lines_text};

use crate::declaration::{
    FormalParameter, Function, GlobalDeclaration, Struct, StructMember, StructMemberNode, TypeAlias,
};
use crate::imports::{AttributeNode, TypeExpression, write_attributes, write_indent};
use std::fmt;
use std::fmt::Display;
use wgsl_statements::CompoundStatement;

/// Writes it from behind its attributes to its `;`.
#[tactic(auto, unfolding(crate::specs::Print::alias_text))]
fn write_alias<W: fmt::Write>(alias: &TypeAlias, f: &mut fmt::Formatter<W>) -> fmt::Result
    ensures { WritesOnOk W.write_str_gives f.old result (alias_text alias.now.ident.name (type_tree alias.now.ty)) f.new }
{
    f.write_str("alias ")?;
    f.write_str(alias.ident.as_str())?;
    f.write_str(" = ")?;
    alias.ty.fmt(f)
}

impl fmt::Display for TypeAlias {
    ghost output = { λ x. Some (decl_text (alias_tree x)) };

    fn fmt<W: fmt::Write>(&self, f: &mut fmt::Formatter<W>) -> fmt::Result {
        write_attributes(self.attributes.as_slice(), f)?;
        write_alias(self, f)?;
        f.write_str(";\n")
    }
}

impl fmt::Display for StructMember {
    ghost output = { λ x. Some (member_text (member_tree x)) };

    fn fmt<W: fmt::Write>(&self, f: &mut fmt::Formatter<W>) -> fmt::Result {
        write_attributes(self.attributes.as_slice(), f)?;
        f.write_str(self.ident.as_str())?;
        f.write_str(": ")?;
        self.ty.fmt(f)?;
        f.write_str(",\n")
    }
}

/// Writes members, each a line a level deep.
fn write_members<W: fmt::Write>(
    members: &[StructMemberNode],
    f: &mut fmt::Formatter<W>,
) -> fmt::Result
    ensures { WritesOnOk W.write_str_gives f.old result (flat_map (λ n. indent 1 ++ member_text (member_tree n.node)) members.now) f.new }
{
    for member in members {
        write_indent(1, f)?;
        member.node().fmt(f)?;
    }
    Ok(())
}

/// Writes one member or more in braces.
fn write_lines<W: fmt::Write>(
    members: &[StructMemberNode],
    f: &mut fmt::Formatter<W>,
) -> fmt::Result
    ensures { WritesOnOk W.write_str_gives f.old result (codes "{\n" ++ flat_map (λ n. indent 1 ++ member_text (member_tree n.node)) members.now ++ codes "}") f.new }
{
    f.write_str("{\n")?;
    write_members(members, f)?;
    f.write_str("}")
}

/// Writes members in braces.
fn write_braces<W: fmt::Write>(
    members: &[StructMemberNode],
    f: &mut fmt::Formatter<W>,
) -> fmt::Result
    ensures { WritesOnOk W.write_str_gives f.old result (members_text (members_tree members.now)) f.new }
{
    if members.is_empty() {
        f.write_str("{}")
    } else {
        write_lines(members, f)
    }
}

/// Writes a structure up to its members.
#[tactic(auto, unfolding(crate::specs::Print::structure_text))]
fn write_name<W: fmt::Write>(structure: &Struct, f: &mut fmt::Formatter<W>) -> fmt::Result
    ensures { WritesOnOk W.write_str_gives f.old result (structure_text (attributes_tree structure.now.attributes) structure.now.ident.name) f.new }
{
    write_attributes(structure.attributes.as_slice(), f)?;
    f.write_str("struct ")?;
    f.write_str(structure.ident.as_str())?;
    f.write_str(" ")
}

impl fmt::Display for Struct {
    ghost output = { λ x. Some (decl_text (structure_tree x)) };

    fn fmt<W: fmt::Write>(&self, f: &mut fmt::Formatter<W>) -> fmt::Result {
        write_name(self, f)?;
        write_braces(self.members.as_slice(), f)?;
        f.write_str("\n")
    }
}

impl fmt::Display for FormalParameter {
    ghost output = { λ x. Some (param_text (parameter_tree x)) };

    fn fmt<W: fmt::Write>(&self, f: &mut fmt::Formatter<W>) -> fmt::Result {
        write_attributes(self.attributes.as_slice(), f)?;
        f.write_str(self.ident.as_str())?;
        f.write_str(": ")?;
        self.ty.fmt(f)
    }
}

fn write_parameters<W: fmt::Write>(
    parameters: &[FormalParameter],
    f: &mut fmt::Formatter<W>,
) -> fmt::Result
    ensures { WritesOnOk W.write_str_gives f.old result (commas param_text (map parameter_tree parameters.now)) f.new }
{
    write_each_parameter(parameters, f)
}

fn write_each_parameter<W: fmt::Write>(
    parameters: &[FormalParameter],
    f: &mut fmt::Formatter<W>,
) -> fmt::Result
    ensures { WritesOnOk W.write_str_gives f.old result (commas (λ p. param_text (parameter_tree p)) parameters.now) f.new }
{
    if let [first, rest @ ..] = parameters {
        first.fmt(f)?;
        for parameter in rest {
            f.write_str(", ")?;
            parameter.fmt(f)?;
        }
    }
    Ok(())
}

/// Writes a function up to its result.
#[tactic(auto, unfolding(crate::specs::Print::head_text))]
fn write_head<W: fmt::Write>(function: &Function, f: &mut fmt::Formatter<W>) -> fmt::Result
    ensures { WritesOnOk W.write_str_gives f.old result (head_text (attributes_tree function.now.attributes) function.now.ident.name (map parameter_tree function.now.parameters)) f.new }
{
    write_attributes(function.attributes.as_slice(), f)?;
    f.write_str("fn ")?;
    f.write_str(function.ident.as_str())?;
    f.write_str("(")?;
    write_parameters(function.parameters.as_slice(), f)?;
    f.write_str(")")
}

fn write_result<W: fmt::Write>(
    attributes: &[AttributeNode],
    ty: &Option<TypeExpression>,
    f: &mut fmt::Formatter<W>,
) -> fmt::Result
    ensures { WritesOnOk W.write_str_gives f.old result (result_text (attributes_tree attributes.now) (option_map type_tree ty.now)) f.new }
{
    match ty {
        None => Ok(()),
        Some(ty) => {
            f.write_str(" -> ")?;
            write_attributes(attributes, f)?;
            ty.fmt(f)
        }
    }
}

/// Writes a function from behind its result on.
#[tactic(auto, unfolding(crate::specs::Print::body_text))]
fn write_body<W: fmt::Write>(body: &CompoundStatement, f: &mut fmt::Formatter<W>) -> fmt::Result
    ensures { WritesOnOk W.write_str_gives f.old result (body_text (block_tree body.now)) f.new }
{
    f.write_str(" ")?;
    body.fmt(f)?;
    f.write_str("\n")
}

impl fmt::Display for Function {
    ghost output = { λ x. Some (decl_text (function_tree x)) };

    fn fmt<W: fmt::Write>(&self, f: &mut fmt::Formatter<W>) -> fmt::Result {
        write_head(self, f)?;
        write_result(self.return_attributes.as_slice(), &self.return_type, f)?;
        write_body(&self.body, f)
    }
}

impl fmt::Display for GlobalDeclaration {
    ghost output = { λ x. Some (lines_text (declaration_tree x)) };

    fn fmt<W: fmt::Write>(&self, f: &mut fmt::Formatter<W>) -> fmt::Result {
        match self {
            GlobalDeclaration::Void => Ok(()),
            GlobalDeclaration::Declaration(x) => x.fmt(f),
            GlobalDeclaration::TypeAlias(x) => x.fmt(f),
            GlobalDeclaration::Struct(x) => x.fmt(f),
            GlobalDeclaration::Function(x) => x.fmt(f),
            GlobalDeclaration::ConstAssert(x) => x.fmt(f),
        }
    }
}
