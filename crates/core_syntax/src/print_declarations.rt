//! Attributes, statements, declarations, imports and modules as text.

ghost use Rattle.std.specs.Prelude.{◌≡◌, ◌++◌, ◌+◌, ◌*◌, ◌<◌, ◌^◌, Some, map, codes};
ghost use Rattle.std.specs.List.{flat_map};
ghost use Rattle.std.specs.Option.{option_map};
ghost use Rattle.std.specs.Fmt.{WritesOnOk};
ghost use Rattle.core_syntax.specs.View.{node_tree, type_tree, attribute_tree, attributes_tree, statement_tree, block_tree, parameter_tree, declaration_tree, import_tree, unit_tree};
ghost use Rattle.core_syntax.specs.Print.{qualifier_text, commas, attr_text, attrs_text, indent, value_text, stm_text, braces_text, block_text, body_text, param_text, annotation_text, initializer_text, result_text, kind_text, variable_text, head_text, decl_text, rename_text, item_text, content_text, imp_text, unit_text};

use crate::declaration::{
    Attribute, AttributeNode, Declaration, DeclarationKind, FormalParameter, Function,
    GlobalDeclaration, GlobalDeclarationNode,
};
use crate::expression::{ExpressionNode, TypeExpression};
use crate::import::{ImportContent, ImportItem, ImportStatement};
use crate::print::write_qualifier;
use crate::statement::{CompoundStatement, ReturnStatement, Statement, StatementNode};
use crate::unit::TranslationUnit;
use std::fmt;
use std::fmt::Display;
use wgsl_path::Ident;

impl fmt::Display for Attribute {
    ghost output = { λ x. Some (attr_text (attribute_tree x)) };

    fn fmt<W: fmt::Write>(&self, f: &mut fmt::Formatter<W>) -> fmt::Result {
        match self {
            Attribute::Fragment => f.write_str("@fragment"),
            Attribute::Location(number) => {
                f.write_str("@location(")?;
                number.node().fmt(f)?;
                f.write_str(")")
            }
        }
    }
}

fn write_attributes<W: fmt::Write>(
    attributes: &[AttributeNode],
    f: &mut fmt::Formatter<W>,
) -> fmt::Result
    ensures { WritesOnOk W.write_str_gives f.old result (attrs_text (attributes_tree attributes.now)) f.new }
{
    write_each_attribute(attributes, f)
}

fn write_each_attribute<W: fmt::Write>(
    attributes: &[AttributeNode],
    f: &mut fmt::Formatter<W>,
) -> fmt::Result
    ensures { WritesOnOk W.write_str_gives f.old result (flat_map (λ n. attr_text (attribute_tree n.node) ++ codes " ") attributes.now) f.new }
{
    for attribute in attributes {
        attribute.node().fmt(f)?;
        f.write_str(" ")?;
    }
    Ok(())
}

fn write_indent<W: fmt::Write>(level: u32, f: &mut fmt::Formatter<W>) -> fmt::Result
    ensures { WritesOnOk W.write_str_gives f.old result (indent level) f.new }
{
    for _column in 0..4 * u64::from(level) {
        f.write_str(" ")?;
    }
    Ok(())
}

fn write_value<W: fmt::Write>(
    value: &Option<ExpressionNode>,
    f: &mut fmt::Formatter<W>,
) -> fmt::Result
    ensures { WritesOnOk W.write_str_gives f.old result (value_text (option_map node_tree value.now)) f.new }
{
    match value {
        None => Ok(()),
        Some(value) => {
            f.write_str(" ")?;
            value.node().fmt(f)
        }
    }
}

/// Writes a `return` statement's line, at a level.
fn write_return<W: fmt::Write>(
    statement: &ReturnStatement,
    level: u32,
    f: &mut fmt::Formatter<W>,
) -> fmt::Result
    ensures { WritesOnOk W.write_str_gives f.old result (stm_text level (statement_tree (Statement.Return statement.now))) f.new }
{
    write_indent(level, f)?;
    write_attributes(statement.attributes.as_slice(), f)?;
    f.write_str("return")?;
    write_value(&statement.expression, f)?;
    f.write_str(";\n")
}

/// Writes a statement's line, at a level.
fn write_statement<W: fmt::Write>(
    statement: &Statement,
    level: u32,
    f: &mut fmt::Formatter<W>,
) -> fmt::Result
    ensures { WritesOnOk W.write_str_gives f.old result (stm_text level (statement_tree statement.now)) f.new }
{
    match statement {
        Statement::Return(x) => write_return(x, level, f),
    }
}

impl fmt::Display for ReturnStatement {
    ghost use Rattle.core_syntax.specs.declared.statement.Statement.{Statement};

    ghost output = { λ x. Some (stm_text 0 (statement_tree (Statement.Return x))) };

    fn fmt<W: fmt::Write>(&self, f: &mut fmt::Formatter<W>) -> fmt::Result {
        write_return(self, 0, f)
    }
}

impl fmt::Display for Statement {
    ghost output = { λ x. Some (stm_text 0 (statement_tree x)) };

    fn fmt<W: fmt::Write>(&self, f: &mut fmt::Formatter<W>) -> fmt::Result {
        write_statement(self, 0, f)
    }
}

/// Writes statements, each a line at a level.
fn write_statements<W: fmt::Write>(
    statements: &[StatementNode],
    level: u32,
    f: &mut fmt::Formatter<W>,
) -> fmt::Result
    ensures { WritesOnOk W.write_str_gives f.old result (flat_map (λ n. stm_text level (statement_tree n.node)) statements.now) f.new }
{
    for statement in statements {
        write_statement(statement.node(), level, f)?;
    }
    Ok(())
}

/// Writes statements in braces whose lines stand a level deeper than this one.
fn write_braces<W: fmt::Write>(
    statements: &[StatementNode],
    level: u32,
    f: &mut fmt::Formatter<W>,
) -> fmt::Result
    ensures { WritesOnOk W.write_str_gives f.old result (braces_text level (map (λ n. statement_tree n.node) statements.now)) f.new }
{
    if statements.is_empty() {
        f.write_str("{}")
    } else {
        write_lines(statements, level, f)
    }
}

fn write_lines<W: fmt::Write>(
    statements: &[StatementNode],
    level: u32,
    f: &mut fmt::Formatter<W>,
) -> fmt::Result
    ensures { WritesOnOk W.write_str_gives f.old result (codes "{\n" ++ flat_map (λ n. stm_text (level + 1) (statement_tree n.node)) statements.now ++ indent level ++ codes "}") f.new }
{
    let Some(inner) = level.checked_add(1) else {
        return Err(fmt::Error);
    };
    f.write_str("{\n")?;
    write_statements(statements, inner, f)?;
    write_indent(level, f)?;
    f.write_str("}")
}

/// Writes a block that begins in a line at a level.
fn write_block<W: fmt::Write>(
    block: &CompoundStatement,
    level: u32,
    f: &mut fmt::Formatter<W>,
) -> fmt::Result
    ensures { WritesOnOk W.write_str_gives f.old result (block_text level (block_tree block.now)) f.new }
{
    write_attributes(block.attributes.as_slice(), f)?;
    write_braces(block.statements.as_slice(), level, f)
}

impl fmt::Display for CompoundStatement {
    ghost output = { λ x. Some (block_text 0 (block_tree x)) };

    fn fmt<W: fmt::Write>(&self, f: &mut fmt::Formatter<W>) -> fmt::Result {
        write_block(self, 0, f)
    }
}

impl fmt::Display for FormalParameter {
    ghost output = { λ x. Some (param_text (parameter_tree x)) };

    fn fmt<W: fmt::Write>(&self, f: &mut fmt::Formatter<W>) -> fmt::Result {
        write_attributes(self.attributes.as_slice(), f)?;
        f.write_str(self.ident.as_str())?;
        f.write_str(": ")?;
        self.ty.fmt(f)
    }
}

fn write_parameters<W: fmt::Write>(
    parameters: &[FormalParameter],
    f: &mut fmt::Formatter<W>,
) -> fmt::Result
    ensures { WritesOnOk W.write_str_gives f.old result (commas param_text (map parameter_tree parameters.now)) f.new }
{
    write_each_parameter(parameters, f)
}

fn write_each_parameter<W: fmt::Write>(
    parameters: &[FormalParameter],
    f: &mut fmt::Formatter<W>,
) -> fmt::Result
    ensures { WritesOnOk W.write_str_gives f.old result (commas (λ p. param_text (parameter_tree p)) parameters.now) f.new }
{
    if let [first, rest @ ..] = parameters {
        first.fmt(f)?;
        for parameter in rest {
            f.write_str(", ")?;
            parameter.fmt(f)?;
        }
    }
    Ok(())
}

fn write_annotation<W: fmt::Write>(
    ty: &Option<TypeExpression>,
    f: &mut fmt::Formatter<W>,
) -> fmt::Result
    ensures { WritesOnOk W.write_str_gives f.old result (annotation_text (option_map type_tree ty.now)) f.new }
{
    match ty {
        None => Ok(()),
        Some(ty) => {
            f.write_str(": ")?;
            ty.fmt(f)
        }
    }
}

fn write_initializer<W: fmt::Write>(
    value: &Option<ExpressionNode>,
    f: &mut fmt::Formatter<W>,
) -> fmt::Result
    ensures { WritesOnOk W.write_str_gives f.old result (initializer_text (option_map node_tree value.now)) f.new }
{
    match value {
        None => Ok(()),
        Some(value) => {
            f.write_str(" = ")?;
            value.node().fmt(f)
        }
    }
}

impl fmt::Display for DeclarationKind {
    ghost output = { λ x. Some (kind_text x) };

    fn fmt<W: fmt::Write>(&self, f: &mut fmt::Formatter<W>) -> fmt::Result {
        match self {
            DeclarationKind::Const => f.write_str("const"),
        }
    }
}

/// Writes what stands behind the name of a declaration.
fn write_declared<W: fmt::Write>(
    declaration: &Declaration,
    f: &mut fmt::Formatter<W>,
) -> fmt::Result
    ensures { WritesOnOk W.write_str_gives f.old result (annotation_text (option_map type_tree declaration.now.ty) ++ initializer_text (option_map node_tree declaration.now.initializer) ++ codes ";\n") f.new }
{
    write_annotation(&declaration.ty, f)?;
    write_initializer(&declaration.initializer, f)?;
    f.write_str(";\n")
}

impl fmt::Display for Declaration {
    ghost use Rattle.core_syntax.specs.declared.declaration.GlobalDeclaration.{GlobalDeclaration};

    ghost output = { λ x. Some (decl_text (declaration_tree (GlobalDeclaration.Declaration x))) };

    fn fmt<W: fmt::Write>(&self, f: &mut fmt::Formatter<W>) -> fmt::Result {
        write_attributes(self.attributes.as_slice(), f)?;
        self.kind.fmt(f)?;
        f.write_str(" ")?;
        f.write_str(self.ident.as_str())?;
        write_declared(self, f)
    }
}

/// Writes a function up to its parameters.
#[tactic(auto, unfolding(crate::specs::Print::head_text))]
fn write_head<W: fmt::Write>(function: &Function, f: &mut fmt::Formatter<W>) -> fmt::Result
    ensures { WritesOnOk W.write_str_gives f.old result (head_text (attributes_tree function.now.attributes) function.now.ident.name (map parameter_tree function.now.parameters)) f.new }
{
    write_attributes(function.attributes.as_slice(), f)?;
    f.write_str("fn ")?;
    f.write_str(function.ident.as_str())?;
    f.write_str("(")?;
    write_parameters(function.parameters.as_slice(), f)?;
    f.write_str(")")
}

fn write_result<W: fmt::Write>(
    attributes: &[AttributeNode],
    ty: &Option<TypeExpression>,
    f: &mut fmt::Formatter<W>,
) -> fmt::Result
    ensures { WritesOnOk W.write_str_gives f.old result (result_text (attributes_tree attributes.now) (option_map type_tree ty.now)) f.new }
{
    match ty {
        None => Ok(()),
        Some(ty) => {
            f.write_str(" -> ")?;
            write_attributes(attributes, f)?;
            ty.fmt(f)
        }
    }
}

impl fmt::Display for Function {
    ghost use Rattle.core_syntax.specs.declared.declaration.GlobalDeclaration.{GlobalDeclaration};

    ghost output = { λ x. Some (decl_text (declaration_tree (GlobalDeclaration.Function x))) };

    fn fmt<W: fmt::Write>(&self, f: &mut fmt::Formatter<W>) -> fmt::Result {
        write_head(self, f)?;
        write_result(self.return_attributes.as_slice(), &self.return_type, f)?;
        write_body(&self.body, f)
    }
}

/// Writes a function from behind its result on.
#[tactic(auto, unfolding(crate::specs::Print::body_text))]
fn write_body<W: fmt::Write>(body: &CompoundStatement, f: &mut fmt::Formatter<W>) -> fmt::Result
    ensures { WritesOnOk W.write_str_gives f.old result (body_text (block_tree body.now)) f.new }
{
    f.write_str(" ")?;
    body.fmt(f)?;
    f.write_str("\n")
}

impl fmt::Display for GlobalDeclaration {
    ghost output = { λ x. Some (decl_text (declaration_tree x)) };

    fn fmt<W: fmt::Write>(&self, f: &mut fmt::Formatter<W>) -> fmt::Result {
        match self {
            GlobalDeclaration::Declaration(x) => x.fmt(f),
            GlobalDeclaration::Function(x) => x.fmt(f),
        }
    }
}

fn write_rename<W: fmt::Write>(rename: &Option<Ident>, f: &mut fmt::Formatter<W>) -> fmt::Result
    ensures { WritesOnOk W.write_str_gives f.old result (rename_text (option_map (λ r. r.name) rename.now)) f.new }
{
    match rename {
        None => Ok(()),
        Some(ident) => {
            f.write_str(" as ")?;
            f.write_str(ident.as_str())
        }
    }
}

impl fmt::Display for ImportItem {
    ghost output = { λ x. Some (item_text x.ident.name (option_map (λ r. r.name) x.rename)) };

    fn fmt<W: fmt::Write>(&self, f: &mut fmt::Formatter<W>) -> fmt::Result {
        f.write_str(self.ident.as_str())?;
        write_rename(&self.rename, f)
    }
}

impl fmt::Display for ImportContent {
    ghost output = { λ x. Some (content_text x) };

    fn fmt<W: fmt::Write>(&self, f: &mut fmt::Formatter<W>) -> fmt::Result {
        match self {
            ImportContent::Item(x) => x.fmt(f),
        }
    }
}

impl fmt::Display for ImportStatement {
    ghost output = { λ x. Some (imp_text (import_tree x)) };

    #[tactic(auto, using(crate::proofs::Texts::imp_text_content))]
    fn fmt<W: fmt::Write>(&self, f: &mut fmt::Formatter<W>) -> fmt::Result {
        write_attributes(self.attributes.as_slice(), f)?;
        f.write_str("import ")?;
        write_qualifier(&self.path, f)?;
        self.content.fmt(f)?;
        f.write_str(";\n")
    }
}

impl fmt::Display for TranslationUnit {
    ghost output = { λ x. Some (unit_text (unit_tree x)) };

    fn fmt<W: fmt::Write>(&self, f: &mut fmt::Formatter<W>) -> fmt::Result {
        write_unit(self, f)
    }
}

fn write_unit<W: fmt::Write>(unit: &TranslationUnit, f: &mut fmt::Formatter<W>) -> fmt::Result
    ensures { WritesOnOk W.write_str_gives f.old result (flat_map (λ i. imp_text (import_tree i)) unit.now.imports ++ flat_map (λ n. decl_text (declaration_tree n.node)) unit.now.global_declarations) f.new }
{
    write_imports(unit.imports.as_slice(), f)?;
    write_declarations(unit.global_declarations.as_slice(), f)
}

fn write_imports<W: fmt::Write>(
    imports: &[ImportStatement],
    f: &mut fmt::Formatter<W>,
) -> fmt::Result
    ensures { WritesOnOk W.write_str_gives f.old result (flat_map (λ i. imp_text (import_tree i)) imports.now) f.new }
{
    for import in imports {
        import.fmt(f)?;
    }
    Ok(())
}

fn write_declarations<W: fmt::Write>(
    declarations: &[GlobalDeclarationNode],
    f: &mut fmt::Formatter<W>,
) -> fmt::Result
    ensures { WritesOnOk W.write_str_gives f.old result (flat_map (λ n. decl_text (declaration_tree n.node)) declarations.now) f.new }
{
    for declaration in declarations {
        declaration.node().fmt(f)?;
    }
    Ok(())
}
