//! Texts.

ghost use Rattle.std.specs.Prelude.{◌≡◌, Ok, Err, OnOk, IfErr};
ghost use Rattle.wgsl_lr_driver.specs.Part.TheVariants as as_part;
ghost use Rattle.wgsl_lr_driver.specs.declared.driver.Start.TheVariants as from;
ghost use Rattle.wgsl_parser.specs.Texts.{Parses, ParsesModule, ParsesTokens, TellsModule};

use crate::error::error_of;
use crate::take::{declaration, directive, expression, import, kind, module, statement};
use std::alloc::{AllocError, Global};
use wgsl_base::{Items, Queue};
use wgsl_declarations::{GlobalDirective, ImportStatement};
use wgsl_expressions::ExpressionNode;
use wgsl_lr_driver::{
    GlobalDeclarationNode, Part, Start, StatementNode, TranslationUnit, let_go, read,
};
use wgsl_simple_statements::DeclarationKind;
use wgsl_templates::SpannedTemplateToken;
use wgsl_templates::reading::lexer::lex_queue;
use wgsl_token::fault::Error;

/// The part that tokens of a text of this length stand for.
fn part_of(
    alloc: Global,
    start: Start,
    length: usize,
    tokens: Queue<SpannedTemplateToken>,
) -> Result<Part, Error>
    ensures { ParsesTokens start length tokens result }
{
    match read(alloc, start, tokens) {
        Ok(part) => Ok(part),
        Err(unread) => Err(error_of(length, unread)),
    }
}

/// The part that a text stands for.
fn parse(alloc: Global, start: Start, text: &str) -> Result<Part, Error>
    ensures { Parses start (λ x. x) text.now result }
{
    match lex_queue(alloc, text) {
        Ok(tokens) => part_of(alloc, start, text.len(), tokens),
        Err(AllocError) => Err(Error::out_of_memory()),
    }
}

/// The text as an expression.
pub fn parse_expression(alloc: Global, text: &str) -> Result<ExpressionNode, Error>
    ensures { Parses from.Expression as_part.Expression text.now result }
{
    match parse(alloc, Start::Expression, text) {
        Ok(part) => match expression(part) {
            Ok(tree) => Ok(tree),
            Err(refusal) => Err(Error::refused(refusal)),
        },
        Err(error) => Err(error),
    }
}

/// The text as a statement.
pub fn parse_statement(alloc: Global, text: &str) -> Result<StatementNode, Error>
    ensures { Parses from.Statement as_part.Statement text.now result }
{
    match parse(alloc, Start::Statement, text) {
        Ok(part) => match statement(part) {
            Ok(tree) => Ok(tree),
            Err(refusal) => Err(Error::refused(refusal)),
        },
        Err(error) => Err(error),
    }
}

/// The text as a declaration of a module.
pub fn parse_declaration(alloc: Global, text: &str) -> Result<GlobalDeclarationNode, Error>
    ensures { Parses from.Declaration as_part.Global text.now result }
{
    match parse(alloc, Start::Declaration, text) {
        Ok(part) => match declaration(part) {
            Ok(tree) => Ok(tree),
            Err(refusal) => Err(Error::refused(refusal)),
        },
        Err(error) => Err(error),
    }
}

/// The text as a directive.
pub fn parse_directive(alloc: Global, text: &str) -> Result<GlobalDirective, Error>
    ensures { Parses from.Directive as_part.Directive text.now result }
{
    match parse(alloc, Start::Directive, text) {
        Ok(part) => match directive(part) {
            Ok(tree) => Ok(tree),
            Err(refusal) => Err(Error::refused(refusal)),
        },
        Err(error) => Err(error),
    }
}

/// The text as an import.
pub fn parse_import(alloc: Global, text: &str) -> Result<ImportStatement, Error>
    ensures { Parses from.Import as_part.Import text.now result }
{
    match parse(alloc, Start::Import, text) {
        Ok(part) => match import(part) {
            Ok(tree) => Ok(tree),
            Err(refusal) => Err(Error::refused(refusal)),
        },
        Err(error) => Err(error),
    }
}

/// The text as a kind of declaration: `const`, `override`, `let`, or `var` with its template or without.
pub fn parse_declaration_kind(alloc: Global, text: &str) -> Result<DeclarationKind, Error>
    ensures { Parses from.Kind as_part.Kind text.now result }
{
    match parse(alloc, Start::Kind, text) {
        Ok(part) => match kind(part) {
            Ok(tree) => Ok(tree),
            Err(refusal) => Err(Error::refused(refusal)),
        },
        Err(error) => Err(error),
    }
}

#[tactic(auto, using(crate::proofs::Told::fault_said))]
fn module_of(
    alloc: Global,
    length: usize,
    tokens: Queue<SpannedTemplateToken>,
) -> Result<TranslationUnit, Error>
    ensures { TellsModule length tokens result }
{
    if tokens.is_empty() {
        return Ok(TranslationUnit {
            imports: Items::new(alloc),
            global_directives: Items::new(alloc),
            global_declarations: Items::new(alloc),
        });
    }
    match part_of(alloc, Start::Module, length, tokens) {
        Ok(part) => match module(part) {
            Ok(unit) => Ok(unit),
            Err(refusal) => Err(Error::refused(refusal)),
        },
        Err(error) => Err(error),
    }
}

/// The text as a module.
#[tactic(auto, using(crate::proofs::Told::module_said))]
pub fn parse_str(alloc: Global, text: &str) -> Result<TranslationUnit, Error>
    ensures { ParsesModule text.now result }
{
    match lex_queue(alloc, text) {
        Ok(tokens) => module_of(alloc, text.len(), tokens),
        Err(AllocError) => Err(Error::out_of_memory()),
    }
}

/// Whether a text is a module; if not, its fault. The tree is let go.
pub fn check_str(alloc: Global, text: &str) -> Result<(), Error>
    ensures module { OnOk result ((unit : TranslationUnit) × ParsesModule text.now (Ok unit)) }
    ensures fault { IfErr result (λ e. ParsesModule text.now (Err e)) }
{
    match parse_str(alloc, text) {
        Ok(unit) => {
            let_go(unit);
            Ok(())
        }
        Err(error) => Err(error),
    }
}
