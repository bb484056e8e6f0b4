//! Trees by the trait that reads them from texts.

ghost use Rattle.std.specs.Prelude.{ℕ, List, Result};

use crate::parse::{
    parse_declaration, parse_declaration_kind, parse_directive, parse_expression, parse_import,
    parse_statement, parse_str,
};
use std::alloc::Global;
use wgsl_declarations::{GlobalDirective, ImportStatement};
use wgsl_expressions::ExpressionNode;
use wgsl_lr_driver::{GlobalDeclarationNode, StatementNode, TranslationUnit};
use wgsl_simple_statements::DeclarationKind;
use wgsl_token::fault::Error;

/// A tree that texts are read as.
pub trait FromText: Drop {
    ghost use Rattle.wgsl_token.specs.declared.fault.error.Error.{Error};

    /// What an answer says of a text.
    ghost answers: { List ℕ → Result Self Error → Type 0 };

    /// The tree of a text, or its first fault.
    fn from_str(alloc: Global, text: &str) -> Result<Self, Error>
        ensures { answers text.now result };
}

impl FromText for TranslationUnit {
    ghost use Rattle.wgsl_parser.specs.Texts.{ParsesModule};

    ghost answers = { ParsesModule };

    fn from_str(alloc: Global, text: &str) -> Result<TranslationUnit, Error> {
        parse_str(alloc, text)
    }
}

impl FromText for ExpressionNode {
    ghost use Rattle.wgsl_lr_driver.specs.Part.TheVariants as as_part;
    ghost use Rattle.wgsl_lr_driver.specs.declared.driver.Start.TheVariants as from;
    ghost use Rattle.wgsl_parser.specs.Texts.{Parses};

    ghost answers = { Parses from.Expression as_part.Expression };

    fn from_str(alloc: Global, text: &str) -> Result<ExpressionNode, Error> {
        parse_expression(alloc, text)
    }
}

impl FromText for StatementNode {
    ghost use Rattle.wgsl_lr_driver.specs.Part.TheVariants as as_part;
    ghost use Rattle.wgsl_lr_driver.specs.declared.driver.Start.TheVariants as from;
    ghost use Rattle.wgsl_parser.specs.Texts.{Parses};

    ghost answers = { Parses from.Statement as_part.Statement };

    fn from_str(alloc: Global, text: &str) -> Result<StatementNode, Error> {
        parse_statement(alloc, text)
    }
}

impl FromText for GlobalDeclarationNode {
    ghost use Rattle.wgsl_lr_driver.specs.Part.TheVariants as as_part;
    ghost use Rattle.wgsl_lr_driver.specs.declared.driver.Start.TheVariants as from;
    ghost use Rattle.wgsl_parser.specs.Texts.{Parses};

    ghost answers = { Parses from.Declaration as_part.Global };

    fn from_str(alloc: Global, text: &str) -> Result<GlobalDeclarationNode, Error> {
        parse_declaration(alloc, text)
    }
}

impl FromText for GlobalDirective {
    ghost use Rattle.wgsl_lr_driver.specs.Part.TheVariants as as_part;
    ghost use Rattle.wgsl_lr_driver.specs.declared.driver.Start.TheVariants as from;
    ghost use Rattle.wgsl_parser.specs.Texts.{Parses};

    ghost answers = { Parses from.Directive as_part.Directive };

    fn from_str(alloc: Global, text: &str) -> Result<GlobalDirective, Error> {
        parse_directive(alloc, text)
    }
}

impl FromText for ImportStatement {
    ghost use Rattle.wgsl_lr_driver.specs.Part.TheVariants as as_part;
    ghost use Rattle.wgsl_lr_driver.specs.declared.driver.Start.TheVariants as from;
    ghost use Rattle.wgsl_parser.specs.Texts.{Parses};

    ghost answers = { Parses from.Import as_part.Import };

    fn from_str(alloc: Global, text: &str) -> Result<ImportStatement, Error> {
        parse_import(alloc, text)
    }
}

impl FromText for DeclarationKind {
    ghost use Rattle.wgsl_lr_driver.specs.Part.TheVariants as as_part;
    ghost use Rattle.wgsl_lr_driver.specs.declared.driver.Start.TheVariants as from;
    ghost use Rattle.wgsl_parser.specs.Texts.{Parses};

    ghost answers = { Parses from.Kind as_part.Kind };

    fn from_str(alloc: Global, text: &str) -> Result<DeclarationKind, Error> {
        parse_declaration_kind(alloc, text)
    }
}
