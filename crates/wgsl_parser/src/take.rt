//! The parts that whole texts stand for.

ghost use Rattle.std.specs.Prelude.{◌≡◌, IfOk};

use wgsl_declarations::{GlobalDirective, ImportStatement};
use wgsl_expressions::ExpressionNode;
use wgsl_lr_driver::take::misfit;
use wgsl_lr_driver::{GlobalDeclarationNode, Part, StatementNode, TranslationUnit};
use wgsl_simple_statements::DeclarationKind;
use wgsl_token::fault::Refusal;

pub(crate) fn expression(part: Part) -> Result<ExpressionNode, Refusal>
    ensures { IfOk result (λ x. part ≡ Part.Expression x) }
{
    match part {
        Part::Expression(x) => Ok(x),
        other => misfit(other),
    }
}

pub(crate) fn statement(part: Part) -> Result<StatementNode, Refusal>
    ensures { IfOk result (λ x. part ≡ Part.Statement x) }
{
    match part {
        Part::Statement(x) => Ok(x),
        other => misfit(other),
    }
}

pub(crate) fn declaration(part: Part) -> Result<GlobalDeclarationNode, Refusal>
    ensures { IfOk result (λ x. part ≡ Part.Global x) }
{
    match part {
        Part::Global(x) => Ok(x),
        other => misfit(other),
    }
}

pub(crate) fn directive(part: Part) -> Result<GlobalDirective, Refusal>
    ensures { IfOk result (λ x. part ≡ Part.Directive x) }
{
    match part {
        Part::Directive(x) => Ok(x.into_inner()),
        other => misfit(other),
    }
}

pub(crate) fn import(part: Part) -> Result<ImportStatement, Refusal>
    ensures { IfOk result (λ x. part ≡ Part.Import x) }
{
    match part {
        Part::Import(x) => Ok(x.into_inner()),
        other => misfit(other),
    }
}

pub(crate) fn module(part: Part) -> Result<TranslationUnit, Refusal>
    ensures { IfOk result (λ x. part ≡ Part.Module x) }
{
    match part {
        Part::Module(x) => Ok(x.into_inner()),
        other => misfit(other),
    }
}

pub(crate) fn kind(part: Part) -> Result<DeclarationKind, Refusal>
    ensures { IfOk result (λ x. part ≡ Part.Kind x) }
{
    match part {
        Part::Kind(x) => Ok(x),
        other => misfit(other),
    }
}
