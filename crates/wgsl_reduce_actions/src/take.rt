//! Parts that only attributes, statements, imports and declarations have.

ghost use Rattle.std.specs.Prelude.{◌≡◌, ◌∷◌, IfOk};
ghost use Rattle.wgsl_semantic_values.specs.Reading.{TakesAs};
ghost use Rattle.wgsl_reduce_actions.specs.Reading.{arguments_in, statement_in, else_in, continuing_in, break_if_in, statements_of, else_ifs_of, path_in, names_of, parameters_of, imports_of, directives_of, globals_of, return_attributes_of, return_type_in};

use std::alloc::Global;
use wgsl_base::{Boxed, Items, Text};
use wgsl_declarations::{GlobalDirective, Import, ImportContent, ImportStatement};
use wgsl_expressions::{Attributes, ExpressionNode, TypeExpression};
use wgsl_nodes::{FormalParameter, GlobalDeclarationNode, StructMemberNode};
use wgsl_path::ModulePath;
use wgsl_semantic_values::take::unfit;
use wgsl_semantic_values::{FunctionResult, Held, Part, Stack, next};
use wgsl_simple_statements::{BreakIfStatement, CaseSelector};
use wgsl_statements::{
    ContinuingStatement, ElseClause, ElseIfClause, Statement, StatementNode, SwitchClause,
};
use wgsl_token::fault::Refusal;

pub(crate) fn word(parts: &mut Stack<Held>) -> Result<Text, Refusal>
    ensures { IfOk result (λ x. parts.old ≡ Part.Word x ∷ parts.new) }
{
    match next(parts) {
        Some(Part::Word(x)) => Ok(x),
        other => unfit(other),
    }
}

pub(crate) fn reserved(parts: &mut Stack<Held>) -> Result<Text, Refusal>
    ensures { IfOk result (λ x. parts.old ≡ Part.Reserved x ∷ parts.new) }
{
    match next(parts) {
        Some(Part::Reserved(x)) => Ok(x),
        other => unfit(other),
    }
}

pub(crate) fn list(parts: &mut Stack<Held>) -> Result<Items<ExpressionNode>, Refusal>
    ensures { IfOk result (λ x. parts.old ≡ Part.Expressions x ∷ parts.new) }
{
    match next(parts) {
        Some(Part::Expressions(x)) => Ok(x),
        other => unfit(other),
    }
}

/// It may be absent.
pub(crate) fn arguments(parts: &mut Stack<Held>) -> Result<Option<Items<ExpressionNode>>, Refusal>
    ensures { IfOk result (λ x. TakesAs arguments_in parts.old x parts.new) }
{
    match next(parts) {
        Some(Part::Absent) => Ok(None),
        Some(Part::Arguments(x)) => Ok(Some(x)),
        other => unfit(other),
    }
}

pub(crate) fn directive(parts: &mut Stack<Held>) -> Result<Boxed<GlobalDirective>, Refusal>
    ensures { IfOk result (λ x. parts.old ≡ Part.Directive x ∷ parts.new) }
{
    match next(parts) {
        Some(Part::Directive(x)) => Ok(x),
        other => unfit(other),
    }
}

pub(crate) fn plain(parts: &mut Stack<Held>) -> Result<Boxed<Statement>, Refusal>
    ensures { IfOk result (λ x. parts.old ≡ Part.Plain x ∷ parts.new) }
{
    match next(parts) {
        Some(Part::Plain(x)) => Ok(x),
        other => unfit(other),
    }
}

pub(crate) fn clauses(parts: &mut Stack<Held>) -> Result<Items<SwitchClause>, Refusal>
    ensures { IfOk result (λ x. parts.old ≡ Part.Clauses x ∷ parts.new) }
{
    match next(parts) {
        Some(Part::Clauses(x)) => Ok(x),
        other => unfit(other),
    }
}

pub(crate) fn selectors(parts: &mut Stack<Held>) -> Result<Items<CaseSelector>, Refusal>
    ensures { IfOk result (λ x. parts.old ≡ Part.Selectors x ∷ parts.new) }
{
    match next(parts) {
        Some(Part::Selectors(x)) => Ok(x),
        other => unfit(other),
    }
}

/// It may be absent.
pub(crate) fn statement(parts: &mut Stack<Held>) -> Result<Option<StatementNode>, Refusal>
    ensures { IfOk result (λ x. TakesAs statement_in parts.old x parts.new) }
{
    match next(parts) {
        Some(Part::Absent) => Ok(None),
        Some(Part::Statement(x)) => Ok(Some(x)),
        other => unfit(other),
    }
}

/// It may be absent.
pub(crate) fn otherwise(parts: &mut Stack<Held>) -> Result<Option<ElseClause>, Refusal>
    ensures { IfOk result (λ x. TakesAs else_in parts.old x parts.new) }
{
    match next(parts) {
        Some(Part::Absent) => Ok(None),
        Some(Part::Block(x)) => Ok(Some(ElseClause { body: x })),
        other => unfit(other),
    }
}

/// It may be absent.
pub(crate) fn continuing(parts: &mut Stack<Held>) -> Result<Option<ContinuingStatement>, Refusal>
    ensures { IfOk result (λ x. TakesAs continuing_in parts.old x parts.new) }
{
    match next(parts) {
        Some(Part::Absent) => Ok(None),
        Some(Part::Continuing(x)) => Ok(Some(x.into_inner())),
        other => unfit(other),
    }
}

/// It may be absent.
pub(crate) fn break_if(parts: &mut Stack<Held>) -> Result<Option<BreakIfStatement>, Refusal>
    ensures { IfOk result (λ x. TakesAs break_if_in parts.old x parts.new) }
{
    match next(parts) {
        Some(Part::Absent) => Ok(None),
        Some(Part::BreakIf(x)) => Ok(Some(x)),
        other => unfit(other),
    }
}

/// It may be absent.
pub(crate) fn statements(
    alloc: Global,
    parts: &mut Stack<Held>,
) -> Result<Items<StatementNode>, Refusal>
    ensures { IfOk result (λ xs. TakesAs statements_of parts.old xs parts.new) }
{
    match next(parts) {
        Some(Part::Absent) => Ok(Items::new(alloc)),
        Some(Part::Statements(xs)) => Ok(xs),
        other => unfit(other),
    }
}

/// It may be absent.
pub(crate) fn else_ifs(
    alloc: Global,
    parts: &mut Stack<Held>,
) -> Result<Items<ElseIfClause>, Refusal>
    ensures { IfOk result (λ xs. TakesAs else_ifs_of parts.old xs parts.new) }
{
    match next(parts) {
        Some(Part::Absent) => Ok(Items::new(alloc)),
        Some(Part::ElseIfs(xs)) => Ok(xs),
        other => unfit(other),
    }
}

pub(crate) fn source(parts: &mut Stack<Held>) -> Result<ModulePath, Refusal>
    ensures { IfOk result (λ x. parts.old ≡ Part.ModulePath x ∷ parts.new) }
{
    match next(parts) {
        Some(Part::ModulePath(x)) => Ok(x),
        other => unfit(other),
    }
}

pub(crate) fn text(parts: &mut Stack<Held>) -> Result<Text, Refusal>
    ensures { IfOk result (λ x. parts.old ≡ Part.Text x ∷ parts.new) }
{
    match next(parts) {
        Some(Part::Text(x)) => Ok(x),
        other => unfit(other),
    }
}

pub(crate) fn texts(parts: &mut Stack<Held>) -> Result<Items<Text>, Refusal>
    ensures { IfOk result (λ x. parts.old ≡ Part.Texts x ∷ parts.new) }
{
    match next(parts) {
        Some(Part::Texts(x)) => Ok(x),
        other => unfit(other),
    }
}

pub(crate) fn content(parts: &mut Stack<Held>) -> Result<ImportContent, Refusal>
    ensures { IfOk result (λ x. parts.old ≡ Part.Content x ∷ parts.new) }
{
    match next(parts) {
        Some(Part::Content(x)) => Ok(x.into_inner()),
        other => unfit(other),
    }
}

pub(crate) fn trees(parts: &mut Stack<Held>) -> Result<Items<Import>, Refusal>
    ensures { IfOk result (λ x. parts.old ≡ Part.Trees x ∷ parts.new) }
{
    match next(parts) {
        Some(Part::Trees(x)) => Ok(x),
        other => unfit(other),
    }
}

/// It may be absent.
pub(crate) fn path(
    alloc: Global,
    parts: &mut Stack<Held>,
) -> Result<Option<Boxed<ModulePath>>, Refusal>
    ensures { IfOk result (λ x. TakesAs path_in parts.old x parts.new) }
{
    match next(parts) {
        Some(Part::Absent) => Ok(None),
        Some(Part::ModulePath(x)) => Ok(Some(Boxed::new(alloc, x)?)),
        other => unfit(other),
    }
}

/// It may be absent.
pub(crate) fn names(alloc: Global, parts: &mut Stack<Held>) -> Result<Items<Text>, Refusal>
    ensures { IfOk result (λ xs. TakesAs names_of parts.old xs parts.new) }
{
    match next(parts) {
        Some(Part::Absent) => Ok(Items::new(alloc)),
        Some(Part::Texts(xs)) => Ok(xs),
        other => unfit(other),
    }
}

pub(crate) fn members(parts: &mut Stack<Held>) -> Result<Items<StructMemberNode>, Refusal>
    ensures { IfOk result (λ x. parts.old ≡ Part.Members x ∷ parts.new) }
{
    match next(parts) {
        Some(Part::Members(x)) => Ok(x),
        other => unfit(other),
    }
}

/// It may be absent.
pub(crate) fn parameters(
    alloc: Global,
    parts: &mut Stack<Held>,
) -> Result<Items<FormalParameter>, Refusal>
    ensures { IfOk result (λ xs. TakesAs parameters_of parts.old xs parts.new) }
{
    match next(parts) {
        Some(Part::Absent) => Ok(Items::new(alloc)),
        Some(Part::Parameters(xs)) => Ok(xs),
        other => unfit(other),
    }
}

/// It may be absent.
pub(crate) fn imports(
    alloc: Global,
    parts: &mut Stack<Held>,
) -> Result<Items<ImportStatement>, Refusal>
    ensures { IfOk result (λ xs. TakesAs imports_of parts.old xs parts.new) }
{
    match next(parts) {
        Some(Part::Absent) => Ok(Items::new(alloc)),
        Some(Part::Imports(xs)) => Ok(xs),
        other => unfit(other),
    }
}

/// It may be absent.
pub(crate) fn directives(
    alloc: Global,
    parts: &mut Stack<Held>,
) -> Result<Items<GlobalDirective>, Refusal>
    ensures { IfOk result (λ xs. TakesAs directives_of parts.old xs parts.new) }
{
    match next(parts) {
        Some(Part::Absent) => Ok(Items::new(alloc)),
        Some(Part::Directives(xs)) => Ok(xs),
        other => unfit(other),
    }
}

/// It may be absent.
pub(crate) fn globals(
    alloc: Global,
    parts: &mut Stack<Held>,
) -> Result<Items<GlobalDeclarationNode>, Refusal>
    ensures { IfOk result (λ xs. TakesAs globals_of parts.old xs parts.new) }
{
    match next(parts) {
        Some(Part::Absent) => Ok(Items::new(alloc)),
        Some(Part::Globals(xs)) => Ok(xs),
        other => unfit(other),
    }
}

/// The attributes and the type of a function's result, which may be absent.
pub(crate) fn returned(
    alloc: Global,
    parts: &mut Stack<Held>,
) -> Result<(Attributes, Option<TypeExpression>), Refusal>
    ensures { IfOk result (λ found. (part : _) × (parts.old ≡ part ∷ parts.new) × (found.0 ≡ return_attributes_of part) × (found.1 ≡ return_type_in part)) }
{
    match next(parts) {
        Some(Part::Absent) => Ok((Items::new(alloc), None)),
        Some(Part::Result(x)) => {
            let FunctionResult { attributes, ty } = x.into_inner();
            Ok((attributes, Some(ty)))
        }
        other => unfit(other),
    }
}
