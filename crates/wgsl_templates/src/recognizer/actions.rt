//! What a token does where the reader stands.

ghost use Rattle.std.specs.Prelude.{◌≡◌};
ghost use Rattle.wgsl_templates.specs.Actions as actions;

use crate::meaning::Kind;
use crate::recognizer::place::{Action, Enclosing, Place, Progress, Relation, State};

/// At the beginning of an expression.
pub fn fresh() -> Progress
    ensures { result ≡ actions.fresh }
{
    Progress::Unary(Relation {
        logical: None,
        compared: false,
    })
}

/// What a token does, within such a bracket.
pub fn action(state: State, enclosing: Enclosing, kind: Kind) -> Action
    ensures { result ≡ actions.action state enclosing kind }
{
    let State { place, progress } = state;
    match place {
        Place::Operand => operand(kind),
        Place::OperandOrEnd => operand_or_end(enclosing, kind),
        Place::Name => after_name(progress, enclosing, kind),
        Place::Templated => after_template(progress, enclosing, kind),
        Place::Complete => after_operand(progress, enclosing, kind),
        Place::PackageSeparator
        | Place::SuperSeparator
        | Place::SuperOrWord
        | Place::Word
        | Place::Member => within_operand(place, kind),
    }
}

/// Where an operand is wanted.
fn operand(kind: Kind) -> Action
    ensures { result ≡ actions.operand kind }
{
    match kind {
        Kind::Literal => Action::Goes(Place::Complete),
        Kind::Word => Action::Goes(Place::Name),
        Kind::Package => Action::Goes(Place::PackageSeparator),
        Kind::Super => Action::Goes(Place::SuperSeparator),
        Kind::ParenLeft => Action::Opens(Enclosing::Parentheses),
        Kind::Minus | Kind::Not | Kind::Star | Kind::And => Action::Goes(Place::Operand),
        _ => Action::Fails,
    }
}

fn operand_or_end(enclosing: Enclosing, kind: Kind) -> Action
    ensures { result ≡ actions.operand_or_end enclosing kind }
{
    match kind {
        Kind::TemplateArgsEnd | Kind::ParenRight => end(enclosing, kind),
        _ => operand(kind),
    }
}

/// What closes a bracket where no expression has begun.
fn end(enclosing: Enclosing, kind: Kind) -> Action
    ensures { result ≡ actions.end enclosing kind }
{
    match (kind, enclosing) {
        (Kind::TemplateArgsEnd, Enclosing::List) => Action::Closes,
        (Kind::ParenRight, Enclosing::Arguments) => Action::Closes,
        _ => Action::Fails,
    }
}

/// Within a name, and behind `.`.
fn within_operand(place: Place, kind: Kind) -> Action
    ensures { result ≡ actions.within_operand place kind }
{
    match (place, kind) {
        (Place::PackageSeparator, Kind::PathSeparator) => Action::Goes(Place::Word),
        (Place::SuperSeparator, Kind::PathSeparator) => Action::Goes(Place::SuperOrWord),
        (Place::SuperOrWord, Kind::Super) => Action::Goes(Place::SuperSeparator),
        (Place::SuperOrWord, Kind::Word) => Action::Goes(Place::Name),
        (Place::Word, Kind::Word) => Action::Goes(Place::Name),
        (Place::Member, Kind::Word) => Action::Goes(Place::Complete),
        _ => Action::Fails,
    }
}

fn after_name(progress: Progress, enclosing: Enclosing, kind: Kind) -> Action
    ensures { result ≡ actions.after_name progress enclosing kind }
{
    match kind {
        Kind::PathSeparator => Action::Goes(Place::Word),
        Kind::TemplateArgsStart => Action::Opens(Enclosing::List),
        _ => after_template(progress, enclosing, kind),
    }
}

fn after_template(progress: Progress, enclosing: Enclosing, kind: Kind) -> Action
    ensures { result ≡ actions.after_template progress enclosing kind }
{
    match kind {
        Kind::ParenLeft => Action::Opens(Enclosing::Arguments),
        _ => after_operand(progress, enclosing, kind),
    }
}

fn after_operand(progress: Progress, enclosing: Enclosing, kind: Kind) -> Action
    ensures { result ≡ actions.after_operand progress enclosing kind }
{
    match kind {
        Kind::Period => Action::Goes(Place::Member),
        Kind::BracketLeft => Action::Opens(Enclosing::Index),
        Kind::Comma | Kind::TemplateArgsEnd | Kind::ParenRight | Kind::BracketRight =>
            after_expression(enclosing, kind),
        Kind::AndAnd | Kind::OrOr => logical(progress, enclosing, kind),
        _ => operator(progress, kind),
    }
}

/// Behind a whole expression.
fn after_expression(enclosing: Enclosing, kind: Kind) -> Action
    ensures { result ≡ actions.after_expression enclosing kind }
{
    match (enclosing, kind) {
        (Enclosing::List, Kind::Comma) => Action::Separates,
        (Enclosing::List, Kind::TemplateArgsEnd) => Action::Closes,
        (Enclosing::Arguments, Kind::Comma) => Action::Separates,
        (Enclosing::Arguments, Kind::ParenRight) => Action::Closes,
        (Enclosing::Parentheses, Kind::ParenRight) => Action::Closes,
        (Enclosing::Index, Kind::BracketRight) => Action::Closes,
        _ => Action::Fails,
    }
}

/// An operator that is neither `&&` nor `||`.
fn operator(progress: Progress, kind: Kind) -> Action
    ensures { result ≡ actions.operator progress kind }
{
    match progress {
        Progress::Unary(relation) => unary_operator(relation, kind),
        Progress::Sum(relation) => sum_operator(relation, kind),
        Progress::Shifted(relation) => shift_operator(relation, kind),
        Progress::Bitwise(before) => bitwise_operator(before, kind),
    }
}

/// Behind one unary expression.
fn unary_operator(relation: Relation, kind: Kind) -> Action
    ensures { result ≡ actions.unary_operator relation kind }
{
    match kind {
        Kind::Shift => Action::Operates(Progress::Shifted(relation)),
        Kind::And | Kind::Or | Kind::Xor => first_bitwise(relation, kind),
        _ => sum_operator(relation, kind),
    }
}

/// A bitwise operator behind the first operand of an expression.
fn first_bitwise(relation: Relation, kind: Kind) -> Action
    ensures { result ≡ actions.first_bitwise relation kind }
{
    match relation {
        Relation {
            logical: None,
            compared: false,
        } => Action::Operates(Progress::Bitwise(kind)),
        _ => Action::Fails,
    }
}

/// Behind a sum.
fn sum_operator(relation: Relation, kind: Kind) -> Action
    ensures { result ≡ actions.sum_operator relation kind }
{
    match kind {
        Kind::Star | Kind::Division | Kind::Plus | Kind::Minus => {
            Action::Operates(Progress::Sum(relation))
        }
        _ => shift_operator(relation, kind),
    }
}

/// Behind a shift.
fn shift_operator(relation: Relation, kind: Kind) -> Action
    ensures { result ≡ actions.shift_operator relation kind }
{
    match kind {
        Kind::Comparison => comparison(relation),
        _ => Action::Fails,
    }
}

fn comparison(relation: Relation) -> Action
    ensures { result ≡ actions.comparison relation }
{
    let Relation { logical, compared } = relation;
    if compared {
        return Action::Fails;
    }
    Action::Operates(Progress::Unary(Relation {
        logical,
        compared: true,
    }))
}

/// Behind a bitwise expression with an operator.
fn bitwise_operator(before: Kind, kind: Kind) -> Action
    ensures { result ≡ actions.bitwise_operator before kind }
{
    if same_operator(before, kind) {
        return Action::Operates(Progress::Bitwise(before));
    }
    Action::Fails
}

/// `&&` or `||`.
fn logical(progress: Progress, enclosing: Enclosing, kind: Kind) -> Action
    ensures { result ≡ actions.logical progress enclosing kind }
{
    match enclosing {
        Enclosing::List => Action::Fails,
        _ => match progress {
            Progress::Unary(relation) | Progress::Sum(relation) | Progress::Shifted(relation) => {
                joined(relation.logical, kind)
            }
            Progress::Bitwise(_) => Action::Fails,
        },
    }
}

/// `&&` or `||` behind a relational expression.
fn joined(before: Option<Kind>, kind: Kind) -> Action
    ensures { result ≡ actions.joined before kind }
{
    if goes_on(before, kind) {
        return Action::Operates(Progress::Unary(Relation {
            logical: Some(kind),
            compared: false,
        }));
    }
    Action::Fails
}

/// Whether no other operator stands before.
fn goes_on(before: Option<Kind>, kind: Kind) -> bool
    ensures { result ≡ actions.goes_on before kind }
{
    match before {
        None => true,
        Some(before) => same_operator(before, kind),
    }
}

fn same_operator(before: Kind, kind: Kind) -> bool
    ensures { result ≡ actions.same_operator before kind }
{
    matches!(
        (before, kind),
        (Kind::And, Kind::And)
            | (Kind::Or, Kind::Or)
            | (Kind::Xor, Kind::Xor)
            | (Kind::AndAnd, Kind::AndAnd)
            | (Kind::OrOr, Kind::OrOr)
    )
}
