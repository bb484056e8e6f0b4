//! Where a reader of expressions stands.

use crate::meaning::Kind;
use crate::recognizer::recognize::Answer;

/// What may stand next.
#[derive(Clone, Copy)]
pub enum Place {
    /// An operand.
    Operand,
    /// An operand, or what closes the bracket: behind the `(` of a call, and behind a comma.
    OperandOrEnd,
    /// `::` behind `package`.
    PackageSeparator,
    /// `::` behind `super`.
    SuperSeparator,
    /// `super` or an identifier behind `super::`.
    SuperOrWord,
    /// An identifier of a name.
    Word,
    /// An identifier behind `.`.
    Member,
    /// What follows a name.
    Name,
    /// What follows a name with a template list.
    Templated,
    /// What follows another operand.
    Complete,
}

/// What stands before a shift expression: a logical operator, or a comparison too.
#[derive(Clone, Copy)]
pub struct Relation {
    /// `&&` or `||` before it.
    pub logical: Option<Kind>,
    /// A comparison behind that.
    pub compared: bool,
}

/// What was read of an expression, with the operand that is being read.
#[derive(Clone, Copy)]
pub enum Progress {
    /// One unary expression.
    Unary(Relation),
    /// A sum or a product.
    Sum(Relation),
    /// A shift.
    Shifted(Relation),
    /// A bitwise expression with this operator.
    Bitwise(Kind),
}

/// What closes the brackets that are open.
#[derive(Clone, Copy)]
pub enum Enclosing {
    /// A template list.
    List,
    /// The arguments of a call.
    Arguments,
    /// Parentheses.
    Parentheses,
    /// An index.
    Index,
}

/// An open bracket and the expression that it stands in.
#[derive(Clone, Copy)]
pub struct Frame {
    pub enclosing: Enclosing,
    pub outer: Progress,
}

/// Where the reader stands within the last open bracket.
#[derive(Clone, Copy)]
pub struct State {
    pub place: Place,
    pub progress: Progress,
}

/// What a token does.
#[derive(Clone, Copy)]
pub enum Action {
    /// It goes on with the operand.
    Goes(Place),
    /// It is an operator between two operands.
    Operates(Progress),
    /// It opens a bracket.
    Opens(Enclosing),
    /// It is a comma between two expressions.
    Separates,
    /// It closes the last open bracket.
    Closes,
    /// It can't stand here.
    Fails,
}

/// What came of a token.
#[derive(Clone, Copy)]
pub(crate) enum Outcome {
    /// The reader goes on.
    Reads(State),
    /// The answer is known.
    Ends(Answer),
}
