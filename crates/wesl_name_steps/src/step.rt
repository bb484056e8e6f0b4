//! What stands at a place of a tree, in the order in which types come about: a type or a value behind its parts.

use wgsl_builtin_names::Choice;
use wgsl_words::{BinaryOperator, UnaryOperator};

/// What a name stands as.
#[derive(Clone, Copy)]
pub enum Role {
    Value,
    Type,
    /// It is called, with so many arguments.
    Callee(u32),
    /// An enumerant of this kind.
    Enumerant(Choice),
    /// A template argument of which nothing is known.
    Template,
}

/// What happens to the stack of types.
#[derive(Clone, Copy)]
pub enum ValueStep {
    /// A literal.
    Literal,
    /// A value or type that is not told.
    Unknown,
    Unary(UnaryOperator),
    Binary(BinaryOperator),
    /// An element: the type of its base stands below that of the index.
    Index,
    /// A member of this name, or components.
    Select(u32),
    /// A value that is assigned stands above its place, by an operator or as it is. Neither is left.
    Assign(Option<BinaryOperator>),
    /// A value that is returned. It is not left.
    Return,
    /// A value that is a scalar. It is not left.
    Scalar,
    /// A name with its template arguments, and with the arguments of a call, where it is called. They stand on the stack, in order.
    Apply {
        name: u32,
        templates: u32,
        arguments: Option<u32>,
    },
}

/// What is declared of the types on the stack.
#[derive(Clone, Copy)]
pub enum DeclareStep {
    /// A local declaration. Its type, and behind it that of its value, are on the stack, where they are written.
    Local {
        name: u32,
        has_type: bool,
        has_value: bool,
    },
    /// The type of the parameter of this number.
    ParameterType(u32),
    /// The parameter of this number, whose type was declared.
    Parameter {
        name: u32,
        number: u32,
    },
    /// The value of the place, as `Local`.
    Variable {
        has_type: bool,
        has_value: bool,
    },
    /// The place is an alias of the last type, or returns it.
    Place,
    /// The member of this number of the structure that the place is.
    Member {
        name: u32,
        number: u32,
    },
}

/// A step. Names are numbers of the list that it stands in.
#[derive(Clone, Copy)]
pub enum Step {
    /// A scope starts.
    Enter,
    /// The innermost scope ends.
    Leave,
    /// The stack is no longer needed.
    Clear,
    /// A name is used. It stands in front of its template arguments and arguments.
    Mention {
        name: u32,
        role: Role,
        is_templated: bool,
    },
    Value(ValueStep),
    Declare(DeclareStep),
    /// An attribute that the parser does not know.
    Attribute(u32),
    /// What `enable` names.
    Extension(u32),
    /// What `requires` names.
    Feature(u32),
}
