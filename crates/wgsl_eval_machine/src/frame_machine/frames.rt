//! What is left to do.

use wgsl_base::Stack;
use wgsl_declarations::FormalParameter;
use wgsl_expressions::{
    BinaryOperator, ExpressionNode, FunctionCall, TemplateArg, TypeExpression, UnaryOperator,
};
use wgsl_simple_statements::Declaration;
use wgsl_words::ShaderStage;

/// A list of what is left to do, the next uppermost.
pub type Frames<'s> = Stack<Frame<'s>>;

/// One thing that is left to do.
#[derive(Clone, Copy, Drop)]
pub enum Frame<'s> {
    Value(ValueFrame<'s>),
    Type(TypeFrame<'s>),
    Written(WrittenFrame<'s>),
    Declaration(DeclarationFrame<'s>),
    Call(CallFrame<'s>),
    /// The machine goes on at this stage.
    Stage(ShaderStage),
    /// The last level of names ends, and with it the cells of its variables.
    Leave,
    /// The body of a function is begun, by the number of its declaration.
    Enter(usize),
    /// The body of a function is executed. Below it stands what is done with its answer.
    Body,
}

/// Of values. An operand is a value, or a reference to one.
#[derive(Clone, Copy, Drop)]
pub enum ValueFrame<'s> {
    /// The operand of an expression.
    Node(&'s ExpressionNode),
    /// The uppermost operand is loaded.
    Load,
    /// An operator, on the uppermost operand.
    Unary(UnaryOperator),
    /// `*`, on the uppermost operand.
    Indirection,
    /// `&`, on the uppermost operand.
    AddressOf,
    /// The right side of `&&` or `||`, where the uppermost operand leaves it to that.
    Right(BinaryOperator, &'s ExpressionNode),
    /// The uppermost operand is the answer of `&&` or `||`.
    Truth(BinaryOperator),
    /// An operator, on the two uppermost operands.
    Binary(BinaryOperator),
    /// The part of the operand below the uppermost at the uppermost.
    Index,
    /// The part of the uppermost operand of this name.
    Member(&'s str),
}

/// Of the types of expressions.
#[derive(Clone, Copy, Drop)]
pub enum TypeFrame<'s> {
    /// The type of an expression, which is a reference where its operand is.
    Node(&'s ExpressionNode),
    /// The uppermost type, without the reference.
    Load,
    Unary(UnaryOperator),
    Indirection,
    AddressOf,
    Binary(BinaryOperator),
    Index,
    Member(&'s str),
    /// The type of a const whose value is known by now, by the number of its declaration.
    Found(usize),
    /// The uppermost type is that of a variable.
    Variable(&'s Declaration),
    /// The type of a declaration by its initializer's.
    Untyped(&'s Declaration),
}

/// Of written types, template arguments and attributes.
#[derive(Clone, Copy, Drop)]
pub enum WrittenFrame<'s> {
    /// A type, with the names that are in scope.
    Type(&'s TypeExpression),
    /// A type, with the names of the module alone.
    InModule(&'s TypeExpression),
    /// The built-in type of a name, whose template arguments are done.
    Builtin(&'s TypeExpression),
    Argument(&'s TemplateArg),
    /// The uppermost type is a template argument.
    TypeArgument,
    /// The uppermost operand is a template argument.
    ValueArgument,
    /// What a name stands for takes no template arguments.
    Refused(&'s str),
    /// The structure of this number, whose members' types and numbers are done, with the steps that were left before.
    Struct(usize, u64),
    /// The uppermost operand is the number of an attribute.
    Number,
}

/// What is refused where a value doesn't convert.
#[derive(Clone, Copy, Drop)]
pub enum ConversionPlace<'s> {
    /// An initializer or a selector.
    Initializer,
    /// A parameter.
    Parameter,
    /// What a function of this name returns.
    Return(&'s str),
}

/// Of the module's declarations.
#[derive(Clone, Copy, Drop)]
pub enum DeclarationFrame<'s> {
    /// The declarations of an order from this position on.
    Order(usize),
    /// The value of a declaration, or its assertion, if it isn't known yet.
    Start(usize),
    /// The known value of a declaration is an operand.
    Push(usize),
    /// The declared type of a value.
    Type(&'s Declaration),
    /// The value of a declaration whose type is the uppermost.
    Initial(usize),
    /// The uppermost operand becomes one of the uppermost type, which is taken off.
    Convert(ConversionPlace<'s>),
    /// The uppermost operand is the value of a declaration.
    Store(usize),
    /// The uppermost operand is stored in a new cell: that of a variable of this number.
    Variable(usize),
    /// The group and the binding of a variable of this number are done.
    Resource(usize),
    /// The uppermost operand has to be true.
    Assert,
    /// A declaration is done, and the machine goes on at this stage.
    Close(ShaderStage),
}

/// Of calls.
#[derive(Clone, Copy, Drop)]
pub enum CallFrame<'s> {
    /// A call. Its answer is an operand, which may be no value.
    Call(&'s FunctionCall),
    /// A call whose template arguments and arguments are done.
    Apply(&'s FunctionCall),
    /// The uppermost operand, the answer of a call, has to be a value.
    Valued(&'s FunctionCall),
    /// The uppermost operand, the answer of a call, is let go.
    Discard,
    /// The type of a call.
    Typed(&'s FunctionCall),
    /// The type of a call, whose template arguments and types of arguments are done.
    TypedApply(&'s FunctionCall),
    /// The structure of the uppermost type is built of so many operands.
    Build(usize),
    /// The uppermost type is that of a result, and has to be constructible.
    Result,
    /// The uppermost operand is the value of a parameter.
    Bind(&'s str),
    /// The input of an entry point's parameter, whose type is the uppermost.
    Input(&'s FormalParameter),
    /// The input at the location that is done.
    Located(&'s FormalParameter),
    /// The body of a function of this number is done.
    Return(usize),
}
