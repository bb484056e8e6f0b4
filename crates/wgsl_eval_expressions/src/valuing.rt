//! Values of expressions.

use crate::names::name;
use wgsl_eval_machine::Stop;
use wgsl_eval_names::Directory;
use wgsl_eval_operands::{
    CallFrame, Frame, Frames, Machine, ValueFrame, address_of, binary, decided, index, indirection,
    member, truth_of, unary,
};
use wgsl_expressions::{
    BinaryExpression, BinaryOperator, Expression, ExpressionNode, FunctionCall, IndexingExpression,
    LiteralExpression, NamedComponentExpression, UnaryExpression, UnaryOperator,
};
use wgsl_shader_type::LiteralInstance;

fn first<'s>(frames: &mut Frames<'s>, node: &'s ExpressionNode) -> Result<(), Stop> {
    Ok(frames.push(Frame::Value(ValueFrame::Node(node)))?)
}

fn then<'s>(frames: &mut Frames<'s>, frame: ValueFrame<'s>) -> Result<(), Stop> {
    Ok(frames.push(Frame::Value(frame))?)
}

/// An expression's value comes next.
pub fn loaded_first<'s>(frames: &mut Frames<'s>, node: &'s ExpressionNode) -> Result<(), Stop> {
    frames.push(Frame::Value(ValueFrame::Load))?;
    frames.push(Frame::Value(ValueFrame::Node(node)))?;
    Ok(())
}

fn literal(machine: &mut Machine, x: &LiteralExpression) -> Result<(), Stop> {
    match x {
        LiteralExpression::Bool(b) => machine.push_literal(LiteralInstance::Bool(*b)),
        LiteralExpression::AbstractInt(z) => machine.push_literal(LiteralInstance::AbstractInt(*z)),
        LiteralExpression::I32(z) => machine.push_literal(LiteralInstance::I32(*z)),
        LiteralExpression::U32(n) => machine.push_literal(LiteralInstance::U32(*n)),
        LiteralExpression::AbstractFloat(_) => machine.refuse_todo("AbstractFloat"),
        LiteralExpression::F32(_) => machine.refuse_todo("f32"),
        LiteralExpression::F16(_) => machine.refuse_todo("f16"),
    }
}

fn push_unary<'s>(frames: &mut Frames<'s>, x: &'s UnaryExpression) -> Result<(), Stop> {
    match x.operator {
        UnaryOperator::AddressOf => {
            then(frames, ValueFrame::AddressOf)?;
            first(frames, &x.operand)
        }
        UnaryOperator::Indirection => {
            then(frames, ValueFrame::Indirection)?;
            loaded_first(frames, &x.operand)
        }
        operator => {
            then(frames, ValueFrame::Unary(operator))?;
            loaded_first(frames, &x.operand)
        }
    }
}

fn push_binary<'s>(frames: &mut Frames<'s>, x: &'s BinaryExpression) -> Result<(), Stop> {
    match x.operator {
        BinaryOperator::ShortCircuitAnd | BinaryOperator::ShortCircuitOr => {
            then(frames, ValueFrame::Right(x.operator, &x.right))?;
        }
        operator => {
            then(frames, ValueFrame::Binary(operator))?;
            loaded_first(frames, &x.right)?;
        }
    }
    loaded_first(frames, &x.left)
}

fn push_indexing<'s>(frames: &mut Frames<'s>, x: &'s IndexingExpression) -> Result<(), Stop> {
    then(frames, ValueFrame::Index)?;
    loaded_first(frames, &x.index)?;
    first(frames, &x.base)
}

fn push_member<'s>(frames: &mut Frames<'s>, x: &'s NamedComponentExpression) -> Result<(), Stop> {
    then(frames, ValueFrame::Member(x.component.name()))?;
    first(frames, &x.base)
}

fn push_call<'s>(frames: &mut Frames<'s>, x: &'s FunctionCall) -> Result<(), Stop> {
    frames.push(Frame::Call(CallFrame::Valued(x)))?;
    frames.push(Frame::Call(CallFrame::Call(x)))?;
    Ok(())
}

fn node<'s>(
    directory: &Directory<'s>,
    machine: &mut Machine,
    frames: &mut Frames<'s>,
    node: &'s ExpressionNode,
) -> Result<(), Stop> {
    match node.node() {
        Expression::Literal(x) => literal(machine, x),
        Expression::Parenthesized(x) => first(frames, &x.expression),
        Expression::Unary(x) => push_unary(frames, x),
        Expression::Binary(x) => push_binary(frames, x),
        Expression::Indexing(x) => push_indexing(frames, x),
        Expression::NamedComponent(x) => push_member(frames, x),
        Expression::FunctionCall(x) => push_call(frames, x.get()),
        Expression::TypeOrIdentifier(x) => name(directory, machine, frames, x),
    }
}

fn right<'s>(
    machine: &mut Machine,
    frames: &mut Frames<'s>,
    operator: BinaryOperator,
    right: &'s ExpressionNode,
) -> Result<(), Stop> {
    if decided(machine, operator)? {
        return Ok(());
    }
    then(frames, ValueFrame::Truth(operator))?;
    loaded_first(frames, right)
}

/// What a frame of values does.
pub fn step_value<'s>(
    directory: &Directory<'s>,
    machine: &mut Machine,
    frames: &mut Frames<'s>,
    frame: ValueFrame<'s>,
) -> Result<(), Stop> {
    match frame {
        ValueFrame::Node(x) => node(directory, machine, frames, x),
        ValueFrame::Load => machine.load(),
        ValueFrame::Unary(operator) => unary(machine, operator),
        ValueFrame::Indirection => indirection(machine),
        ValueFrame::AddressOf => address_of(machine),
        ValueFrame::Right(operator, x) => right(machine, frames, operator, x),
        ValueFrame::Truth(operator) => truth_of(machine, operator),
        ValueFrame::Binary(operator) => binary(machine, operator),
        ValueFrame::Index => index(machine),
        ValueFrame::Member(name) => member(machine, name),
    }
}
