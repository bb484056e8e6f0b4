//! Statements without others in them.

use crate::frames::{SimpleFrame, StatementFrame, Works};
use wgsl_base::Items;
use wgsl_eval_expressions::{
    CallFrame, ConversionPlace, DeclarationFrame, Flow, Frame, Frames, Local, Machine, ValueFrame,
    assign, at_const, bump, compound, follow, is_constructible, is_place, loaded_first, read_place,
    truth, zero,
};
use wgsl_eval_machine::{Fault, NameFault, PlainFault, Stop};
use wgsl_eval_names::{Declared, Directory, Meaning};
use wgsl_expressions::{Attribute, AttributeNode, Expression, ExpressionNode, FunctionCall};
use wgsl_instance::{Instance, RefInstance};
use wgsl_shader_type::{Error, Type};
use wgsl_simple_statements::{
    AssignmentStatement, ConstAssert, Declaration, DeclarationKind, ReturnStatement,
};
use wgsl_types::is_ctor;
use wgsl_words::{
    AccessMode, AddressSpace, AssignmentOperator, BinaryOperator, is_known, other_types,
};

fn then<'s>(works: &mut Works<'s>, frame: SimpleFrame<'s>) -> Result<(), Stop> {
    Ok(works.push(StatementFrame::Simple(frame))?)
}

/// The operand of a place comes next.
fn place_first<'s>(frames: &mut Frames<'s>, node: &'s ExpressionNode) -> Result<(), Stop> {
    Ok(frames.push(Frame::Value(ValueFrame::Node(node)))?)
}

fn is_phony(node: &ExpressionNode) -> bool {
    match node.node() {
        Expression::TypeOrIdentifier(x) => x.ident.name() == "_",
        _ => false,
    }
}

/// The operator of a compound sign.
fn operator_of(sign: AssignmentOperator) -> Option<BinaryOperator> {
    match sign {
        AssignmentOperator::Equal => None,
        AssignmentOperator::PlusEqual => Some(BinaryOperator::Addition),
        AssignmentOperator::MinusEqual => Some(BinaryOperator::Subtraction),
        AssignmentOperator::TimesEqual => Some(BinaryOperator::Multiplication),
        AssignmentOperator::DivisionEqual => Some(BinaryOperator::Division),
        AssignmentOperator::ModuloEqual => Some(BinaryOperator::Remainder),
        AssignmentOperator::AndEqual => Some(BinaryOperator::BitwiseAnd),
        AssignmentOperator::OrEqual => Some(BinaryOperator::BitwiseOr),
        AssignmentOperator::XorEqual => Some(BinaryOperator::BitwiseXor),
        AssignmentOperator::ShiftRightAssign => Some(BinaryOperator::ShiftRight),
        AssignmentOperator::ShiftLeftAssign => Some(BinaryOperator::ShiftLeft),
    }
}

/// What is done with a place before the right side: a compound assignment reads it.
fn place_frame<'s>(sign: AssignmentOperator) -> SimpleFrame<'s> {
    match sign {
        AssignmentOperator::Equal => SimpleFrame::Place,
        _ => SimpleFrame::Held,
    }
}

pub(crate) fn assignment<'s>(
    frames: &mut Frames<'s>,
    works: &mut Works<'s>,
    x: &'s AssignmentStatement,
) -> Result<(), Stop> {
    if is_phony(&x.lhs) {
        then(works, SimpleFrame::Discard)?;
        return place_first(frames, &x.rhs);
    }
    match operator_of(x.operator) {
        None => then(works, SimpleFrame::Assign)?,
        Some(operator) => then(works, SimpleFrame::Compound(operator))?,
    }
    works.push(StatementFrame::Value(&x.rhs))?;
    then(works, place_frame(x.operator))?;
    place_first(frames, &x.lhs)
}

pub(crate) fn increment<'s>(
    frames: &mut Frames<'s>,
    works: &mut Works<'s>,
    node: &'s ExpressionNode,
    frame: SimpleFrame<'s>,
) -> Result<(), Stop> {
    then(works, frame)?;
    place_first(frames, node)
}

pub(crate) fn leave<'s>(
    machine: &mut Machine,
    frames: &mut Frames<'s>,
    works: &mut Works<'s>,
    x: &'s ReturnStatement,
) -> Result<(), Stop> {
    match &x.expression {
        None => {
            machine.flow = Flow::Return(false);
            Ok(())
        }
        Some(expression) => {
            then(works, SimpleFrame::Return)?;
            loaded_first(frames, expression)
        }
    }
}

pub(crate) fn assertion<'s>(
    machine: &mut Machine,
    frames: &mut Frames<'s>,
    works: &mut Works<'s>,
    x: &'s ConstAssert,
) -> Result<(), Stop> {
    then(works, SimpleFrame::Assert)?;
    at_const(machine, frames)?;
    loaded_first(frames, &x.expression)
}

pub(crate) fn declaration<'s>(
    frames: &mut Frames<'s>,
    works: &mut Works<'s>,
    x: &'s Declaration,
) -> Result<(), Stop> {
    then(works, SimpleFrame::Typed(x))?;
    Ok(frames.push(Frame::Declaration(DeclarationFrame::Type(x)))?)
}

fn is_must_use(attributes: &[AttributeNode]) -> bool {
    for attribute in attributes {
        if let Attribute::MustUse = attribute.node() {
            return true;
        }
    }
    false
}

/// Stops where what is called has a value that has to be used, or can't be called.
fn check_callee<'s>(
    directory: &Directory<'s>,
    machine: &mut Machine,
    call: &'s FunctionCall,
) -> Result<(), Stop> {
    let target = follow(directory, machine, &call.ty)?;
    let name = target.ty.ident.name();
    match target.meaning {
        Meaning::Local => machine.refuse_name(NameFault::NotCallable, name),
        Meaning::Module(number) => match directory.declared(number) {
            Declared::Function(header) => {
                if is_must_use(header.attributes) {
                    machine.refuse_name(NameFault::MustUse, name)
                } else {
                    Ok(())
                }
            }
            Declared::Struct(_) => machine.refuse_name(NameFault::MustUse, name),
            _ => machine.refuse_name(NameFault::NotCallable, name),
        },
        Meaning::Free => {
            if is_ctor(name) {
                machine.refuse_name(NameFault::MustUse, name)
            } else if is_known(name, other_types()) {
                machine.refuse_todo(name)
            } else {
                machine.refuse_name(NameFault::UnknownFunction, name)
            }
        }
    }
}

pub(crate) fn call<'s>(
    directory: &Directory<'s>,
    machine: &mut Machine,
    frames: &mut Frames<'s>,
    call: &'s FunctionCall,
) -> Result<(), Stop> {
    check_callee(directory, machine, call)?;
    frames.push(Frame::Call(CallFrame::Discard))?;
    frames.push(Frame::Call(CallFrame::Call(call)))?;
    Ok(())
}

/// The value of a local declaration comes next, converted to the uppermost type.
fn value_first<'s>(
    frames: &mut Frames<'s>,
    works: &mut Works<'s>,
    x: &'s Declaration,
    initializer: &'s ExpressionNode,
) -> Result<(), Stop> {
    then(works, SimpleFrame::Declared(x))?;
    frames.push(Frame::Declaration(DeclarationFrame::Convert(ConversionPlace::Initializer)))?;
    loaded_first(frames, initializer)
}

/// Whether a variable may not stand in a function.
fn is_forbidden(place: Option<(AddressSpace, Option<AccessMode>)>) -> bool {
    match place {
        None => false,
        Some((space, access)) => space != AddressSpace::Function || access.is_some(),
    }
}

/// A variable begins as the zero value of the uppermost type.
fn zeroed<'s>(
    machine: &mut Machine,
    works: &mut Works<'s>,
    x: &'s Declaration,
) -> Result<(), Stop> {
    let ty = machine.pop_type()?;
    let value = zero(machine, &ty);
    drop(ty);
    machine.push_value(value?)?;
    then(works, SimpleFrame::Declared(x))
}

/// The uppermost type is a local declaration's.
fn typed<'s>(
    machine: &mut Machine,
    frames: &mut Frames<'s>,
    works: &mut Works<'s>,
    x: &'s Declaration,
) -> Result<(), Stop> {
    let name = x.ident.name();
    match (x.kind, &x.initializer) {
        (DeclarationKind::Override, _) => machine.refuse_plain(PlainFault::OverrideInFn),
        (DeclarationKind::Const, None) => machine.refuse_name(NameFault::UninitConst, name),
        (DeclarationKind::Let, None) => machine.refuse_name(NameFault::UninitLet, name),
        (DeclarationKind::Const, Some(initializer)) => {
            at_const(machine, frames)?;
            value_first(frames, works, x, initializer)
        }
        (DeclarationKind::Let, Some(initializer)) => value_first(frames, works, x, initializer),
        (DeclarationKind::Var(place), initializer) => {
            if is_forbidden(place) {
                return machine.refuse(Fault::ForbiddenDecl);
            }
            match initializer {
                None => zeroed(machine, works, x),
                Some(initializer) => value_first(frames, works, x, initializer),
            }
        }
    }
}

/// Names a value in the last level.
fn add(machine: &mut Machine, name: &str, value: Instance) -> Result<(), Stop> {
    if let Err(stop) = machine.hold_named(&value) {
        drop(value);
        return Err(stop);
    }
    if machine
        .locals
        .add(machine.alloc, name, Local::Known(value))?
    {
        Ok(())
    } else {
        machine.refuse_name(NameFault::DuplicateDecl, name)
    }
}

/// A new cell with a value.
fn allocated(machine: &mut Machine, value: Instance) -> Result<usize, Stop> {
    match machine.hold_named(&value) {
        Ok(()) => Ok(machine.memory.allocate(value)?),
        Err(stop) => {
            drop(value);
            Err(stop)
        }
    }
}

/// A new cell with a value, and the reference to it.
fn stored(machine: &mut Machine, value: Instance, ty: Type) -> Result<Instance, Stop> {
    match allocated(machine, value) {
        Ok(cell) => Ok(Instance::Ref(RefInstance {
            cell,
            path: Items::new(machine.alloc),
            ty,
            space: AddressSpace::Function,
            access: AccessMode::ReadWrite,
        })),
        Err(stop) => {
            drop(ty);
            Err(stop)
        }
    }
}

fn add_variable(machine: &mut Machine, name: &str, value: Instance) -> Result<(), Stop> {
    match value.ty(machine.alloc) {
        Ok(ty) => {
            if !is_constructible(&ty) {
                drop(value);
                return machine.refuse_operation(Error::NotConstructible(ty));
            }
            let reference = stored(machine, value, ty)?;
            add(machine, name, reference)
        }
        Err(error) => {
            drop(value);
            Err(Stop::from(error))
        }
    }
}

/// The uppermost operand is a local declaration's value.
fn declared(machine: &mut Machine, x: &Declaration) -> Result<(), Stop> {
    let value = machine.pop()?;
    match x.kind {
        DeclarationKind::Var(_) => add_variable(machine, x.ident.name(), value),
        _ => add(machine, x.ident.name(), value),
    }
}

/// What a frame of statements without others does.
pub(crate) fn step_simple<'s>(
    machine: &mut Machine,
    frames: &mut Frames<'s>,
    works: &mut Works<'s>,
    frame: SimpleFrame<'s>,
) -> Result<(), Stop> {
    match frame {
        SimpleFrame::Discard => {
            drop(machine.pop_operand());
            Ok(())
        }
        SimpleFrame::Place => is_place(machine),
        SimpleFrame::Held => read_place(machine),
        SimpleFrame::Assign => assign(machine),
        SimpleFrame::Compound(operator) => compound(machine, operator),
        SimpleFrame::Increment => bump(machine, true),
        SimpleFrame::Decrement => bump(machine, false),
        SimpleFrame::Return => {
            machine.flow = Flow::Return(true);
            Ok(())
        }
        SimpleFrame::Assert => {
            if truth(machine)? {
                Ok(())
            } else {
                machine.refuse_plain(PlainFault::ConstAssertFailure)
            }
        }
        SimpleFrame::Typed(x) => typed(machine, frames, works, x),
        SimpleFrame::Declared(x) => declared(machine, x),
    }
}
