//! Calls of functions, and their ends.

use wgsl_base::Text;
use wgsl_declarations::FormalParameter;
use wgsl_eval_expressions::{convert, is_constructible};
use wgsl_eval_machine::{
    CallFrame, ConversionPlace, DeclarationFrame, Fault, Flow, Frame, Frames, Local, Machine,
    NameFault, Operand, PlainFault, ReturnFault, Stop, WrittenFrame,
};
use wgsl_eval_names::{Declared, Directory, Header};
use wgsl_expressions::{Attribute, AttributeNode, TypeExpression};
use wgsl_instance::Instance;
use wgsl_shader_type::{Error, Type};
use wgsl_words::ShaderStage;

fn is_marked(attributes: &[AttributeNode]) -> bool {
    for attribute in attributes {
        if let Attribute::Const = attribute.node() {
            return true;
        }
    }
    false
}

fn is_stage(attributes: &[AttributeNode]) -> bool {
    for attribute in attributes {
        if let Attribute::Vertex | Attribute::Fragment | Attribute::Compute = attribute.node() {
            return true;
        }
    }
    false
}

/// The uppermost operands in the other order.
fn turn(machine: &mut Machine, count: usize) -> Result<(), Stop> {
    if count < 2 {
        return Ok(());
    }
    let mut rest = machine.take(count)?.into_vec();
    for _ in 0..count {
        match rest.pop() {
            Some(value) => machine.push_value(value)?,
            None => return Ok(()),
        }
    }
    Ok(())
}

/// Stops where a function may not be called with so many arguments here, and takes its step.
fn check_call(
    machine: &mut Machine,
    number: usize,
    header: Header<'_>,
    count: usize,
) -> Result<(), Stop> {
    let is_const = is_marked(header.attributes) || machine.is_const_function(number);
    if machine.stage == ShaderStage::Const && !is_const {
        return machine.refuse_name(NameFault::NotConst, header.name);
    }
    if header.parameters.len() != count {
        let name = Text::from_str(machine.alloc, header.name)?;
        return machine.refuse_operation(Error::ParamCount(name, header.parameters.len(), count));
    }
    machine.tick()
}

fn result_first<'s>(
    frames: &mut Frames<'s>,
    return_type: Option<&'s TypeExpression>,
) -> Result<(), Stop> {
    if let Some(ty) = return_type {
        frames.push(Frame::Call(CallFrame::Result))?;
        frames.push(Frame::Written(WrittenFrame::InModule(ty)))?;
    }
    Ok(())
}

/// A function is entered: a level of its own, its end, and before that its body.
fn body_first<'s>(
    machine: &mut Machine,
    frames: &mut Frames<'s>,
    number: usize,
) -> Result<(), Stop> {
    machine.enter_closed()?;
    frames.push(Frame::Leave)?;
    frames.push(Frame::Call(CallFrame::Return(number)))?;
    frames.push(Frame::Enter(number))?;
    Ok(())
}

/// A call of a function of the module with the uppermost operands.
pub(crate) fn call_function<'s>(
    machine: &mut Machine,
    frames: &mut Frames<'s>,
    number: usize,
    header: Header<'s>,
    count: usize,
) -> Result<(), Stop> {
    check_call(machine, number, header, count)?;
    turn(machine, count)?;
    body_first(machine, frames, number)?;
    for parameter in header.parameters.iter().rev() {
        parameter_first(frames, parameter)?;
    }
    result_first(frames, header.return_type)
}

fn parameter_first<'s>(
    frames: &mut Frames<'s>,
    parameter: &'s FormalParameter,
) -> Result<(), Stop> {
    frames.push(Frame::Call(CallFrame::Bind(parameter.ident.name())))?;
    frames.push(Frame::Declaration(DeclarationFrame::Convert(ConversionPlace::Parameter)))?;
    frames.push(Frame::Written(WrittenFrame::InModule(&parameter.ty)))?;
    Ok(())
}

/// An entry point comes next, by the name of its function, at the exec stage.
pub fn push_entry<'s>(
    directory: &Directory<'s>,
    machine: &mut Machine,
    frames: &mut Frames<'s>,
    name: &str,
) -> Result<(), Stop> {
    let found = match directory.number(name) {
        Some(number) => match directory.declared(number) {
            Declared::Function(header) => Some((number, header)),
            _ => None,
        },
        None => None,
    };
    match found {
        Some((number, header)) => {
            if !is_stage(header.attributes) {
                return machine.refuse_name(NameFault::NotEntrypoint, name);
            }
            enter_entry(machine, frames, number, header)
        }
        None => machine.refuse_name(NameFault::NotEntrypoint, name),
    }
}

fn enter_entry<'s>(
    machine: &mut Machine,
    frames: &mut Frames<'s>,
    number: usize,
    header: Header<'s>,
) -> Result<(), Stop> {
    machine.stage = ShaderStage::Exec;
    body_first(machine, frames, number)?;
    result_first(frames, header.return_type)?;
    for parameter in header.parameters.iter().rev() {
        frames.push(Frame::Call(CallFrame::Bind(parameter.ident.name())))?;
        frames.push(Frame::Call(CallFrame::Input(parameter)))?;
        frames.push(Frame::Written(WrittenFrame::InModule(&parameter.ty)))?;
    }
    Ok(())
}

/// The uppermost type has to be constructible, since it is that of a result.
pub(crate) fn result(machine: &mut Machine) -> Result<(), Stop> {
    let is_good = match machine.types.top() {
        Some(ty) => is_constructible(ty),
        None => false,
    };
    if is_good {
        return Ok(());
    }
    let ty = machine.pop_type()?;
    machine.refuse_operation(Error::NotConstructible(ty))
}

/// The uppermost operand is the value of a parameter.
pub(crate) fn bind(machine: &mut Machine, name: &str) -> Result<(), Stop> {
    let value = machine.pop()?;
    if let Err(stop) = machine.hold_named(&value) {
        drop(value);
        return Err(stop);
    }
    if machine
        .locals
        .add(machine.alloc, name, Local::Known(value))?
    {
        Ok(())
    } else {
        machine.refuse_name(NameFault::DuplicateDecl, name)
    }
}

fn refuse_return<T>(
    machine: &mut Machine,
    kind: ReturnFault,
    name: &str,
    ty: Type,
) -> Result<T, Stop> {
    match Text::from_str(machine.alloc, name) {
        Ok(name) => machine.refuse(Fault::Return(kind, name, ty)),
        Err(error) => {
            drop(ty);
            Err(Stop::from(error))
        }
    }
}

fn refuse_unexpected<T>(machine: &mut Machine, name: &str) -> Result<T, Stop> {
    let value: Instance = machine.pop()?;
    let ty = value.ty(machine.alloc);
    drop(value);
    let ty = ty?;
    refuse_return(machine, ReturnFault::UnexpectedReturn, name, ty)
}

/// The body of a function is done.
pub(crate) fn returned<'s>(
    directory: &Directory<'s>,
    machine: &mut Machine,
    number: usize,
) -> Result<(), Stop> {
    let Declared::Function(header) = directory.declared(number) else {
        return Err(Stop::OutOfMemory);
    };
    let flow = machine.flow;
    machine.flow = Flow::Next;
    match (flow, header.return_type) {
        (Flow::Break, _) | (Flow::Continue, _) => machine.refuse_plain(PlainFault::FlowInFunction),
        (Flow::Return(true), Some(_)) => convert(machine, ConversionPlace::Return(header.name)),
        (Flow::Return(true), None) => refuse_unexpected(machine, header.name),
        (_, Some(_)) => {
            let ty = machine.pop_type()?;
            refuse_return(machine, ReturnFault::NoReturn, header.name, ty)
        }
        (_, None) => machine.push(Operand::Void),
    }
}
