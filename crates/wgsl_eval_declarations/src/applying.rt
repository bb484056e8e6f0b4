//! Calls, once their parts are done.

use crate::entering::call_function;
use wgsl_base::Items;
use wgsl_eval_expressions::{argument_count, construct, constructed_type, follow, typed_array};
use wgsl_eval_machine::{
    CallFrame, Frame, Frames, Machine, NameFault, Operand, Stop, WrittenFrame,
};
use wgsl_eval_names::{Declared, Directory, Meaning, Target};
use wgsl_expressions::{FunctionCall, TypeExpression};
use wgsl_instance::Instance;
use wgsl_shader_type::{TpltParam, Type};

/// The template arguments of a callee, which are done.
fn params_of(machine: &mut Machine, ty: &TypeExpression) -> Result<Option<Items<TpltParam>>, Stop> {
    match argument_count(ty) {
        None => Ok(None),
        Some(count) => Ok(Some(machine.take_params(count)?)),
    }
}

fn template_of(params: &Option<Items<TpltParam>>) -> Option<&[TpltParam]> {
    match params {
        None => None,
        Some(params) => Some(params.as_slice()),
    }
}

fn constructed(
    machine: &mut Machine,
    ty: &TypeExpression,
    arguments: Items<Instance>,
) -> Result<Instance, Stop> {
    match params_of(machine, ty) {
        Ok(params) => {
            let made = construct(machine, ty.ident.name(), template_of(&params), arguments);
            drop(params);
            made
        }
        Err(stop) => {
            drop(arguments);
            Err(stop)
        }
    }
}

/// A built-in constructor.
fn apply_constructor(machine: &mut Machine, ty: &TypeExpression, count: usize) -> Result<(), Stop> {
    let arguments = machine.take(count)?;
    let made = constructed(machine, ty, arguments)?;
    machine.push_value(made)
}

fn apply_module<'s>(
    directory: &Directory<'s>,
    machine: &mut Machine,
    frames: &mut Frames<'s>,
    target: Target<'s>,
    number: usize,
    count: usize,
) -> Result<(), Stop> {
    match directory.declared(number) {
        Declared::Function(header) => call_function(machine, frames, number, header, count),
        Declared::Struct(_) => {
            frames.push(Frame::Call(CallFrame::Build(count)))?;
            frames.push(Frame::Written(WrittenFrame::InModule(target.ty)))?;
            Ok(())
        }
        _ => machine.refuse_name(NameFault::NotCallable, target.ty.ident.name()),
    }
}

/// A call whose template arguments and arguments are done.
pub(crate) fn apply<'s>(
    directory: &Directory<'s>,
    machine: &mut Machine,
    frames: &mut Frames<'s>,
    call: &'s FunctionCall,
) -> Result<(), Stop> {
    let target = follow(directory, machine, &call.ty)?;
    let count = call.arguments.len();
    match target.meaning {
        Meaning::Local => machine.refuse_name(NameFault::NotCallable, target.ty.ident.name()),
        Meaning::Module(number) => apply_module(directory, machine, frames, target, number, count),
        Meaning::Free => apply_constructor(machine, target.ty, count),
    }
}

/// The uppermost operand, the answer of a call, has to be a value.
pub(crate) fn valued<'s>(
    directory: &Directory<'s>,
    machine: &mut Machine,
    call: &'s FunctionCall,
) -> Result<(), Stop> {
    if matches!(machine.operands.top(), Some(Operand::Void)) {
        let target = follow(directory, machine, &call.ty)?;
        return machine.refuse_name(NameFault::Void, target.ty.ident.name());
    }
    Ok(())
}

fn constructed_of(
    machine: &mut Machine,
    ty: &TypeExpression,
    arguments: &[Type],
) -> Result<Type, Stop> {
    let params = params_of(machine, ty)?;
    let made = constructed_type(machine, ty.ident.name(), template_of(&params), arguments);
    drop(params);
    made
}

fn typed_constructor(machine: &mut Machine, ty: &TypeExpression, count: usize) -> Result<(), Stop> {
    if ty.ident.name() == "array" && ty.template_args.is_none() {
        let made = typed_array(machine, count)?;
        return machine.push_type(made);
    }
    let arguments = machine.take_types(count)?;
    let made = constructed_of(machine, ty, arguments.as_slice());
    drop(arguments);
    machine.push_type(made?)
}

fn typed_module<'s>(
    directory: &Directory<'s>,
    machine: &mut Machine,
    frames: &mut Frames<'s>,
    target: Target<'s>,
    number: usize,
) -> Result<(), Stop> {
    let name = target.ty.ident.name();
    match directory.declared(number) {
        Declared::Function(header) => match header.return_type {
            None => machine.refuse_name(NameFault::Void, name),
            Some(ty) => Ok(frames.push(Frame::Written(WrittenFrame::InModule(ty)))?),
        },
        Declared::Struct(_) => Ok(frames.push(Frame::Written(WrittenFrame::InModule(target.ty)))?),
        _ => machine.refuse_name(NameFault::NotCallable, name),
    }
}

/// The type of a call, whose template arguments and types of arguments are done.
pub(crate) fn typed_apply<'s>(
    directory: &Directory<'s>,
    machine: &mut Machine,
    frames: &mut Frames<'s>,
    call: &'s FunctionCall,
) -> Result<(), Stop> {
    let target = follow(directory, machine, &call.ty)?;
    let count = call.arguments.len();
    match target.meaning {
        Meaning::Local => machine.refuse_name(NameFault::NotCallable, target.ty.ident.name()),
        Meaning::Module(number) => {
            drop(machine.take_types(count)?);
            typed_module(directory, machine, frames, target, number)
        }
        Meaning::Free => typed_constructor(machine, target.ty, count),
    }
}
