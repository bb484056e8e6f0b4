//! The inputs of entry points.

use std::alloc::AllocError;
use wgsl_base::Text;
use wgsl_declarations::FormalParameter;
use wgsl_eval_expressions::push_number_at_const;
use wgsl_eval_machine::{BuiltinFault, CallFrame, Fault, Frame, Frames, Machine, NameFault, Stop};
use wgsl_expressions::{Attribute, AttributeNode, ExpressionNode};
use wgsl_instance::Instance;
use wgsl_shader_type::{Error, Type};
use wgsl_words::BuiltinValue;

fn builtin_of(attributes: &[AttributeNode]) -> Option<BuiltinValue> {
    for attribute in attributes {
        if let Attribute::Builtin(value) = attribute.node() {
            return Some(*value);
        }
    }
    None
}

fn location_of<'s>(attributes: &'s [AttributeNode]) -> Option<&'s ExpressionNode> {
    for attribute in attributes {
        if let Attribute::Location(x) = attribute.node() {
            return Some(x);
        }
    }
    None
}

/// An input is the value of a parameter whose type, the uppermost, has to be its own.
fn take_input(machine: &mut Machine, value: Instance) -> Result<(), Stop> {
    match value.ty(machine.alloc) {
        Ok(given) => {
            let is_same = match machine.types.top() {
                Some(ty) => *ty == given,
                None => false,
            };
            if is_same {
                drop(given);
                drop(machine.pop_type()?);
                return machine.push_value(value);
            }
            drop(value);
            refuse_input(machine, given)
        }
        Err(error) => {
            drop(value);
            Err(Stop::from(error))
        }
    }
}

fn refuse_input<T>(machine: &mut Machine, given: Type) -> Result<T, Stop> {
    match machine.pop_type() {
        Ok(expected) => machine.refuse_operation(Error::ParamType(expected, given)),
        Err(stop) => {
            drop(given);
            Err(stop)
        }
    }
}

fn copied(machine: &Machine, value: Option<&Instance>) -> Result<Option<Instance>, AllocError> {
    match value {
        None => Ok(None),
        Some(value) => Ok(Some(value.clone(machine.alloc)?)),
    }
}

fn builtin_input(machine: &mut Machine, builtin: BuiltinValue, name: &str) -> Result<(), Stop> {
    match builtin {
        BuiltinValue::Position => return machine.refuse_todo("position"),
        BuiltinValue::ClipDistances | BuiltinValue::FragDepth => return machine.refuse(
            Fault::Builtin(BuiltinFault::OutputBuiltin, builtin),
        ),
        _ => {}
    }
    match copied(machine, machine.builtin(builtin))? {
        Some(value) => take_input(machine, value),
        None => {
            let name = Text::from_str(machine.alloc, name)?;
            machine.refuse(Fault::MissingBuiltinInput(builtin, name))
        }
    }
}

/// The input of an entry point's parameter, whose type is the uppermost.
pub(crate) fn input<'s>(
    machine: &mut Machine,
    frames: &mut Frames<'s>,
    x: &'s FormalParameter,
) -> Result<(), Stop> {
    let attributes = x.attributes.as_slice();
    if let Some(builtin) = builtin_of(attributes) {
        return builtin_input(machine, builtin, x.ident.name());
    }
    match location_of(attributes) {
        Some(location) => {
            frames.push(Frame::Call(CallFrame::Located(x)))?;
            push_number_at_const(machine, frames, location)
        }
        None => machine.refuse_name(NameFault::InvalidEntrypointParam, x.ident.name()),
    }
}

/// The input at the location that is done.
pub(crate) fn located(machine: &mut Machine, x: &FormalParameter) -> Result<(), Stop> {
    let location = machine.pop_number()?;
    match copied(machine, machine.located(location))? {
        Some(value) => take_input(machine, value),
        None => {
            let name = Text::from_str(machine.alloc, x.ident.name())?;
            machine.refuse(Fault::MissingUserInput(name, location))
        }
    }
}
