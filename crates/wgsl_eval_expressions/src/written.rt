//! Written types, template arguments, and the numbers of attributes.

use crate::calling::{arguments_first, follow};
use crate::valuing::loaded_first;
use std::str::FromStr;
use wgsl_base::{Boxed, Items, Text};
use wgsl_eval_machine::{NameFault, Stop};
use wgsl_eval_names::{Declared, Directory, Meaning, Struct, Target};
use wgsl_eval_operands::{Frame, Frames, Machine, Slot, WrittenFrame, argument_of, number};
use wgsl_expressions::{
    Attribute, AttributeNode, Expression, ExpressionNode, TemplateArg, TypeExpression,
};
use wgsl_shader_type::{Error, StructMemberType, StructType, TpltParam, Type};
use wgsl_types::builtin_type;
use wgsl_words::{Enumerant, ShaderStage};

fn then<'s>(frames: &mut Frames<'s>, frame: WrittenFrame<'s>) -> Result<(), Stop> {
    Ok(frames.push(Frame::Written(frame))?)
}

/// What is left goes on with the names of the module alone, and then with those in scope here.
fn close<'s>(machine: &mut Machine, frames: &mut Frames<'s>) -> Result<(), Stop> {
    machine.enter_closed()?;
    Ok(frames.push(Frame::Leave)?)
}

/// What is left goes on at the const stage, and then at the stage here.
pub fn at_const<'s>(machine: &mut Machine, frames: &mut Frames<'s>) -> Result<(), Stop> {
    if machine.stage == ShaderStage::Const {
        return Ok(());
    }
    frames.push(Frame::Stage(machine.stage))?;
    machine.stage = ShaderStage::Const;
    Ok(())
}

/// The number of an attribute comes next, where there is one.
pub fn push_number<'s>(
    machine: &mut Machine,
    frames: &mut Frames<'s>,
    node: Option<&'s ExpressionNode>,
) -> Result<(), Stop> {
    match node {
        None => Ok(()),
        Some(node) => {
            then(frames, WrittenFrame::Number)?;
            loaded_first(frames, node)
        }
    }
}

/// The number of an attribute comes next, at the const stage and with the names of the module alone.
pub fn push_number_at_const<'s>(
    machine: &mut Machine,
    frames: &mut Frames<'s>,
    node: &'s ExpressionNode,
) -> Result<(), Stop> {
    at_const(machine, frames)?;
    close(machine, frames)?;
    push_number(machine, frames, Some(node))
}

/// The type of a name, where the names of the module alone are seen, or those in scope.
fn written<'s>(
    directory: &Directory<'s>,
    machine: &mut Machine,
    frames: &mut Frames<'s>,
    target: Target<'s>,
    is_closed: bool,
) -> Result<(), Stop> {
    let name = target.ty.ident.name();
    match target.meaning {
        Meaning::Local => machine.refuse_name(NameFault::NotType, name),
        Meaning::Module(number) => module_type(directory, machine, frames, number, target.ty),
        Meaning::Free => {
            then(frames, WrittenFrame::Builtin(target.ty))?;
            match &target.ty.template_args {
                None => Ok(()),
                Some(arguments) => {
                    if is_closed {
                        close(machine, frames)?;
                    }
                    arguments_first(frames, arguments.get().as_slice())
                }
            }
        }
    }
}

fn module_type<'s>(
    directory: &Directory<'s>,
    machine: &mut Machine,
    frames: &mut Frames<'s>,
    number: usize,
    ty: &TypeExpression,
) -> Result<(), Stop> {
    let name = ty.ident.name();
    let has_template = ty.template_args.is_some();
    match directory.declared(number) {
        Declared::Alias(_) => machine.refuse_template(name),
        Declared::Struct(x) => {
            if has_template {
                machine.refuse_template(name)
            } else {
                struct_type(machine, frames, number, x)
            }
        }
        _ => machine.refuse_name(NameFault::NotType, name),
    }
}

/// The known type of a structure, with the steps that it took.
fn known_struct(machine: &Machine, number: usize) -> Result<Option<(Type, u64)>, Stop> {
    match machine.slots.get(number) {
        Some(Slot::Struct(ty, steps)) => Ok(Some((ty.clone(machine.alloc)?, *steps))),
        _ => Ok(None),
    }
}

/// The type of a structure.
fn struct_type<'s>(
    machine: &mut Machine,
    frames: &mut Frames<'s>,
    number: usize,
    x: &'s Struct,
) -> Result<(), Stop> {
    if let Some((ty, steps)) = known_struct(machine, number)? {
        machine.push_type(ty)?;
        return machine.take_steps(steps);
    }
    if matches!(machine.slots.get(number), Some(Slot::Open)) {
        return machine.refuse_name(NameFault::CyclicDecl, x.ident.name());
    }
    machine.set_slot(number, Slot::Open);
    then(frames, WrittenFrame::Struct(number, machine.left))?;
    at_const(machine, frames)?;
    close(machine, frames)?;
    for member in x.members.as_slice().iter().rev() {
        let attributes = member.node().attributes.as_slice();
        push_number(machine, frames, align_of(attributes))?;
        push_number(machine, frames, size_of(attributes))?;
        then(frames, WrittenFrame::Type(&member.node().ty))?;
    }
    Ok(())
}

fn size_of<'s>(attributes: &'s [AttributeNode]) -> Option<&'s ExpressionNode> {
    for attribute in attributes {
        if let Attribute::Size(x) = attribute.node() {
            return Some(x);
        }
    }
    None
}

fn align_of<'s>(attributes: &'s [AttributeNode]) -> Option<&'s ExpressionNode> {
    for attribute in attributes {
        if let Attribute::Align(x) = attribute.node() {
            return Some(x);
        }
    }
    None
}

fn number_if(machine: &mut Machine, is_there: bool) -> Result<Option<u32>, Stop> {
    if is_there {
        Ok(Some(machine.pop_number()?))
    } else {
        Ok(None)
    }
}

/// The type of a structure's member, whose numbers and type are done.
fn member_type(
    machine: &mut Machine,
    name: &str,
    attributes: &[AttributeNode],
) -> Result<StructMemberType, Stop> {
    let align = number_if(machine, align_of(attributes).is_some())?;
    let size = number_if(machine, size_of(attributes).is_some())?;
    let name = Text::from_str(machine.alloc, name)?;
    Ok(StructMemberType {
        name,
        ty: machine.pop_type()?,
        size,
        align,
    })
}

fn member_types(machine: &mut Machine, x: &Struct) -> Result<Items<StructMemberType>, Stop> {
    let mut members = Vec::new(machine.alloc);
    for member in x.members.as_slice().iter().rev() {
        let member = member.node();
        members.push(member_type(machine, member.ident.name(), member.attributes.as_slice())?)?;
    }
    members.reverse();
    Ok(Items::from_vec(members))
}

fn made_struct(machine: &mut Machine, x: &Struct) -> Result<Type, Stop> {
    let members = member_types(machine, x)?;
    let name = Text::from_str(machine.alloc, x.ident.name())?;
    Ok(Type::Struct(Boxed::new(machine.alloc, StructType::new(name, members))?))
}

/// The structure whose members are done. Its type is kept.
fn finish_struct(
    machine: &mut Machine,
    number: usize,
    before: u64,
    x: &Struct,
) -> Result<(), Stop> {
    let ty = made_struct(machine, x)?;
    let steps = before.saturating_sub(machine.left);
    match machine.check_type(&ty) {
        Ok(()) => {
            let kept = ty.clone(machine.alloc)?;
            machine.set_slot(number, Slot::Struct(kept, steps));
            machine.push_type(ty)
        }
        Err(stop) => {
            drop(ty);
            Err(stop)
        }
    }
}

/// How many template arguments there are.
pub fn argument_count(ty: &TypeExpression) -> Option<usize> {
    match &ty.template_args {
        Some(arguments) => Some(arguments.get().len()),
        None => None,
    }
}

/// A refusal of a template by the whole name of the vector.
fn by_name(error: Error, name: &str) -> Error {
    let vector = match name {
        "vec2" => "vec2",
        "vec3" => "vec3",
        "vec4" => "vec4",
        _ => return error,
    };
    match error {
        Error::MissingTemplate(_) => Error::MissingTemplate(vector),
        Error::TemplateArgs(_) => Error::TemplateArgs(vector),
        other => other,
    }
}

fn built(
    machine: &mut Machine,
    name: &str,
    count: Option<usize>,
) -> Result<Result<Type, Error>, Stop> {
    match count {
        None => Ok(builtin_type(machine.alloc, name, None)),
        Some(count) => {
            let params = machine.take_params(count)?;
            let made = builtin_type(machine.alloc, name, Some(params.as_slice()));
            drop(params);
            Ok(made)
        }
    }
}

/// The built-in type of a name, whose template arguments are done.
fn builtin(machine: &mut Machine, ty: &TypeExpression) -> Result<(), Stop> {
    let name = ty.ident.name();
    match built(machine, name, argument_count(ty))? {
        Ok(made) => match machine.check_type(&made) {
            Ok(()) => machine.push_type(made),
            Err(stop) => {
                drop(made);
                Err(stop)
            }
        },
        Err(error) => machine.refuse_operation(by_name(error, name)),
    }
}

/// What a name as a template argument is.
#[derive(Clone, Copy)]
enum ArgumentKind {
    Value,
    Word(Enumerant),
    Type,
}

fn name_kind<'s>(
    directory: &Directory<'s>,
    machine: &Machine,
    ty: &TypeExpression,
) -> ArgumentKind {
    let name = ty.ident.name();
    if ty.template_args.is_some() {
        return ArgumentKind::Type;
    }
    if ty.path.is_none() && machine.is_local(name) {
        return ArgumentKind::Value;
    }
    match directory.meaning(ty) {
        Meaning::Module(number) => match directory.declared(number) {
            Declared::Value(_) => ArgumentKind::Value,
            _ => ArgumentKind::Type,
        },
        _ => match Enumerant::from_str(name) {
            Ok(word) => ArgumentKind::Word(word),
            Err(()) => ArgumentKind::Type,
        },
    }
}

fn value_argument<'s>(
    machine: &mut Machine,
    frames: &mut Frames<'s>,
    node: &'s ExpressionNode,
) -> Result<(), Stop> {
    then(frames, WrittenFrame::ValueArgument)?;
    at_const(machine, frames)?;
    loaded_first(frames, node)
}

fn argument<'s>(
    directory: &Directory<'s>,
    machine: &mut Machine,
    frames: &mut Frames<'s>,
    x: &'s TemplateArg,
) -> Result<(), Stop> {
    match x.expression.node() {
        Expression::TypeOrIdentifier(ty) => match name_kind(directory, machine, ty) {
            ArgumentKind::Value => value_argument(machine, frames, &x.expression),
            ArgumentKind::Word(word) => Ok(machine.params.push(TpltParam::Enumerant(word))?),
            ArgumentKind::Type => {
                then(frames, WrittenFrame::TypeArgument)?;
                at_const(machine, frames)?;
                then(frames, WrittenFrame::Type(ty))
            }
        },
        _ => value_argument(machine, frames, &x.expression),
    }
}

fn type_argument(machine: &mut Machine) -> Result<(), Stop> {
    let ty = machine.pop_type()?;
    Ok(machine.params.push(TpltParam::Ty(ty))?)
}

fn in_module<'s>(
    directory: &Directory<'s>,
    machine: &mut Machine,
    frames: &mut Frames<'s>,
    ty: &'s TypeExpression,
) -> Result<(), Stop> {
    match directory.follow(ty, false) {
        Some(target) => written(directory, machine, frames, target, true),
        None => machine.refuse_name(NameFault::CyclicDecl, ty.ident.name()),
    }
}

fn in_scope<'s>(
    directory: &Directory<'s>,
    machine: &mut Machine,
    frames: &mut Frames<'s>,
    ty: &'s TypeExpression,
) -> Result<(), Stop> {
    let target = follow(directory, machine, ty)?;
    written(directory, machine, frames, target, target.is_aliased)
}

/// What a frame of written types does.
pub fn step_written<'s>(
    directory: &Directory<'s>,
    machine: &mut Machine,
    frames: &mut Frames<'s>,
    frame: WrittenFrame<'s>,
) -> Result<(), Stop> {
    match frame {
        WrittenFrame::Type(ty) => in_scope(directory, machine, frames, ty),
        WrittenFrame::InModule(ty) => in_module(directory, machine, frames, ty),
        WrittenFrame::Builtin(ty) => builtin(machine, ty),
        WrittenFrame::Argument(x) => argument(directory, machine, frames, x),
        WrittenFrame::TypeArgument => type_argument(machine),
        WrittenFrame::ValueArgument => argument_of(machine),
        WrittenFrame::Refused(name) => machine.refuse_template(name),
        WrittenFrame::Struct(number, before) => match directory.declared(number) {
            Declared::Struct(x) => finish_struct(machine, number, before, x),
            _ => Err(Stop::OutOfMemory),
        },
        WrittenFrame::Number => number(machine),
    }
}
