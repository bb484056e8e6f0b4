//! The first values of declarations.

use wgsl_base::Items;
use wgsl_eval_expressions::{loaded_first, push_number, truth, zero};
use wgsl_eval_machine::{
    Bound, ConversionPlace, DeclarationFrame, Fault, Frame, Frames, Machine, NameFault, PairFault,
    PlainFault, ResourceFault, Slot, Stop,
};
use wgsl_eval_names::{Declared, Directory};
use wgsl_expressions::{Attribute, AttributeNode, ExpressionNode};
use wgsl_instance::{Instance, RefInstance};
use wgsl_shader_type::Type;
use wgsl_simple_statements::{Declaration, DeclarationKind};
use wgsl_words::{AccessMode, AddressSpace, ShaderStage};

fn then<'s>(frames: &mut Frames<'s>, frame: DeclarationFrame<'s>) -> Result<(), Stop> {
    Ok(frames.push(Frame::Declaration(frame))?)
}

/// The initializer, converted to the declared type, comes next.
fn converted_first<'s>(
    frames: &mut Frames<'s>,
    initializer: &'s ExpressionNode,
) -> Result<(), Stop> {
    then(
        frames,
        DeclarationFrame::Convert(ConversionPlace::Initializer),
    )?;
    loaded_first(frames, initializer)
}

fn const_value<'s>(
    machine: &mut Machine,
    frames: &mut Frames<'s>,
    number: usize,
    x: &'s Declaration,
) -> Result<(), Stop> {
    match &x.initializer {
        None => machine.refuse_name(NameFault::UninitConst, x.ident.name()),
        Some(initializer) => {
            then(frames, DeclarationFrame::Store(number))?;
            converted_first(frames, initializer)
        }
    }
}

/// A copy of what an override is handed.
fn handed(machine: &Machine, name: &str) -> Result<Option<Instance>, Stop> {
    match machine.overrides.get(name) {
        None => Ok(None),
        Some(value) => Ok(Some(value.clone(machine.alloc)?)),
    }
}

fn override_value<'s>(
    machine: &mut Machine,
    frames: &mut Frames<'s>,
    number: usize,
    x: &'s Declaration,
) -> Result<(), Stop> {
    if let Some(value) = handed(machine, x.ident.name())? {
        machine.push_value(value)?;
        then(frames, DeclarationFrame::Store(number))?;
        return then(
            frames,
            DeclarationFrame::Convert(ConversionPlace::Initializer),
        );
    }
    match &x.initializer {
        None => machine.refuse_name(NameFault::UninitOverride, x.ident.name()),
        Some(initializer) => {
            machine.stage = ShaderStage::Override;
            then(frames, DeclarationFrame::Store(number))?;
            converted_first(frames, initializer)
        }
    }
}

/// A variable of this number begins as the zero value of the uppermost type.
fn zeroed<'s>(machine: &mut Machine, frames: &mut Frames<'s>, number: usize) -> Result<(), Stop> {
    let ty = machine.pop_type()?;
    let value = zero(machine, &ty);
    drop(ty);
    machine.push_value(value?)?;
    then(frames, DeclarationFrame::Variable(number))
}

fn private_value<'s>(
    machine: &mut Machine,
    frames: &mut Frames<'s>,
    number: usize,
    x: &'s Declaration,
) -> Result<(), Stop> {
    match &x.initializer {
        None => zeroed(machine, frames, number),
        Some(initializer) => {
            machine.stage = ShaderStage::Override;
            then(frames, DeclarationFrame::Variable(number))?;
            converted_first(frames, initializer)
        }
    }
}

fn group_of<'s>(attributes: &'s [AttributeNode]) -> Option<&'s ExpressionNode> {
    for attribute in attributes {
        if let Attribute::Group(x) = attribute.node() {
            return Some(x);
        }
    }
    None
}

fn binding_of<'s>(attributes: &'s [AttributeNode]) -> Option<&'s ExpressionNode> {
    for attribute in attributes {
        if let Attribute::Binding(x) = attribute.node() {
            return Some(x);
        }
    }
    None
}

fn bound_value<'s>(
    machine: &mut Machine,
    frames: &mut Frames<'s>,
    number: usize,
    x: &'s Declaration,
) -> Result<(), Stop> {
    let attributes = x.attributes.as_slice();
    match (group_of(attributes), binding_of(attributes)) {
        (Some(group), Some(binding)) => {
            then(frames, DeclarationFrame::Resource(number))?;
            push_number(machine, frames, Some(binding))?;
            push_number(machine, frames, Some(group))
        }
        _ => machine.refuse_plain(PlainFault::MissingBindAttr),
    }
}

fn variable_value<'s>(
    machine: &mut Machine,
    frames: &mut Frames<'s>,
    number: usize,
    x: &'s Declaration,
    space: AddressSpace,
) -> Result<(), Stop> {
    match space {
        AddressSpace::Function => return machine.refuse(Fault::ForbiddenDecl),
        AddressSpace::Handle => return machine.refuse_todo("handle"),
        AddressSpace::Private => return private_value(machine, frames, number, x),
        _ => {}
    }
    if x.initializer.is_some() {
        return machine.refuse(Fault::ForbiddenInitializer(space));
    }
    match space {
        AddressSpace::Workgroup => zeroed(machine, frames, number),
        _ => bound_value(machine, frames, number, x),
    }
}

/// The value of a declaration whose type is the uppermost.
pub(crate) fn initial<'s>(
    directory: &Directory<'s>,
    machine: &mut Machine,
    frames: &mut Frames<'s>,
    number: usize,
) -> Result<(), Stop> {
    let Declared::Value(x) = directory.declared(number) else {
        return Err(Stop::OutOfMemory);
    };
    match x.kind {
        DeclarationKind::Const => const_value(machine, frames, number, x),
        DeclarationKind::Override => override_value(machine, frames, number, x),
        DeclarationKind::Let => machine.refuse_plain(PlainFault::LetInMod),
        DeclarationKind::Var(place) => {
            let space = match place {
                Some((space, _)) => space,
                None => AddressSpace::Handle,
            };
            variable_value(machine, frames, number, x, space)
        }
    }
}

/// The uppermost operand is the value of a declaration.
pub(crate) fn store(machine: &mut Machine, number: usize) -> Result<(), Stop> {
    let value = machine.pop()?;
    machine.set_slot(number, Slot::Found(value));
    Ok(())
}

/// Where a variable of the module stands, and how it is accessed.
fn place_of(directory: &Directory<'_>, number: usize) -> (AddressSpace, AccessMode) {
    let place = match directory.declared(number) {
        Declared::Value(x) => match x.kind {
            DeclarationKind::Var(place) => place,
            _ => None,
        },
        _ => None,
    };
    match place {
        Some((space, access)) => (space, access.unwrap_or(space.default_access_mode())),
        None => (AddressSpace::Handle, AccessMode::Read),
    }
}

/// A variable of the module is a reference to a cell.
fn refer(
    machine: &mut Machine,
    number: usize,
    cell: usize,
    ty: Type,
    place: (AddressSpace, AccessMode),
) {
    let (space, access) = place;
    let reference = RefInstance {
        cell,
        path: Items::new(machine.alloc),
        ty,
        space,
        access,
    };
    machine.set_slot(number, Slot::Found(Instance::Ref(reference)));
}

/// The uppermost operand is stored in a new cell: that of a variable.
pub(crate) fn variable<'s>(
    directory: &Directory<'s>,
    machine: &mut Machine,
    number: usize,
) -> Result<(), Stop> {
    let value = machine.pop()?;
    match value.ty(machine.alloc) {
        Ok(ty) => match allocated(machine, value) {
            Ok(cell) => {
                refer(machine, number, cell, ty, place_of(directory, number));
                Ok(())
            }
            Err(stop) => {
                drop(ty);
                Err(stop)
            }
        },
        Err(error) => {
            drop(value);
            Err(Stop::from(error))
        }
    }
}

/// A new cell with a value.
fn allocated(machine: &mut Machine, value: Instance) -> Result<usize, Stop> {
    match machine.hold_named(&value) {
        Ok(()) => Ok(machine.memory.allocate(value)?),
        Err(stop) => {
            drop(value);
            Err(stop)
        }
    }
}

/// Whether a value stands for a variable of a type: of an array without a length any array of its elements does.
fn is_bound_as(given: &Type, ty: &Type) -> bool {
    match (given, ty) {
        (Type::Array(given, _), Type::Array(element, None)) => given.get() == element.get(),
        _ => given == ty,
    }
}

fn check_type(machine: &mut Machine, at: usize, ty: &Type) -> Result<(), Stop> {
    let Some(bound) = machine.bindings.get(at) else {
        return Err(Stop::OutOfMemory);
    };
    let given = bound.value.ty(machine.alloc)?;
    if is_bound_as(&given, ty) {
        drop(given);
        return Ok(());
    }
    match ty.clone(machine.alloc) {
        Ok(ty) => machine.refuse_types(PairFault::WrongType, given, ty),
        Err(error) => {
            drop(given);
            Err(Stop::from(error))
        }
    }
}

/// What is wrong with the address space or the access mode of a binding.
fn place_fault(bound: &Bound, place: (AddressSpace, AccessMode)) -> Option<ResourceFault> {
    let (space, access) = place;
    let asked = if space == AddressSpace::Uniform {
        AccessMode::Read
    } else {
        access
    };
    if bound.space != space {
        Some(ResourceFault::AddressSpace)
    } else if bound.access != asked {
        Some(ResourceFault::AccessMode)
    } else {
        None
    }
}

fn checked_cell(
    machine: &mut Machine,
    ty: &Type,
    place: (AddressSpace, AccessMode),
    group: u32,
    binding: u32,
) -> Result<usize, Stop> {
    let Some(at) = machine.bound_at(group, binding) else {
        return machine.refuse(Fault::Resource(ResourceFault::MissingResource, group, binding));
    };
    check_type(machine, at, ty)?;
    let fault = match machine.bindings.get(at) {
        Some(bound) => place_fault(bound, place),
        None => None,
    };
    match fault {
        Some(kind) => machine.refuse(Fault::Resource(kind, group, binding)),
        None => Ok(machine.cell_of(at)?),
    }
}

/// The group and the binding of a variable are done.
pub(crate) fn resource<'s>(
    directory: &Directory<'s>,
    machine: &mut Machine,
    number: usize,
) -> Result<(), Stop> {
    let binding = machine.pop_number()?;
    let group = machine.pop_number()?;
    let ty = machine.pop_type()?;
    let place = place_of(directory, number);
    match checked_cell(machine, &ty, place, group, binding) {
        Ok(cell) => {
            refer(machine, number, cell, ty, place);
            Ok(())
        }
        Err(stop) => {
            drop(ty);
            Err(stop)
        }
    }
}

/// The uppermost operand has to be true.
pub(crate) fn assert_true(machine: &mut Machine) -> Result<(), Stop> {
    if truth(machine)? {
        Ok(())
    } else {
        machine.refuse_plain(PlainFault::ConstAssertFailure)
    }
}
