//! Types of expressions.

use crate::names::refuse_free;
use std::alloc::{AllocError, Global};
use wgsl_base::Boxed;
use wgsl_eval_machine::{NameFault, Stop, TypeFault};
use wgsl_eval_names::{Declared, Directory, Meaning};
use wgsl_eval_operands::{
    CallFrame, DeclarationFrame, Frame, Frames, Local, Machine, Root, Slot, TypeFrame, is_swizzle,
};
use wgsl_expressions::{
    BinaryExpression, Expression, ExpressionNode, LiteralExpression, TypeExpression,
    UnaryExpression, UnaryOperator,
};
use wgsl_instance::selector::no_component;
use wgsl_shader_type::{Error, Type};
use wgsl_simple_statements::{Declaration, DeclarationKind};
use wgsl_type_operators::{type_binary_op, type_unary_op};
use wgsl_words::{AccessMode, AddressSpace, BinaryOperator};

fn then<'s>(frames: &mut Frames<'s>, frame: TypeFrame<'s>) -> Result<(), Stop> {
    Ok(frames.push(Frame::Type(frame))?)
}

fn loaded<'s>(frames: &mut Frames<'s>, node: &'s ExpressionNode) -> Result<(), Stop> {
    then(frames, TypeFrame::Load)?;
    then(frames, TypeFrame::Node(node))
}

fn literal(machine: &mut Machine, x: &LiteralExpression) -> Result<(), Stop> {
    match x {
        LiteralExpression::Bool(_) => machine.push_type(Type::Bool),
        LiteralExpression::AbstractInt(_) => machine.push_type(Type::AbstractInt),
        LiteralExpression::I32(_) => machine.push_type(Type::I32),
        LiteralExpression::U32(_) => machine.push_type(Type::U32),
        LiteralExpression::AbstractFloat(_) => machine.refuse_todo("AbstractFloat"),
        LiteralExpression::F32(_) => machine.refuse_todo("f32"),
        LiteralExpression::F16(_) => machine.refuse_todo("f16"),
    }
}

fn push_unary<'s>(frames: &mut Frames<'s>, x: &'s UnaryExpression) -> Result<(), Stop> {
    match x.operator {
        UnaryOperator::AddressOf => {
            then(frames, TypeFrame::AddressOf)?;
            then(frames, TypeFrame::Node(&x.operand))
        }
        UnaryOperator::Indirection => {
            then(frames, TypeFrame::Indirection)?;
            loaded(frames, &x.operand)
        }
        operator => {
            then(frames, TypeFrame::Unary(operator))?;
            loaded(frames, &x.operand)
        }
    }
}

fn push_binary<'s>(frames: &mut Frames<'s>, x: &'s BinaryExpression) -> Result<(), Stop> {
    then(frames, TypeFrame::Binary(x.operator))?;
    loaded(frames, &x.right)?;
    loaded(frames, &x.left)
}

/// The type of a known value.
fn push_known(machine: &mut Machine, root: Root) -> Result<(), Stop> {
    match machine.known(root) {
        Some(value) => {
            let ty = value.ty(machine.alloc)?;
            machine.push_type(ty)
        }
        None => Err(Stop::OutOfMemory),
    }
}

/// The type of a value of the module, a reference for a variable.
fn global<'s>(
    machine: &mut Machine,
    frames: &mut Frames<'s>,
    number: usize,
    x: &'s Declaration,
) -> Result<(), Stop> {
    if matches!(machine.slots.get(number), Some(Slot::Found(_))) {
        return push_known(machine, Root::Module(number));
    }
    match x.kind {
        DeclarationKind::Const => {
            then(frames, TypeFrame::Found(number))?;
            frames.push(Frame::Declaration(DeclarationFrame::Start(number)))?;
            Ok(())
        }
        _ => {
            if let DeclarationKind::Var(_) = x.kind {
                then(frames, TypeFrame::Variable(x))?;
            }
            machine.enter_closed()?;
            frames.push(Frame::Leave)?;
            frames.push(Frame::Declaration(DeclarationFrame::Type(x)))?;
            Ok(())
        }
    }
}

fn local(machine: &mut Machine, position: usize, name: &str) -> Result<(), Stop> {
    match machine.locals.at(position) {
        Some(Local::Known(_)) => push_known(machine, Root::Local(position)),
        _ => machine.refuse_name(NameFault::UnknownDecl, name),
    }
}

fn name<'s>(
    directory: &Directory<'s>,
    machine: &mut Machine,
    frames: &mut Frames<'s>,
    ty: &TypeExpression,
) -> Result<(), Stop> {
    let name = ty.ident.name();
    if ty.template_args.is_some() {
        return machine.refuse_template(name);
    }
    if ty.path.is_some() {
        return refuse_free(machine, name, true);
    }
    if let Some(position) = machine.locals.position(name) {
        return local(machine, position, name);
    }
    match directory.meaning(ty) {
        Meaning::Module(number) => match directory.declared(number) {
            Declared::Value(x) => global(machine, frames, number, x),
            _ => machine.refuse_name(NameFault::UnknownDecl, name),
        },
        _ => refuse_free(machine, name, false),
    }
}

fn node<'s>(
    directory: &Directory<'s>,
    machine: &mut Machine,
    frames: &mut Frames<'s>,
    node: &'s ExpressionNode,
) -> Result<(), Stop> {
    match node.node() {
        Expression::Literal(x) => literal(machine, x),
        Expression::Parenthesized(x) => then(frames, TypeFrame::Node(&x.expression)),
        Expression::Unary(x) => push_unary(frames, x),
        Expression::Binary(x) => push_binary(frames, x),
        Expression::Indexing(x) => {
            then(frames, TypeFrame::Index)?;
            loaded(frames, &x.index)?;
            then(frames, TypeFrame::Node(&x.base))
        }
        Expression::NamedComponent(x) => {
            then(frames, TypeFrame::Member(x.component.name()))?;
            then(frames, TypeFrame::Node(&x.base))
        }
        Expression::FunctionCall(x) => Ok(frames.push(Frame::Call(CallFrame::Typed(x.get())))?),
        Expression::TypeOrIdentifier(x) => name(directory, machine, frames, x),
    }
}

/// The uppermost type, without the reference.
fn load(machine: &mut Machine) -> Result<(), Stop> {
    if !matches!(machine.types.top(), Some(Type::Ref(_, _, _))) {
        return Ok(());
    }
    match machine.pop_type()? {
        Type::Ref(_, stored, _) => {
            let stored = stored.into_inner();
            machine.push_type(stored)
        }
        other => machine.push_type(other),
    }
}

fn unary(machine: &mut Machine, operator: UnaryOperator) -> Result<(), Stop> {
    let operand = machine.pop_type()?;
    let made = type_unary_op(machine.alloc, operator, &operand);
    drop(operand);
    let made = machine.answered(made)?;
    machine.push_type(made)
}

fn with_left(machine: &mut Machine, operator: BinaryOperator, right: &Type) -> Result<Type, Stop> {
    let left = machine.pop_type()?;
    let made = type_binary_op(machine.alloc, operator, &left, right);
    drop(left);
    machine.answered(made)
}

fn binary(machine: &mut Machine, operator: BinaryOperator) -> Result<(), Stop> {
    let right = machine.pop_type()?;
    let made = with_left(machine, operator, &right);
    drop(right);
    machine.push_type(made?)
}

fn indirection(machine: &mut Machine) -> Result<(), Stop> {
    match machine.pop_type()? {
        Type::Ptr(space, stored, access) => machine.push_type(Type::Ref(space, stored, access)),
        other => machine.refuse_operation(Error::Unary(UnaryOperator::Indirection, other)),
    }
}

fn address_of(machine: &mut Machine) -> Result<(), Stop> {
    match machine.pop_type()? {
        Type::Ref(AddressSpace::Handle, stored, _) => {
            drop(stored);
            machine.refuse_operation(Error::PtrHandle)
        }
        Type::Ref(space, stored, access) => machine.push_type(Type::Ptr(space, stored, access)),
        other => machine.refuse_operation(Error::Unary(UnaryOperator::AddressOf, other)),
    }
}

/// Where a part of a type stands, if it is behind a reference or a pointer.
fn place_of(ty: &Type) -> Option<(AddressSpace, AccessMode)> {
    match ty {
        Type::Ref(space, _, access) => Some((*space, *access)),
        Type::Ptr(space, _, access) => Some((*space, *access)),
        _ => None,
    }
}

fn stored_of(ty: &Type) -> &Type {
    match ty {
        Type::Ref(_, stored, _) => stored.get(),
        Type::Ptr(_, stored, _) => stored.get(),
        _ => ty,
    }
}

fn element_type(alloc: Global, ty: &Type) -> Result<Type, Error> {
    match ty {
        Type::Array(element, _) => Ok(element.get().clone(alloc)?),
        Type::Vec(_, component) => Ok(component.get().clone(alloc)?),
        _ => Err(Error::NotIndexable(ty.clone(alloc)?)),
    }
}

/// A part of a type is pushed, as a reference where the whole is behind one.
fn push_part(
    machine: &mut Machine,
    place: Option<(AddressSpace, AccessMode)>,
    part: Type,
) -> Result<(), Stop> {
    match place {
        None => machine.push_type(part),
        Some((space, access)) => {
            let stored = Boxed::new(machine.alloc, part)?;
            machine.push_type(Type::Ref(space, stored, access))
        }
    }
}

fn index_of(machine: &mut Machine, base: &Type) -> Result<(), Stop> {
    let part = element_type(machine.alloc, stored_of(base));
    let part = machine.answered(part)?;
    push_part(machine, place_of(base), part)
}

fn index(machine: &mut Machine) -> Result<(), Stop> {
    let index = machine.pop_type()?;
    if !index.is_integer() {
        return machine.refuse_type(TypeFault::Index, index);
    }
    drop(index);
    let base = machine.pop_type()?;
    let made = index_of(machine, &base);
    drop(base);
    made
}

/// The vector of so many components, or the one component.
fn components(alloc: Global, component: &Type, count: usize) -> Result<Type, AllocError> {
    let component = component.clone(alloc)?;
    match u8::try_from(count) {
        Ok(count) if count > 1 => Ok(Type::Vec(count, Boxed::new(alloc, component)?)),
        _ => Ok(component),
    }
}

fn member_of_struct(alloc: Global, ty: &Type, name: &str) -> Result<Type, Error> {
    if let Type::Struct(x) = ty {
        for member in x.get().members.as_slice() {
            if member.name.as_str() == name {
                return Ok(member.ty.clone(alloc)?);
            }
        }
    }
    no_component(alloc, ty, name)
}

fn member_of(machine: &mut Machine, base: &Type, name: &str) -> Result<(), Stop> {
    match stored_of(base) {
        Type::Vec(_, component) => {
            if !is_swizzle(name) {
                return machine.refuse_name(NameFault::Swizzle, name);
            }
            let part = components(machine.alloc, component.get(), name.len())?;
            if name.len() > 1 {
                machine.push_type(part)
            } else {
                push_part(machine, place_of(base), part)
            }
        }
        stored => {
            let part = member_of_struct(machine.alloc, stored, name);
            let part = machine.answered(part)?;
            push_part(machine, place_of(base), part)
        }
    }
}

fn member(machine: &mut Machine, name: &str) -> Result<(), Stop> {
    let base = machine.pop_type()?;
    let made = member_of(machine, &base, name);
    drop(base);
    made
}

/// The uppermost type is that of a variable.
fn variable(machine: &mut Machine, x: &Declaration) -> Result<(), Stop> {
    let (space, access) = match x.kind {
        DeclarationKind::Var(Some((space, access))) => (
            space,
            access.unwrap_or(space.default_access_mode()),
        ),
        _ => (
            AddressSpace::Handle,
            AddressSpace::Handle.default_access_mode(),
        ),
    };
    let stored = machine.pop_type()?;
    push_part(machine, Some((space, access)), stored)
}

/// The type of a declaration without one, by its initializer's.
fn untyped(machine: &mut Machine, x: &Declaration) -> Result<(), Stop> {
    let ty = machine.pop_type()?;
    if matches!(&ty, Type::Array(_, None)) {
        return machine.refuse_operation(Error::NotConstructible(ty));
    }
    if x.kind == DeclarationKind::Const {
        return machine.push_type(ty);
    }
    let made = ty.concretize(machine.alloc);
    drop(ty);
    machine.push_type(made?)
}

/// What a frame of types does.
pub fn step_type<'s>(
    directory: &Directory<'s>,
    machine: &mut Machine,
    frames: &mut Frames<'s>,
    frame: TypeFrame<'s>,
) -> Result<(), Stop> {
    match frame {
        TypeFrame::Node(x) => node(directory, machine, frames, x),
        TypeFrame::Load => load(machine),
        TypeFrame::Unary(operator) => unary(machine, operator),
        TypeFrame::Indirection => indirection(machine),
        TypeFrame::AddressOf => address_of(machine),
        TypeFrame::Binary(operator) => binary(machine, operator),
        TypeFrame::Index => index(machine),
        TypeFrame::Member(name) => member(machine, name),
        TypeFrame::Found(number) => push_known(machine, Root::Module(number)),
        TypeFrame::Variable(x) => variable(machine, x),
        TypeFrame::Untyped(x) => untyped(machine, x),
    }
}
