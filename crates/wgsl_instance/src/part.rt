//! Members, components and elements of values, and pointers (WGSL, "Composite Value Decomposition Expressions",
//! "Address-Of Expression", "Indirection Expression").

ghost use Rattle.std.specs.Prelude.{◌≡◌, Err, length, option_and_then, slice_get};
ghost use Rattle.std.specs.List.{list_all};
ghost use Rattle.std.specs.Option.{option_copied};
ghost use Rattle.wgsl_instance.specs.Answer.{Answers, collected};
ghost use Rattle.wgsl_instance.specs.Typed as typed;
ghost use Rattle.wgsl_instance.specs.Parts as spec;

use crate::selector::{component_error, in_range, is_rgba, is_xyzw, letter_index, member_position};
use crate::tree::{
    ArrayInstance, Instance, PtrInstance, RefInstance, Step, StructInstance, VecInstance,
};
use std::alloc::Global;
use wgsl_base::{Boxed, Items};
use wgsl_scalar::ScalarType;
use wgsl_shader_type::{Error, LiteralInstance, Type, UnaryOperator};
use wgsl_words::AddressSpace;

fn are_xyzw(name: &[u8]) -> bool
    ensures { result ≡ list_all spec.is_xyzw name.now }
{
    name.iter().all(|letter| is_xyzw(*letter))
}

fn are_rgba(name: &[u8]) -> bool
    ensures { result ≡ list_all spec.is_rgba name.now }
{
    name.iter().all(|letter| is_rgba(*letter))
}

/// Whether a name is of 1 to 4 letters, all of `xyzw` or all of `rgba`.
fn is_swizzle(name: &[u8]) -> bool
    ensures { result ≡ spec.is_swizzle name.now }
{
    let count = name.len();
    let is_in_one_set = are_xyzw(name) || are_rgba(name);
    1 <= count && count <= 4 && is_in_one_set
}

/// The component that a letter names.
fn lettered(alloc: Global, vector: &VecInstance, letter: u8) -> Result<LiteralInstance, Error>
    ensures { Answers (spec.lettered vector.now letter) result }
{
    let index = letter_index(letter);
    match vector.components.get(index) {
        Some(component) => Ok(*component),
        None => {
            let ty = vector.ty(alloc)?;
            Err(Error::OutOfBounds(index as i64, ty, vector.components.len()))
        }
    }
}

/// The components that letters name.
fn all_lettered(
    alloc: Global,
    vector: &VecInstance,
    name: &[u8],
) -> Result<Items<LiteralInstance>, Error>
    ensures { Answers (collected (spec.lettered vector.now) name.now) result }
{
    let mut components = Items::new(alloc);
    for letter in name {
        components.push(lettered(alloc, vector, *letter)?)?;
    }
    Ok(components)
}

/// The scalar of a list that has no other.
fn only(components: &[LiteralInstance]) -> Option<LiteralInstance>
    ensures { result ≡ spec.only components.now }
{
    match components.split_first() {
        Some((first, rest)) => { if rest.is_empty() { Some(*first) } else { None } }
        None => None,
    }
}

/// The scalar where it is one, else a vector.
fn of_components(ty: ScalarType, components: Items<LiteralInstance>) -> Instance
    ensures { result ≡ spec.of_components ty components }
{
    match only(components.as_slice()) {
        Some(scalar) => Instance::Literal(scalar),
        None => Instance::Vec(VecInstance { ty, components }),
    }
}

fn swizzled(alloc: Global, vector: &VecInstance, name: &str) -> Result<Instance, Error>
    ensures { Answers (spec.swizzled vector.now name.now) result }
{
    if !is_swizzle(name.as_bytes()) {
        let ty = vector.ty(alloc)?;
        return component_error(alloc, ty, name);
    }
    let components = all_lettered(alloc, vector, name.as_bytes())?;
    Ok(of_components(vector.ty, components))
}

/// The value of a member.
fn member_value<'a>(value: &'a StructInstance, name: &str) -> Option<&'a Instance>
    ensures { option_copied result ≡ option_and_then (slice_get value.now.members) (spec.member_position name.now value.now.ty.members) }
{
    let position = member_position(value.ty.members.as_slice(), name)?;
    value.members.get(position)
}

fn member_of(alloc: Global, value: &StructInstance, name: &str) -> Result<Instance, Error>
    ensures { Answers (spec.member_of value.now name.now) result }
{
    match member_value(value, name) {
        Some(member) => Ok(member.clone(alloc)?),
        None => {
            let ty = value.ty.clone(alloc)?;
            component_error(alloc, Type::Struct(Boxed::new(alloc, ty)?), name)
        }
    }
}

fn element_value(value: &ArrayInstance, index: i64) -> Option<&Instance>
    ensures { option_copied result ≡ option_and_then (slice_get value.now.components) (spec.in_range index (length value.now.components)) }
{
    let position = in_range(index, value.components.len())?;
    value.components.get(position)
}

fn element(alloc: Global, value: &ArrayInstance, index: i64) -> Result<Instance, Error>
    ensures { Answers (spec.element value.now index) result }
{
    match element_value(value, index) {
        Some(element) => Ok(element.clone(alloc)?),
        None => {
            let ty = value.ty(alloc)?;
            Err(Error::OutOfBounds(index, ty, value.components.len()))
        }
    }
}

fn component_value(value: &VecInstance, index: i64) -> Option<LiteralInstance>
    ensures { result ≡ option_and_then (slice_get value.now.components) (spec.in_range index (length value.now.components)) }
{
    let position = in_range(index, value.components.len())?;
    let component = value.components.get(position)?;
    Some(*component)
}

fn component(alloc: Global, value: &VecInstance, index: i64) -> Result<LiteralInstance, Error>
    ensures { Answers (spec.component value.now index) result }
{
    match component_value(value, index) {
        Some(component) => Ok(component),
        None => {
            let ty = value.ty(alloc)?;
            Err(Error::OutOfBounds(index, ty, value.components.len()))
        }
    }
}

/// The refusal of a value that has no elements.
fn not_indexable(alloc: Global, value: &Instance) -> Result<Instance, Error>
    ensures { Answers (Err (Error.NotIndexable (typed.type_of value.now))) result }
{
    let ty = value.ty(alloc)?;
    Err(Error::NotIndexable(ty))
}

/// The refusal of an operand of another type.
fn no_operand(alloc: Global, operator: UnaryOperator, value: &Instance) -> Result<Instance, Error>
    ensures { Answers (Err (Error.Unary operator (typed.type_of value.now))) result }
{
    let ty = value.ty(alloc)?;
    Err(Error::Unary(operator, ty))
}

fn is_component(step: Step) -> bool
    ensures { result ≡ spec.is_component step }
{
    matches!(step, Step::Component(_))
}

/// Whether a path leads to a component of a vector.
fn ends_in_component(path: &[Step]) -> bool
    ensures { result ≡ spec.ends_in_component path.now }
{
    let mut ends = false;
    for step in path {
        ends = is_component(*step);
    }
    ends
}

fn pointer_to(alloc: Global, reference: &RefInstance) -> Result<Instance, Error>
    ensures { Answers (spec.pointer_to reference.now) result }
{
    if matches!(reference.space, AddressSpace::Handle) {
        return Err(Error::PtrHandle);
    }
    if ends_in_component(reference.path.as_slice()) {
        return Err(Error::PtrVecComp);
    }
    Ok(Instance::Ptr(PtrInstance {
        reference: reference.clone(alloc)?,
    }))
}

impl Instance {
    /// A member of the struct, or the components of the vector that letters name: a scalar for one letter, a vector for 2 to
    /// 4, all of `xyzw` or all of `rgba`. Another name, and another value, is `Component`; a component past the end is
    /// `OutOfBounds`.
    pub fn member(&self, alloc: Global, name: &str) -> Result<Instance, Error>
        ensures { Answers (spec.member self.now name.now) result }
    {
        match self {
            Instance::Struct(value) => member_of(alloc, value, name),
            Instance::Vec(value) => swizzled(alloc, value, name),
            _ => component_error(alloc, self.ty(alloc)?, name),
        }
    }

    /// An element of the array, or a component of the vector. Another value is `NotIndexable`; an index below 0 or past the
    /// end is `OutOfBounds`.
    pub fn index(&self, alloc: Global, index: i64) -> Result<Instance, Error>
        ensures { Answers (spec.indexed self.now index) result }
    {
        match self {
            Instance::Array(value) => element(alloc, value, index),
            Instance::Vec(value) => Ok(Instance::Literal(component(alloc, value, index)?)),
            _ => not_indexable(alloc, self),
        }
    }

    /// What `&` gives: of a reference, a pointer to the same place. A pointer into the handle space is `PtrHandle`, one to a
    /// component of a vector `PtrVecComp`; another operand is `Unary`.
    pub fn op_ref(&self, alloc: Global) -> Result<Instance, Error>
        ensures { Answers (spec.address_of self.now) result }
    {
        match self {
            Instance::Ref(reference) => pointer_to(alloc, reference),
            _ => no_operand(alloc, UnaryOperator::AddressOf, self),
        }
    }

    /// What `*` gives: of a pointer, a reference to the same place. Another operand is `Unary`.
    pub fn op_deref(&self, alloc: Global) -> Result<Instance, Error>
        ensures { Answers (spec.indirection self.now) result }
    {
        match self {
            Instance::Ptr(pointer) => Ok(Instance::Ref(pointer.reference.clone(alloc)?)),
            _ => no_operand(alloc, UnaryOperator::Indirection, self),
        }
    }
}
