//! References to parts of what a reference refers to (WGSL, "Composite Value Decomposition Expressions").

ghost use Rattle.std.specs.Prelude.{◌≡◌, ◌||◌, Err, IfOk, pos, option_and_then, slice_get};
ghost use Rattle.wgsl_instance.specs.declared.tree.Step.TheVariants.{Component, Element};
ghost use Rattle.wgsl_instance.specs.Answer.{Answers};
ghost use Rattle.wgsl_instance.specs.Parts as parts;
ghost use Rattle.wgsl_memory.specs.Places as places;
ghost use Rattle.wgsl_memory.specs.Views as spec;

use crate::memory::{Memory, no_place};
use std::alloc::{AllocError, Global};
use wgsl_base::CloneIn;
use wgsl_instance::selector::{
    in_range, is_rgba, is_xyzw, letter_index, member_position, no_component,
};
use wgsl_instance::{Instance, RefInstance, Step};
use wgsl_shader_type::{Error, StructType, Type};

/// A reference to a part of what a reference refers to.
fn stepped(
    alloc: Global,
    whole: &RefInstance,
    step: Step,
    ty: &Type,
) -> Result<RefInstance, AllocError>
    ensures { IfOk result (λ made. made ≡ spec.stepped whole.now step ty.now) }
{
    let mut path = whole.path.clone_in(alloc)?;
    path.push(step)?;
    Ok(RefInstance {
        cell: whole.cell,
        path,
        ty: ty.clone(alloc)?,
        space: whole.space,
        access: whole.access,
    })
}

/// The refusal of an index that isn't below the number of parts.
fn out_of_bounds(
    alloc: Global,
    index: i64,
    whole: &RefInstance,
    count: usize,
) -> Result<RefInstance, Error>
    ensures { Answers (Err (Error.OutOfBounds index whole.now.ty count)) result }
{
    let ty = whole.ty.clone(alloc)?;
    Err(Error::OutOfBounds(index, ty, count))
}

fn element_view(
    alloc: Global,
    whole: &RefInstance,
    element: &Type,
    count: usize,
    index: i64,
) -> Result<RefInstance, Error>
    ensures { Answers (spec.element_view whole.now Element element.now count index) result }
{
    match in_range(index, count) {
        Some(i) => Ok(stepped(alloc, whole, Step::Element(i), element)?),
        None => out_of_bounds(alloc, index, whole, count),
    }
}

fn component_view(
    alloc: Global,
    whole: &RefInstance,
    component: &Type,
    count: u8,
    index: i64,
) -> Result<RefInstance, Error>
    ensures { Answers (spec.element_view whole.now Component component.now count index) result }
{
    match in_range(index, usize::from(count)) {
        Some(i) => Ok(stepped(alloc, whole, Step::Component(i), component)?),
        None => out_of_bounds(alloc, index, whole, usize::from(count)),
    }
}

/// The letter that a name is.
fn one_letter(name: &str) -> Option<u8>
    ensures { result ≡ spec.one_letter name.now }
{
    match name.as_bytes().split_first() {
        Some((letter, rest)) => {
            if rest.is_empty() && (is_xyzw(*letter) || is_rgba(*letter)) {
                Some(*letter)
            } else {
                None
            }
        }
        None => None,
    }
}

fn letter_view(
    alloc: Global,
    whole: &RefInstance,
    component: &Type,
    count: u8,
    name: &str,
) -> Result<RefInstance, Error>
    ensures { Answers (spec.letter_view whole.now component.now count name.now) result }
{
    match one_letter(name) {
        Some(letter) => component_view(alloc, whole, component, count, letter_index(letter) as i64),
        None => no_component(alloc, &whole.ty, name),
    }
}

fn struct_view(
    alloc: Global,
    whole: &RefInstance,
    ty: &StructType,
    name: &str,
) -> Result<RefInstance, Error>
    ensures { Answers (spec.member_found whole.now name.now ty.now.members (parts.member_position name.now ty.now.members)) result }
{
    match member_position(ty.members.as_slice(), name) {
        Some(i) => match ty.members.get(i) {
            Some(member) => Ok(stepped(alloc, whole, Step::Member(i), &member.ty)?),
            None => no_component(alloc, &whole.ty, name),
        },
        None => no_component(alloc, &whole.ty, name),
    }
}

fn member_view(alloc: Global, whole: &RefInstance, name: &str) -> Result<RefInstance, Error>
    ensures { Answers (spec.member_view whole.now name.now) result }
{
    match &whole.ty {
        Type::Struct(x) => struct_view(alloc, whole, x.get(), name),
        Type::Vec(count, component) => letter_view(alloc, whole, component.get(), *count, name),
        _ => no_component(alloc, &whole.ty, name),
    }
}

/// How many elements the array at the end of a path has.
#[cycle(count)]
fn count_at(whole: &Instance, path: &[Step]) -> Option<usize>
    ensures { result ≡ option_and_then spec.count_in (places.at_path path.now whole.now) }
{
    match path.split_first() {
        None => count_in(whole),
        Some((step, rest)) => count_in_part(whole, *step, rest),
    }
}

fn count_in(value: &Instance) -> Option<usize>
    ensures { result ≡ spec.count_in value.now }
{
    match value {
        Instance::Array(x) => Some(x.components.len()),
        _ => None,
    }
}

#[cycle(count)]
fn count_in_part(whole: &Instance, step: Step, rest: &[Step]) -> Option<usize>
    ensures { result ≡ option_and_then spec.count_in (option_and_then (places.at_path rest.now) (places.part step whole.now)) }
{
    match (step, whole) {
        (Step::Member(i), Instance::Struct(x)) => count_at_position(x.members.as_slice(), i, rest),
        (Step::Element(i), Instance::Array(x)) => count_at_position(
            x.components.as_slice(),
            i,
            rest,
        ),
        (Step::Component(i), Instance::Vec(x)) => match x.components.get(i) {
            Some(component) => {
                let literal = Instance::Literal(*component);
                let count = count_at(&literal, rest);
                drop(literal);
                count
            }
            None => None,
        },
        _ => None,
    }
}

#[cycle(count)]
fn count_at_position(parts: &[Instance], at: usize, path: &[Step]) -> Option<usize>
    ensures { result ≡ option_and_then spec.count_in (option_and_then (places.at_path path.now) (slice_get parts.now at)) }
{
    match parts.get(at) {
        Some(part) => count_at(part, path),
        None => None,
    }
}

fn array_view(
    alloc: Global,
    cells: &[Instance],
    whole: &RefInstance,
    element: &Type,
    count: Option<usize>,
    index: i64,
) -> Result<RefInstance, Error>
    ensures { Answers (spec.array_view cells.now whole.now element.now count index) result }
{
    match count {
        Some(count) => element_view(alloc, whole, element, count, index),
        None => match count_at_position(cells, whole.cell, whole.path.as_slice()) {
            Some(count) => element_view(alloc, whole, element, count, index),
            None => no_place(alloc, cells, whole),
        },
    }
}

/// The refusal of a type that has no elements.
fn not_indexable(alloc: Global, ty: &Type) -> Result<RefInstance, Error>
    ensures { Answers (Err (Error.NotIndexable ty.now)) result }
{
    let ty = ty.clone(alloc)?;
    Err(Error::NotIndexable(ty))
}

fn index_view(
    alloc: Global,
    cells: &[Instance],
    whole: &RefInstance,
    index: i64,
) -> Result<RefInstance, Error>
    ensures { Answers (spec.index_view cells.now whole.now index) result }
{
    match &whole.ty {
        Type::Array(element, count) => array_view(
            alloc,
            cells,
            whole,
            element.get(),
            *count,
            index,
        ),
        Type::Vec(count, component) => component_view(alloc, whole, component.get(), *count, index),
        _ => not_indexable(alloc, &whole.ty),
    }
}

impl Memory {
    /// A reference to a member of the struct, or to the component of the vector that one letter names. Where there is none,
    /// and for more letters, it is `Component`; a component past the end is `OutOfBounds`.
    pub fn view_member(
        &self,
        alloc: Global,
        reference: &RefInstance,
        name: &str,
    ) -> Result<RefInstance, Error>
        ensures { Answers (spec.member_view reference.now name.now) result }
    {
        member_view(alloc, reference, name)
    }

    /// A reference to an element of the array, or to a component of the vector. What has no elements is `NotIndexable`; an
    /// index below 0 or past the end is `OutOfBounds`. An array without a count has as many elements as there are in memory.
    pub fn view_index(
        &self,
        alloc: Global,
        reference: &RefInstance,
        index: i64,
    ) -> Result<RefInstance, Error>
        ensures { Answers (spec.index_view self.now reference.now index) result }
    {
        index_view(alloc, self.as_slice(), reference, index)
    }
}
