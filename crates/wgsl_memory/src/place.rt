//! Parts of values at paths.

ghost use Rattle.std.specs.Prelude.{◌≡◌, ◌∷◌, unwrap_or, option_and_then, slice_get, IfOk};
ghost use Rattle.std.specs.Option.{is_some};
ghost use Rattle.wgsl_instance.specs.declared.tree.Instance.TheVariants as instance;
ghost use Rattle.wgsl_instance.specs.declared.tree.Step.TheVariants.{Member, Element};
ghost use Rattle.wgsl_memory.specs.Places as spec;

use std::alloc::{AllocError, Global};
use wgsl_base::Items;
use wgsl_instance::{Instance, Step};
use wgsl_shader_type::LiteralInstance;

/// A copy of the part of a value at the end of a path, if it is there.
#[cycle(read)]
pub(crate) fn read_path(
    alloc: Global,
    whole: &Instance,
    path: &[Step],
) -> Result<Option<Instance>, AllocError>
    ensures { IfOk result (λ found. found ≡ spec.at_path path.now whole.now) }
{
    match path.split_first() {
        None => Ok(Some(whole.clone(alloc)?)),
        Some((step, rest)) => read_step(alloc, whole, *step, rest),
    }
}

#[cycle(read)]
fn read_step(
    alloc: Global,
    whole: &Instance,
    step: Step,
    rest: &[Step],
) -> Result<Option<Instance>, AllocError>
    ensures { IfOk result (λ found. found ≡ option_and_then (spec.at_path rest.now) (spec.part step whole.now)) }
{
    match (step, whole) {
        (Step::Member(i), Instance::Struct(x)) => read_part(alloc, x.members.as_slice(), i, rest),
        (Step::Element(i), Instance::Array(x)) => read_part(
            alloc,
            x.components.as_slice(),
            i,
            rest,
        ),
        (Step::Component(i), Instance::Vec(x)) => match x.components.get(i) {
            Some(component) => {
                let literal = Instance::Literal(*component);
                let found = read_path(alloc, &literal, rest);
                drop(literal);
                found
            }
            None => Ok(None),
        },
        _ => Ok(None),
    }
}

#[cycle(read)]
pub(crate) fn read_part(
    alloc: Global,
    parts: &[Instance],
    at: usize,
    path: &[Step],
) -> Result<Option<Instance>, AllocError>
    ensures { IfOk result (λ found. found ≡ option_and_then (spec.at_path path.now) (slice_get parts.now at)) }
{
    match parts.get(at) {
        Some(part) => read_path(alloc, part, path),
        None => Ok(None),
    }
}

/// Puts a value at the end of a path. It answers whether the place is there; else the whole is unchanged.
#[cycle(put)]
fn put(whole: &mut Instance, path: &[Step], value: Instance) -> bool
    ensures there { result ≡ is_some (spec.put_at_path path.now value whole.old) }
    ensures value { whole.new ≡ unwrap_or (spec.put_at_path path.now value whole.old) whole.old }
{
    match path.split_first() {
        None => {
            drop(std::mem::replace(whole, value));
            true
        }
        Some((step, rest)) => put_step(whole, *step, rest, value),
    }
}

#[cycle(put)]
fn put_step(whole: &mut Instance, step: Step, rest: &[Step], value: Instance) -> bool
    ensures there { result ≡ is_some (spec.put_at_path (step ∷ rest.now) value whole.old) }
    ensures value { whole.new ≡ unwrap_or (spec.put_at_path (step ∷ rest.now) value whole.old) whole.old }
{
    match step {
        Step::Member(i) => put_member(whole, i, rest, value),
        Step::Element(i) => put_element(whole, i, rest, value),
        Step::Component(i) => {
            let scalar = component_value(rest, &value);
            drop(value);
            put_in_vector(whole, i, scalar)
        }
    }
}

/// Puts a value at the end of a path that begins at a member of a struct.
#[cycle(put)]
fn put_member(whole: &mut Instance, at: usize, path: &[Step], value: Instance) -> bool
    ensures there { result ≡ is_some (spec.put_at_path (Member at ∷ path.now) value whole.old) }
    ensures value { whole.new ≡ unwrap_or (spec.put_at_path (Member at ∷ path.now) value whole.old) whole.old }
{
    match whole {
        Instance::Struct(x) => put_part(&mut x.members, at, path, value),
        _ => {
            drop(value);
            false
        }
    }
}

/// Puts a value at the end of a path that begins at an element of an array.
#[cycle(put)]
fn put_element(whole: &mut Instance, at: usize, path: &[Step], value: Instance) -> bool
    ensures there { result ≡ is_some (spec.put_at_path (Element at ∷ path.now) value whole.old) }
    ensures value { whole.new ≡ unwrap_or (spec.put_at_path (Element at ∷ path.now) value whole.old) whole.old }
{
    match whole {
        Instance::Array(x) => put_part(&mut x.components, at, path, value),
        _ => {
            drop(value);
            false
        }
    }
}

/// Puts a scalar in the place of a component of a vector.
fn put_in_vector(whole: &mut Instance, at: usize, value: Option<LiteralInstance>) -> bool
    ensures there { result ≡ is_some (spec.put_scalar at value whole.old) }
    ensures value { whole.new ≡ unwrap_or (spec.put_scalar at value whole.old) whole.old }
{
    match whole {
        Instance::Vec(x) => put_component(&mut x.components, at, value),
        _ => false,
    }
}

/// Puts a value at the end of a path that begins at an element.
#[cycle(put)]
pub(crate) fn put_part(
    parts: &mut Items<Instance>,
    at: usize,
    path: &[Step],
    value: Instance,
) -> bool
    ensures there { result ≡ is_some (spec.changed (spec.put_at_path path.now value) at parts.old) }
    ensures value { parts.new ≡ unwrap_or (spec.changed (spec.put_at_path path.now value) at parts.old) parts.old }
{
    if at < parts.len() {
        put(parts.get_mut(at), path, value)
    } else {
        drop(value);
        false
    }
}

/// What a component becomes where a value is put at the end of a path from it.
fn component_value(path: &[Step], value: &Instance) -> Option<LiteralInstance>
    ensures { (x : LiteralInstance) → spec.change_literal (spec.put_at_path path.now value.now) x ≡ result }
{
    match path.split_first() {
        Some(_) => None,
        None => literal_of(value),
    }
}

/// The scalar that a value is.
fn literal_of(value: &Instance) -> Option<LiteralInstance>
    ensures { result ≡ spec.literal_of value.now }
{
    match value {
        Instance::Literal(scalar) => Some(*scalar),
        _ => None,
    }
}

fn put_component(
    components: &mut Items<LiteralInstance>,
    at: usize,
    value: Option<LiteralInstance>,
) -> bool
    ensures there { result ≡ is_some (spec.changed (λ _. value) at components.old) }
    ensures value { components.new ≡ unwrap_or (spec.changed (λ _. value) at components.old) components.old }
{
    if at >= components.len() {
        return false;
    }
    match value {
        Some(scalar) => {
            *components.get_mut(at) = scalar;
            true
        }
        None => false,
    }
}
