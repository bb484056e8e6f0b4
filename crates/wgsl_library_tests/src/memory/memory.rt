//! Views, reads and writes, each tried on a memory of its own, whose only cell holds the vector of three zeros.

use crate::memory::answer::{Kind, error_kind, gives};
use crate::memory::constructors::call;
use std::alloc::Global;
use std::test::Fail;
use wgsl_base::Items;
use wgsl_instance::{Instance, RefInstance};
use wgsl_memory::Memory;
use wgsl_shader_type::{LiteralInstance, Type};
use wgsl_words::{AccessMode, AddressSpace};

const SEVEN: LiteralInstance = LiteralInstance::U32(7);

/// What is tried.
#[derive(Clone, Copy)]
enum Trial {
    /// A view at this index is out of bounds of three components.
    Outside(i64),
    /// A write is refused, as the reference can only read, and changes nothing.
    ReadOnly,
    /// A write of 7 to the second component leaves the first.
    OneWritten,
}

/// Whether a view at this index is out of bounds.
fn is_outside(alloc: Global, memory: &Memory, whole: &RefInstance, index: i64) -> bool {
    error_kind(memory.view_index(alloc, whole, index)) == Kind::OutOfBounds(3)
}

/// What refers to a place.
trait Place {
    /// Whether this scalar is there.
    fn reads(&self, alloc: Global, memory: &Memory, wanted: LiteralInstance) -> bool;

    /// Whether 7 is written.
    fn writes(&self, alloc: Global, memory: &mut Memory) -> bool;
}

impl Place for RefInstance {
    fn reads(&self, alloc: Global, memory: &Memory, wanted: LiteralInstance) -> bool {
        gives(memory.read(alloc, self), wanted)
    }

    fn writes(&self, alloc: Global, memory: &mut Memory) -> bool {
        error_kind(memory.write(alloc, self, Instance::Literal(SEVEN))) == Kind::Absent
    }
}

/// Whether a place is there and has this scalar.
fn reads<P: Place + Drop, E: Drop>(
    alloc: Global,
    memory: &Memory,
    place: Result<P, E>,
    wanted: LiteralInstance,
) -> bool {
    match place {
        Ok(place) => place.reads(alloc, memory, wanted),
        Err(_) => false,
    }
}

/// Whether a place is there and 7 is written to it.
fn writes<P: Place + Drop, E: Drop>(
    alloc: Global,
    memory: &mut Memory,
    place: Result<P, E>,
) -> bool {
    match place {
        Ok(place) => place.writes(alloc, memory),
        Err(_) => false,
    }
}

/// Whether the component at this index is this scalar.
fn component_is(
    alloc: Global,
    memory: &Memory,
    whole: &RefInstance,
    index: i64,
    wanted: LiteralInstance,
) -> bool {
    reads(
        alloc,
        memory,
        memory.view_index(alloc, whole, index),
        wanted,
    )
}

/// Whether 7 is written to the component at this index.
fn write(alloc: Global, memory: &mut Memory, whole: &RefInstance, index: i64) -> bool {
    let view = memory.view_index(alloc, whole, index);
    writes(alloc, memory, view)
}

/// Whether a write of a scalar is refused for want of access.
fn is_refused(alloc: Global, memory: &mut Memory, whole: &RefInstance) -> bool {
    error_kind(memory.write(alloc, whole, Instance::Literal(SEVEN))) == Kind::NotWrite
}

/// What trials are made on.
trait Whole {
    /// Whether a trial ends so.
    fn holds(&self, alloc: Global, memory: &mut Memory, trial: Trial) -> bool;
}

impl Whole for RefInstance {
    fn holds(&self, alloc: Global, memory: &mut Memory, trial: Trial) -> bool {
        let zero = LiteralInstance::U32(0);
        match trial {
            Trial::Outside(index) => is_outside(alloc, memory, self, index),
            Trial::ReadOnly => {
                is_refused(alloc, memory, self) && component_is(alloc, memory, self, 1, zero)
            }
            Trial::OneWritten => {
                write(alloc, memory, self, 1)
                    && component_is(alloc, memory, self, 1, SEVEN)
                    && component_is(alloc, memory, self, 0, zero)
            }
        }
    }
}

/// Whether something is there on which a trial ends so.
fn holds<W: Whole + Drop>(
    alloc: Global,
    memory: &mut Memory,
    whole: Option<W>,
    trial: Trial,
) -> bool {
    match whole {
        Some(whole) => whole.holds(alloc, memory, trial),
        None => false,
    }
}

/// Allocates the vector of three zeros; whether it was.
fn fill(alloc: Global, memory: &mut Memory) -> bool {
    match call(alloc, "vec3", &[LiteralInstance::U32(0)]).ok() {
        Some(value) => memory.allocate(value).is_ok(),
        None => false,
    }
}

fn first_cell(alloc: Global, ty: Type, access: AccessMode) -> RefInstance {
    let path = Items::new(alloc);
    let space = AddressSpace::Function;
    RefInstance {
        cell: 0,
        path,
        ty,
        space,
        access,
    }
}

/// The reference to the first cell, of the type of what it holds.
fn first(alloc: Global, memory: &Memory, access: AccessMode) -> Option<RefInstance> {
    let ty = memory.as_slice().first()?.ty(alloc).ok()?;
    Some(first_cell(alloc, ty, access))
}

fn is_so(alloc: Global, access: AccessMode, trial: Trial) -> bool {
    let mut memory = Memory::new(alloc);
    if fill(alloc, &mut memory) {
        let whole = first(alloc, &memory, access);
        holds(alloc, &mut memory, whole, trial)
    } else {
        false
    }
}

#[test]
fn views_stay_inside(rt: HostRuntime) -> Result<(), Fail> {
    let alloc = rt.alloc();
    assert!(rt; is_so(alloc, AccessMode::Read, Trial::Outside(3)));
    assert!(rt; is_so(alloc, AccessMode::Read, Trial::Outside(-1)));
    assert!(rt; !is_so(alloc, AccessMode::Read, Trial::Outside(2)));
    Ok(())
}

#[test]
fn writes_need_access(rt: HostRuntime) -> Result<(), Fail> {
    assert!(rt; is_so(rt.alloc(), AccessMode::Read, Trial::ReadOnly));
    Ok(())
}

#[test]
fn writes_change_one_place(rt: HostRuntime) -> Result<(), Fail> {
    assert!(rt; is_so(rt.alloc(), AccessMode::ReadWrite, Trial::OneWritten));
    Ok(())
}
