//! Constructors.

use crate::memory::answer::{Kind, error_kind, gives, instances};
use std::alloc::Global;
use std::test::Fail;
use wgsl_instance::Instance;
use wgsl_instance_operators::call_ctor;
use wgsl_shader_type::{Error, LiteralInstance};

/// What a constructor of scalars gives.
pub fn call(alloc: Global, name: &str, scalars: &[LiteralInstance]) -> Result<Instance, Error> {
    let arguments = instances(alloc, scalars)?;
    call_ctor(alloc, name, None, arguments.as_slice())
}

/// Whether a constructor of nothing gives this scalar.
fn zero_is(alloc: Global, name: &str, wanted: LiteralInstance) -> bool {
    gives(call(alloc, name, &[]), wanted)
}

/// Whether a constructor of one scalar gives this scalar.
fn cast_is(alloc: Global, name: &str, scalar: LiteralInstance, wanted: LiteralInstance) -> bool {
    gives(call(alloc, name, &[scalar]), wanted)
}

/// Whether a scalar is too large for a type.
fn overflows(alloc: Global, name: &str, scalar: LiteralInstance) -> bool {
    error_kind(call(alloc, name, &[scalar])) == Kind::ConvOverflow
}

/// Whether a constructor of nothing is not evaluated yet.
fn is_not_yet(alloc: Global, name: &str) -> bool {
    error_kind(call(alloc, name, &[])) == Kind::Todo
}

/// Whether there is no such call with two scalars.
fn is_no_call(alloc: Global, name: &str, first: LiteralInstance, second: LiteralInstance) -> bool {
    error_kind(call(alloc, name, &[first, second])) == Kind::Signature
}

#[test]
fn scalars_are_cast(rt: HostRuntime) -> Result<(), Fail> {
    let alloc = rt.alloc();
    let largest = LiteralInstance::U32(4294967295);
    let truth = LiteralInstance::Bool(true);
    assert!(rt; cast_is(alloc, "i32", largest, LiteralInstance::I32(-1)));
    assert!(rt; cast_is(alloc, "bool", largest, truth));
    assert!(rt; cast_is(alloc, "u32", truth, LiteralInstance::U32(1)));
    assert!(rt; zero_is(alloc, "u32", LiteralInstance::U32(0)));
    Ok(())
}

#[test]
fn what_does_not_fit_is_refused(rt: HostRuntime) -> Result<(), Fail> {
    let alloc = rt.alloc();
    let one = LiteralInstance::U32(1);
    assert!(rt; overflows(alloc, "u32", LiteralInstance::AbstractInt(5000000000)));
    assert!(rt; is_not_yet(alloc, "array"));
    assert!(rt; is_no_call(alloc, "vec3", one, one));
    Ok(())
}
