//! Conversions of several things to one type.

ghost use Rattle.std.specs.Prelude.{◌≡◌, Some, map, IfOk};
ghost use Rattle.wgsl_shader_type.specs.Rank.{common_of};
ghost use Rattle.wgsl_types.specs.Convert.{both_converted, all_converted, AllAtCommonType};

use crate::typed::{Convert, Ty};
use std::alloc::{AllocError, Global};
use wgsl_base::Items;
use wgsl_shader_type::{Type, convert_all_ty, convert_ty};

/// Two things at a type, or nothing where one doesn't convert.
fn convert_both<T: Convert>(
    alloc: Global,
    first: &T,
    second: &T,
    ty: &Type,
) -> Result<Option<(T, T)>, AllocError>
    ensures { IfOk result (λ found. found ≡ both_converted T.converted T.converted first.now second.now (Some ty.now)) }
{
    let Some(left) = first.convert_to(alloc, ty)? else {
        return Ok(None);
    };
    match second.convert_to(alloc, ty)? {
        Some(right) => Ok(Some((left, right))),
        None => Ok(None),
    }
}

/// Two things at the common type of one type and the second thing's, or nothing where these have none.
fn convert_with<T: Convert>(
    alloc: Global,
    first: &T,
    second: &T,
    first_type: &Type,
) -> Result<Option<(T, T)>, AllocError>
    ensures { IfOk result (λ found. found
        ≡ both_converted T.converted T.converted first.now second.now (common_of first_type.now (T.type_of second.now))) }
{
    let second_type = second.ty(alloc)?;
    let found = match convert_ty(first_type, &second_type) {
        Some(common) => convert_both(alloc, first, second, common),
        None => Ok(None),
    };
    drop(second_type);
    found
}

/// Two things at the common type of theirs, or nothing where they have none.
pub fn convert<T: Convert>(
    alloc: Global,
    first: &T,
    second: &T,
) -> Result<Option<(T, T)>, AllocError>
    ensures { IfOk result (λ found. found
        ≡ both_converted T.converted T.converted first.now second.now (common_of (T.type_of first.now) (T.type_of second.now))) }
{
    let first_type = first.ty(alloc)?;
    let found = convert_with(alloc, first, second, &first_type);
    drop(first_type);
    found
}

/// Two things with their inner types converted to a type, or nothing where one doesn't convert.
fn convert_both_inner<T: Convert, U: Convert>(
    alloc: Global,
    first: &T,
    second: &U,
    ty: &Type,
) -> Result<Option<(T, U)>, AllocError>
    ensures { IfOk result (λ found. found ≡ both_converted T.inner_converted U.inner_converted first.now second.now (Some ty.now)) }
{
    let Some(left) = first.convert_inner_to(alloc, ty)? else {
        return Ok(None);
    };
    match second.convert_inner_to(alloc, ty)? {
        Some(right) => Ok(Some((left, right))),
        None => Ok(None),
    }
}

/// Two things with their inner types converted to the common type of one type and the second thing's inner type, or nothing where these have none.
fn convert_inner_with<T: Convert, U: Convert>(
    alloc: Global,
    first: &T,
    second: &U,
    first_type: &Type,
) -> Result<Option<(T, U)>, AllocError>
    ensures { IfOk result (λ found. found
        ≡ both_converted T.inner_converted U.inner_converted first.now second.now (common_of first_type.now (U.inner_type_of second.now))) }
{
    let second_type = second.inner_ty(alloc)?;
    let found = match convert_ty(first_type, &second_type) {
        Some(common) => convert_both_inner(alloc, first, second, common),
        None => Ok(None),
    };
    drop(second_type);
    found
}

/// Two things with their inner types converted to the common type of these, or nothing where they have none.
pub fn convert_inner<T: Convert, U: Convert>(
    alloc: Global,
    first: &T,
    second: &U,
) -> Result<Option<(T, U)>, AllocError>
    ensures { IfOk result (λ found. found
        ≡ both_converted T.inner_converted U.inner_converted first.now second.now (common_of (T.inner_type_of first.now) (U.inner_type_of second.now))) }
{
    let first_type = first.inner_ty(alloc)?;
    let found = convert_inner_with(alloc, first, second, &first_type);
    drop(first_type);
    found
}

/// Each thing at a type, or nothing where one doesn't convert.
pub fn convert_all_to<T: Convert>(
    alloc: Global,
    things: &[T],
    ty: &Type,
) -> Result<Option<Items<T>>, AllocError>
    ensures { IfOk result (λ found. found ≡ all_converted T.converted things.now ty.now) }
{
    let mut made = Items::new(alloc);
    for thing in things {
        match thing.convert_to(alloc, ty)? {
            Some(at) => made.push(at)?,
            None => return Ok(None),
        }
    }
    Ok(Some(made))
}

/// Each thing with its inner type converted, or nothing where one doesn't convert.
pub fn convert_all_inner_to<T: Convert>(
    alloc: Global,
    things: &[T],
    ty: &Type,
) -> Result<Option<Items<T>>, AllocError>
    ensures { IfOk result (λ found. found ≡ all_converted T.inner_converted things.now ty.now) }
{
    let mut made = Items::new(alloc);
    for thing in things {
        match thing.convert_inner_to(alloc, ty)? {
            Some(at) => made.push(at)?,
            None => return Ok(None),
        }
    }
    Ok(Some(made))
}

/// The type of each thing.
fn types_of<T: Ty>(alloc: Global, things: &[T]) -> Result<Items<Type>, AllocError>
    ensures { IfOk result (λ types. types ≡ map T.type_of things.now) }
{
    let mut types = Items::new(alloc);
    for thing in things {
        types.push(thing.ty(alloc)?)?;
    }
    Ok(types)
}

/// Each thing at the common type of all, or nothing where they have none.
pub fn convert_all<T: Convert>(alloc: Global, things: &[T]) -> Result<Option<Items<T>>, AllocError>
    ensures { IfOk result (AllAtCommonType T.converted (map T.type_of things.now) things.now) }
{
    let types = types_of(alloc, things)?;
    match convert_all_ty(types.as_slice()) {
        Some(common) => convert_all_to(alloc, things, common),
        None => Ok(None),
    }
}
