//! Types that are written in full.

use crate::replacing::{put_type, put_type_of};
use wgsl_base::OrOutOfMemory;
use wgsl_eval::{Evaluator, Stop};
use wgsl_expressions::TypeExpression;
use wgsl_shader_type::{Error, Type};
use wgsl_to_expr::type_to_type_expression;

/// A type as it is written, in full.
pub fn written_type(evaluator: &mut Evaluator<'_>, ty: &Type) -> Result<TypeExpression, Stop> {
    let alloc = evaluator.alloc();
    match type_to_type_expression(alloc, ty) {
        Ok(written) => Ok(written),
        Err(OrOutOfMemory::OutOfMemory) => Err(Stop::OutOfMemory),
        Err(OrOutOfMemory::Error(part)) => {
            let part = part.clone(alloc)?;
            evaluator.answered(Err(Error::NotConstructible(part)))
        }
    }
}

/// What a type expression means is written in its place. The type that it means is the answer.
pub fn type_of_written(
    evaluator: &mut Evaluator<'_>,
    ty: &mut TypeExpression,
) -> Result<Type, Stop> {
    let meant = evaluator.meant_type(ty)?;
    let written = written_type(evaluator, &meant)?;
    put_type(ty, written);
    Ok(meant)
}

/// What a type expression means is written in its place.
pub fn fold_type(evaluator: &mut Evaluator<'_>, ty: &mut TypeExpression) -> Result<(), Stop> {
    drop(type_of_written(evaluator, ty)?);
    Ok(())
}

/// What the type of a result means is written in its place, where there is one. The type is the answer.
pub fn fold_maybe_type(
    evaluator: &mut Evaluator<'_>,
    ty: &mut Option<TypeExpression>,
) -> Result<Option<Type>, Stop> {
    match ty {
        None => Ok(None),
        Some(ty) => Ok(Some(type_of_written(evaluator, ty)?)),
    }
}

/// Writes a type as that of a declaration.
pub(crate) fn write_type(
    evaluator: &mut Evaluator<'_>,
    place: &mut Option<TypeExpression>,
    ty: &Type,
) -> Result<(), Stop> {
    let written = written_type(evaluator, ty)?;
    put_type_of(place, written);
    Ok(())
}
