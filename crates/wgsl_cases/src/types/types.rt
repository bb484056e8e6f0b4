//! Types, their operators, conversions, layouts, constructors and templates.

use crate::types::reading::{list_of, literal_of, struct_of};
use std::alloc::{AllocError, Global};
use std::fmt::{Debug, Display};
use std::str::FromStr;
use wgsl_base::CloneIn;
use wgsl_types::{
    AddressSpace, ArrayTemplate, AssignmentOperator, BinaryOperator, BuiltinValue, Convert,
    Enumerant, Error, LiteralInstance, PtrTemplate, TpltParam, Ty, Type, TypeOperators,
    UnaryOperator, VecTemplate, array_t, builtin_type, conversion_rank, convert, convert_all,
    convert_all_inner_to, convert_all_to, convert_all_ty, convert_inner, convert_ty, is_ctor,
    type_ctor, type_unary_op, typecheck_struct_ctor, vec_t,
};
use wgsl_words::is_builtin_name;

/// The text of what a call gives, or of its refusal.
pub fn told<T: Display + Drop, E: Display + Drop>(
    alloc: Global,
    answer: Result<T, E>,
) -> Result<String, AllocError> {
    match answer {
        Ok(given) => given.to_string(alloc),
        Err(error) => error.to_string(alloc),
    }
}

/// The same, of copies.
fn told_of_copies<T, E>(alloc: Global, answer: Result<T, E>) -> Result<String, AllocError>
where
    T: CloneIn + PartialEq + Display + Drop,
    E: CloneIn + PartialEq + Display + Drop,
{
    match answer {
        Ok(given) => told_of_copy(alloc, &given),
        Err(error) => told_of_copy(alloc, &error),
    }
}

/// The text of a copy, if it equals what it copies.
pub fn told_of_copy<T: CloneIn + PartialEq + Display + Drop>(
    alloc: Global,
    value: &T,
) -> Result<String, AllocError> {
    let copy = value.clone_in(alloc)?;
    if copy == *value {
        copy.to_string(alloc)
    } else {
        String::from_str(alloc, "a copy differs")
    }
}

/// The text of what is found, or `none`.
pub fn maybe<T: Display + Drop>(
    alloc: Global,
    found: Result<Option<T>, AllocError>,
) -> Result<String, AllocError> {
    match found? {
        Some(found) => found.to_string(alloc),
        None => String::from_str(alloc, "none"),
    }
}

/// What a call gives, in the form of `Debug`.
fn shown<T: Debug + Drop>(
    alloc: Global,
    answer: Result<T, AllocError>,
) -> Result<String, AllocError> {
    let given = answer?;
    format!(in alloc; "{given:?}")
}

/// What the method of an operator answers.
fn binary(alloc: Global, sign: &str, left: &Type, right: &Type) -> Result<Type, Error> {
    match sign {
        "||" => left.op_or(alloc, right),
        "&&" => left.op_and(alloc, right),
        "+" => left.op_add(alloc, right),
        "-" => left.op_sub(alloc, right),
        "*" => left.op_mul(alloc, right),
        "/" => left.op_div(alloc, right),
        "%" => left.op_rem(alloc, right),
        "==" => left.op_eq(alloc, right),
        "!=" => left.op_ne(alloc, right),
        "<" => left.op_lt(alloc, right),
        "<=" => left.op_le(alloc, right),
        ">" => left.op_gt(alloc, right),
        ">=" => left.op_ge(alloc, right),
        "|" => left.op_bitor(alloc, right),
        "&" => left.op_bitand(alloc, right),
        "^" => left.op_bitxor(alloc, right),
        "<<" => left.op_shl(alloc, right),
        _ => left.op_shr(alloc, right),
    }
}

/// What a call on one type answers, as a type or a refusal.
fn unary(alloc: Global, call: &str, ty: &Type) -> Result<Type, Error> {
    match call {
        "op_neg" => ty.op_neg(alloc),
        "op_not" => ty.op_not(alloc),
        "op_bitnot" => ty.op_bitnot(alloc),
        "op_ref" => ty.op_ref(alloc),
        "op_deref" => ty.op_deref(alloc),
        _ => type_unary_op(alloc, UnaryOperator::BitwiseComplement, ty),
    }
}

/// The size, the alignment and the least size of a type.
fn layout(alloc: Global, ty: &Type) -> Result<String, AllocError> {
    let (size, align, least) = (ty.size_of(), ty.align_of(), ty.min_size_of());
    format!(in alloc; "{size:?} {align:?} {least:?}")
}

/// A call on one type.
fn of_one(alloc: Global, call: &str, ty: &Type) -> Result<String, AllocError> {
    match call {
        "layout" => layout(alloc, ty),
        "zero_value" => told(alloc, LiteralInstance::zero_value(alloc, ty)),
        "type" => told_of_copy(alloc, ty),
        "loaded" => told(alloc, ty.loaded(alloc)),
        "concretize" => told(alloc, ty.concretize(alloc)),
        "Convert::concretize" => told(alloc, Convert::concretize(ty, alloc)),
        call => told_of_copies(alloc, unary(alloc, call, ty)),
    }
}

/// A call on two types.
fn of_two(alloc: Global, call: &str, from: &Type, to: &Type) -> Result<String, AllocError> {
    match call {
        "conversion_rank" => shown(alloc, Ok(conversion_rank(from, to))),
        "is_convertible_to" => shown(alloc, Ok(from.is_convertible_to(to))),
        "convert_ty" => maybe(alloc, Ok(convert_ty(from, to))),
        "convert_inner_to" => maybe(alloc, from.convert_inner_to(alloc, to)),
        "convert" => shown(alloc, convert(alloc, from, to)),
        "convert_inner" => shown(alloc, convert_inner(alloc, from, to)),
        sign => told_of_copies(alloc, binary(alloc, sign, from, to)),
    }
}

/// A call on a list of types.
fn of_list(alloc: Global, call: &str, types: &[Type]) -> Result<String, AllocError> {
    match call {
        "convert_all_ty" => maybe(alloc, Ok(convert_all_ty(types))),
        "convert_all" => shown(alloc, convert_all(alloc, types)),
        "convert_all_to i32" => shown(alloc, convert_all_to(alloc, types, &Type::I32)),
        _ => shown(alloc, convert_all_inner_to(alloc, types, &Type::U32)),
    }
}

/// What a template says, or a refusal of its arguments, and whether its copy equals it.
fn of_template<T, E>(alloc: Global, answer: Result<T, E>) -> Result<String, AllocError>
where
    T: CloneIn + PartialEq + Debug + Drop,
    E: Display + Drop,
{
    match answer {
        Ok(template) => {
            let copy = template.clone_in(alloc)?;
            let same = copy == template;
            format!(in alloc; "{template:?} {same}")
        }
        Err(error) => error.to_string(alloc),
    }
}

fn template(alloc: Global, name: &str, params: &[TpltParam]) -> Result<String, AllocError> {
    match name {
        "vec" => of_template(alloc, VecTemplate::parse(alloc, params)),
        "array" => of_template(alloc, ArrayTemplate::parse(alloc, params)),
        _ => of_template(alloc, PtrTemplate::parse(alloc, params)),
    }
}

/// A constructor by its name, without a template.
fn constructed(alloc: Global, name: &str, args: &[Type]) -> Result<Type, Error> {
    match name {
        "array_t" => array_t(alloc, None, args),
        "vec3_t" => vec_t(alloc, 3, None, args),
        _ => type_ctor(alloc, name, None, args),
    }
}

fn array_of_two(alloc: Global, args: &[Type]) -> Result<Type, Error> {
    let template = ArrayTemplate::new(Type::U32, Some(2));
    array_t(alloc, Some(&template), args)
}

fn vector_of_i32(alloc: Global, count: u8, args: &[Type]) -> Result<Type, Error> {
    let template = VecTemplate {
        component: Type::I32,
    };
    vec_t(alloc, count, Some(&template), args)
}

/// A constructor by its name, with the template of `i32` or of two `u32`.
fn templated(alloc: Global, name: &str, args: &[Type]) -> Result<Type, Error> {
    match name {
        "array_t" => array_of_two(alloc, args),
        "vec2_t" => vector_of_i32(alloc, 2, args),
        _ => vector_of_i32(alloc, 3, args),
    }
}

fn parsed<T: FromStr + Debug + Drop>(alloc: Global, word: &str) -> Result<String, AllocError>
where
    T::Err: Drop,
{
    shown(alloc, Ok(word.parse::<T>().ok()))
}

fn told_of_template(alloc: Global, template: &ArrayTemplate) -> Result<String, AllocError> {
    format!(in alloc; "{:?} {}", template.n(), template.inner_ty())
}

fn array_template(alloc: Global) -> Result<String, AllocError> {
    let template = ArrayTemplate::new(Type::U32, Some(2));
    told_of_template(alloc, &template)
}

/// The value that a word spells, or what is told of it.
fn of_word(alloc: Global, call: &str, word: &str) -> Result<String, AllocError> {
    match call {
        "Enumerant" => parsed::<Enumerant>(alloc, word),
        "AddressSpace" => parsed::<AddressSpace>(alloc, word),
        "BuiltinValue" => parsed::<BuiltinValue>(alloc, word),
        "UnaryOperator" => parsed::<UnaryOperator>(alloc, word),
        "BinaryOperator" => parsed::<BinaryOperator>(alloc, word),
        "AssignmentOperator" => parsed::<AssignmentOperator>(alloc, word),
        "is_ctor" => shown(alloc, Ok(is_ctor(word))),
        "is_builtin_name" => shown(alloc, Ok(is_builtin_name(word))),
        "builtin_type" => told(alloc, builtin_type(alloc, word, None)),
        "ArrayTemplate of two" => array_template(alloc),
        _ => shown(alloc, Ok(AddressSpace::Uniform.default_access_mode())),
    }
}

fn of_literal(alloc: Global, call: &str, text: &str) -> Result<String, AllocError> {
    match literal_of(text) {
        Some(literal) if call == "ty" => told(alloc, literal.ty(alloc)),
        Some(literal) => told(alloc, literal.inner_ty(alloc)),
        None => String::from_str(alloc, "no literal"),
    }
}

/// Whether a call is refused, and how.
fn refused<E: Display + Drop>(alloc: Global, answer: Result<(), E>) -> Result<String, AllocError> {
    match answer {
        Ok(()) => String::from_str(alloc, "fine"),
        Err(error) => error.to_string(alloc),
    }
}

/// A call on one type or on two.
fn of_few(alloc: Global, call: &str, types: &[Type]) -> Result<String, AllocError> {
    match types {
        [ty] => of_one(alloc, call, ty),
        [from, to] => of_two(alloc, call, from, to),
        _ => String::from_str(alloc, "no types"),
    }
}

/// A call on types.
fn of_types(alloc: Global, group: &str, call: &str, types: &[Type]) -> Result<String, AllocError> {
    match group {
        "list" => of_list(alloc, call, types),
        "constructor" => told_of_copies(alloc, constructed(alloc, call, types)),
        "templated" => told(alloc, templated(alloc, call, types)),
        _ => of_few(alloc, call, types),
    }
}

fn with_types(alloc: Global, group: &str, call: &str, with: &str) -> Result<String, AllocError> {
    let separator = if group == "two" { "\t" } else { "; " };
    let types = list_of(alloc, with, separator)?;
    of_types(alloc, group, call, types.as_slice())
}

/// A call with arguments of a template.
fn with_params(alloc: Global, group: &str, call: &str, with: &str) -> Result<String, AllocError> {
    let params = list_of(alloc, with, "; ")?;
    if group == "template" {
        template(alloc, call, params.as_slice())
    } else {
        told(alloc, builtin_type(alloc, call, Some(params.as_slice())))
    }
}

fn made_of(alloc: Global, made: &str, args: &[Type]) -> Result<String, AllocError> {
    let made = struct_of(alloc, made)?;
    refused(alloc, typecheck_struct_ctor(alloc, &made, args))
}

fn of_struct(alloc: Global, made: &str, args: &str) -> Result<String, AllocError> {
    let args = list_of(alloc, args, "; ")?;
    made_of(alloc, made, args.as_slice())
}

pub fn answer(alloc: Global, group: &str, call: &str, with: &str) -> Result<String, AllocError> {
    match group {
        "literal" => of_literal(alloc, call, with),
        "template" | "builtin_type" => with_params(alloc, group, call, with),
        "struct" => of_struct(alloc, call, with),
        "word" => of_word(alloc, call, with),
        _ => with_types(alloc, group, call, with),
    }
}
