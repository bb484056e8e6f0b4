//! Calls of constructors (WGSL, "Value Constructor Built-in Functions").

ghost use Rattle.std.specs.Prelude.{◌≡◌, ◌++◌, None, IfOk, codes};
ghost use Rattle.std.specs.Fmt.{decimal};
ghost use Rattle.std.specs.Option.{option_copied};
ghost use Rattle.wgsl_instance.specs.Answer.{Answers};
ghost use Rattle.wgsl_types.specs.Constructor.{AnswersCall, AnswersMade};
ghost use Rattle.wgsl_types.specs.Names.{builtin_name};
ghost use Rattle.wgsl_types.specs.declared.constructor.Constructor.TheVariants as constructor;
ghost use Rattle.wgsl_instance_operators.specs.Built as spec;

use crate::constructors::build::build;
use std::alloc::{AllocError, Global};
use wgsl_base::Items;
use wgsl_instance::Instance;
use wgsl_shader_type::{Error, TpltParam, Type};
use wgsl_types::{ArrayTemplate, VecTemplate, array_t, type_ctor, vec_t};

/// The types of values.
pub(crate) fn types_of(alloc: Global, args: &[Instance]) -> Result<Items<Type>, AllocError>
    ensures { IfOk result (λ types. types ≡ spec.types_of args.now) }
{
    let mut types = Items::new(alloc);
    for arg in args {
        types.push(arg.ty(alloc)?)?;
    }
    Ok(types)
}

/// The value of a type, which it takes, that is built of arguments.
fn build_of(alloc: Global, ty: Type, args: &[Instance]) -> Result<Instance, Error>
    ensures { Answers (spec.built ty args.now) result }
{
    let built = build(alloc, &ty, args);
    drop(ty);
    built
}

/// What the constructor of a name gives. It makes the type that `type_ctor` makes of the arguments' types, and what that refuses is
/// refused. Without arguments it is the type's zero value. A scalar is cast: a Bool to 1 or 0, a number to whether it is nonzero,
/// and between `i32` and `u32` the bits stay. A vector's components are cast, where one stands for all, and an array's elements are
/// converted; a number that doesn't fit is `ConvOverflow`, a floating type `Todo`.
pub fn call_ctor(
    alloc: Global,
    name: &str,
    template: Option<&[TpltParam]>,
    args: &[Instance],
) -> Result<Instance, Error>
    ensures { spec.Constructs (AnswersCall name.now (builtin_name name.now) (option_copied template.entry)) args.now result }
{
    let types = types_of(alloc, args)?;
    let ty = type_ctor(alloc, name, template, types.as_slice());
    drop(types);
    build_of(alloc, ty?, args)
}

/// `bool`: of nothing `false`, of one scalar whether it is nonzero. Any other list is `Signature`.
pub fn bool(alloc: Global, args: &[Instance]) -> Result<Instance, Error>
    ensures { spec.Constructs (AnswersCall (codes "bool") (builtin_name (codes "bool")) None) args.now result }
{
    call_ctor(alloc, "bool", None, args)
}

/// `i32`: of nothing 0, of one scalar that scalar cast. Any other list is `Signature`.
pub fn i32(alloc: Global, args: &[Instance]) -> Result<Instance, Error>
    ensures { spec.Constructs (AnswersCall (codes "i32") (builtin_name (codes "i32")) None) args.now result }
{
    call_ctor(alloc, "i32", None, args)
}

/// `u32`: of nothing 0, of one scalar that scalar cast. Any other list is `Signature`.
pub fn u32(alloc: Global, args: &[Instance]) -> Result<Instance, Error>
    ensures { spec.Constructs (AnswersCall (codes "u32") (builtin_name (codes "u32")) None) args.now result }
{
    call_ctor(alloc, "u32", None, args)
}

/// `vecN`, with a template or without one: of one scalar for all components, of one vector of N, or of parts that have N components
/// in all. Without a template the components have the parts' common type. Any other list is `Signature`.
pub fn vec(
    alloc: Global,
    n: u8,
    template: Option<&VecTemplate>,
    args: &[Instance],
) -> Result<Instance, Error>
    ensures { spec.Constructs (AnswersMade (codes "vec" ++ decimal n) None (constructor.Vector n (option_copied template.entry))) args.now result }
{
    let types = types_of(alloc, args)?;
    let ty = vec_t(alloc, n, template, types.as_slice());
    drop(types);
    build_of(alloc, ty?, args)
}

/// `array`, with a template or without one: of its elements, converted to the template's type or else to their common type. An array
/// of no elements is `Todo`, any other list that makes none `Signature`.
pub fn array(
    alloc: Global,
    template: Option<&ArrayTemplate>,
    args: &[Instance],
) -> Result<Instance, Error>
    ensures { spec.Constructs (AnswersMade (codes "array") None (constructor.Array (option_copied template.entry))) args.now result }
{
    let types = types_of(alloc, args)?;
    let ty = array_t(alloc, template, types.as_slice());
    drop(types);
    build_of(alloc, ty?, args)
}
