//! The types that constructors make.

ghost use Rattle.std.specs.Prelude.{◌≡◌, ℕ, [], ◌++◌, Some, None, ◌==◌, ◌⊎◌, IsTrue, ◌↔◌, All, map, sum, IfOk, MatchOption, MatchResult, codes};
ghost use Rattle.std.specs.Fmt.{decimal};
ghost use Rattle.std.specs.List.{list_all};
ghost use Rattle.std.specs.Option.{option_copied};
ghost use Rattle.wgsl_shader_type.specs.Class.{is_scalar};
ghost use Rattle.wgsl_shader_type.specs.Conversion.{Converts};
ghost use Rattle.wgsl_shader_type.specs.declared.tree.ShaderType.TheVariants as type;
ghost use Rattle.wgsl_types.specs.Constructor as spec;
ghost use Rattle.wgsl_types.specs.Names.{builtin_name};
ghost use Rattle.wgsl_types.specs.Template.{IsTemplateArgs, IsArrayTemplateFault};

use crate::names::{BuiltinName, builtin_name};
use crate::template::{ArrayTemplate, VecTemplate};
use std::alloc::{AllocError, Global};
use wgsl_base::{Boxed, CloneIn, Items, Text};
use wgsl_shader_type::{CallSignature, Error, StructType, TpltParam, Type, convert_all_ty};

/// What makes a value, once its name and its template are read.
#[derive(Debug, Drop, PartialEq)]
pub enum Constructor {
    /// A scalar type.
    Scalar(Type),
    /// How many components the vector has, and their type, where it is given.
    Vector(u8, Option<VecTemplate>),
    /// The elements' type and their number, where they are given.
    Array(Option<ArrayTemplate>),
}

/// Whether the arguments are the values of a struct's members, or none for its zero value. Another number of them is `ParamCount`, the first that doesn't convert to its member's type `ParamType`.
pub fn typecheck_struct_ctor(
    alloc: Global,
    struct_type: &StructType,
    args: &[Type],
) -> Result<(), Error>
    ensures { MatchResult result
        (λ _. spec.FitStruct struct_type.now.members args.now)
        (λ error. (error ≡ Error.OutOfMemory) ⊎ spec.IsStructFault struct_type.now.name struct_type.now.members args.now error) }
{
    if args.is_empty() {
        return Ok(());
    }
    let members = struct_type.members.as_slice();
    if members.len() != args.len() {
        let name = struct_type.name.clone_in(alloc)?;
        return Err(Error::ParamCount(name, members.len(), args.len()));
    }
    for i in 0..members.len() {
        let member = &members[i];
        if !args[i].is_convertible_to(&member.ty) {
            let expected = member.ty.clone(alloc)?;
            let given = args[i].clone(alloc)?;
            return Err(Error::ParamType(expected, given));
        }
    }
    Ok(())
}

/// Whether each type converts to one.
fn all_convert(args: &[Type], to: &Type) -> bool
    ensures { IsTrue result ↔ All (λ arg. Converts arg to.now) args.now }
{
    for arg in args {
        if !arg.is_convertible_to(to) {
            return false;
        }
    }
    true
}

fn types_in(alloc: Global, args: &[Type]) -> Result<Items<Type>, AllocError>
    ensures { IfOk result (λ types. types ≡ args.now) }
{
    let mut types = Items::new(alloc);
    for arg in args {
        types.push(arg.clone(alloc)?)?;
    }
    Ok(types)
}

fn params_in(
    alloc: Global,
    template: Option<&[TpltParam]>,
) -> Result<Option<Items<TpltParam>>, AllocError>
    ensures { IfOk result (λ params. params ≡ option_copied template.entry) }
{
    match template {
        None => Ok(None),
        Some(given) => {
            let mut params = Items::new(alloc);
            for param in given {
                params.push(param.clone(alloc)?)?;
            }
            Ok(Some(params))
        }
    }
}

/// The refusal of a call that no constructor takes.
fn call(
    alloc: Global,
    name: &str,
    template: Option<&[TpltParam]>,
    args: &[Type],
) -> Result<Error, AllocError>
    ensures { IfOk result (λ fault. fault ≡ spec.call name.now (option_copied template.entry) args.now) }
{
    let name = Text::from_str(alloc, name)?;
    let tplt = params_in(alloc, template)?;
    let args = types_in(alloc, args)?;
    Ok(Error::Signature(CallSignature { name, tplt, args }))
}

fn array_of(alloc: Global, element: &Type, count: usize) -> Result<Type, AllocError>
    ensures { IfOk result (λ made. made ≡ type.Array element.now (Some count)) }
{
    let element = element.clone(alloc)?;
    Ok(Type::Array(Boxed::new(alloc, element)?, Some(count)))
}

/// How many elements an array has, by its template's count and the number of its arguments.
fn array_length(count: Option<usize>, given: usize) -> Option<usize>
    ensures { result ≡ spec.array_length count given }
{
    match count {
        None => { if given > 0 { Some(given) } else { None } }
        Some(n) => {
            if n > 0 && (given == 0 || given == n) {
                Some(n)
            } else {
                None
            }
        }
    }
}

/// An array of as many elements as there are arguments, at the common type of these.
fn bare_array(alloc: Global, args: &[Type]) -> Result<Option<Type>, AllocError>
    ensures { IfOk result (λ found. MatchOption found (spec.MakesNothing (Constructor.Array None) args.now) (spec.IsArrayMade None args.now)) }
{
    match convert_all_ty(args) {
        None => Ok(None),
        Some(common) => {
            let made = array_of(alloc, common, args.len())?;
            Ok(Some(made))
        }
    }
}

/// An array of a template.
fn templated_array(
    alloc: Global,
    template: &ArrayTemplate,
    args: &[Type],
) -> Result<Option<Type>, AllocError>
    ensures { IfOk result (λ found. MatchOption found
        (spec.MakesNothing (Constructor.Array (Some template.now)) args.now)
        (spec.IsArrayMade (Some template.now) args.now)) }
{
    match array_length(template.count, args.len()) {
        None => Ok(None),
        Some(n) => {
            if all_convert(args, &template.element) {
                let made = array_of(alloc, &template.element, n)?;
                Ok(Some(made))
            } else {
                Ok(None)
            }
        }
    }
}

/// The array that arguments make, if they make one.
fn array_made(
    alloc: Global,
    template: Option<&ArrayTemplate>,
    args: &[Type],
) -> Result<Option<Type>, AllocError>
    ensures { IfOk result (λ found. MatchOption found
        (spec.MakesNothing (Constructor.Array (option_copied template.entry)) args.now)
        (spec.IsArrayMade (option_copied template.entry) args.now)) }
{
    match template {
        None => bare_array(alloc, args),
        Some(template) => templated_array(alloc, template, args),
    }
}

fn is_of_none(template: Option<&ArrayTemplate>, args: &[Type]) -> bool
    ensures { result ≡ spec.is_of_none (option_copied template.entry) args.now }
{
    match args {
        [] => match template {
            None => true,
            Some(template) => template.count == Some(0),
        },
        _ => false,
    }
}

/// What is refused where arguments make no array.
fn array_fault(
    alloc: Global,
    name: &str,
    params: Option<&[TpltParam]>,
    template: Option<&ArrayTemplate>,
    args: &[Type],
) -> Result<Error, AllocError>
    ensures { IfOk result (λ fault. fault
        ≡ spec.array_fault name.now (option_copied params.entry) (option_copied template.entry) args.now) }
{
    if is_of_none(template, args) {
        let name = Text::from_str(alloc, "array")?;
        Ok(Error::Todo(name))
    } else {
        call(alloc, name, params, args)
    }
}

/// The answer of an array's constructor, called by a name with arguments of a template.
fn array_answer(
    alloc: Global,
    name: &str,
    params: Option<&[TpltParam]>,
    template: Option<&ArrayTemplate>,
    args: &[Type],
) -> Result<Type, Error>
    ensures { spec.AnswersMade name.now (option_copied params.entry) (Constructor.Array (option_copied template.entry)) args.now result }
{
    match array_made(alloc, template, args)? {
        Some(made) => Ok(made),
        None => Err(array_fault(alloc, name, params, template, args)?),
    }
}

/// The type that an array's constructor makes. An array of no elements is `Todo`, other lists that make none are `Signature`, with the name `array` and no arguments of a template.
pub fn array_t(
    alloc: Global,
    template: Option<&ArrayTemplate>,
    args: &[Type],
) -> Result<Type, Error>
    ensures { spec.AnswersMade (codes "array") None (Constructor.Array (option_copied template.entry)) args.now result }
{
    array_answer(alloc, "array", None, template, args)
}

/// The type of the components that an argument brings to a vector.
fn component_of(ty: &Type) -> &Type
    ensures { result.now ≡ spec.component_of ty.now }
{
    match ty {
        Type::Vec(_, component) => component.get(),
        _ => ty,
    }
}

/// How many components an argument brings to a vector.
fn count_of(ty: &Type) -> u8
    ensures { result ≡ spec.count_of ty.now }
{
    match ty {
        Type::Vec(count, _) => *count,
        _ => 1,
    }
}

/// Whether arguments bring so many components in all.
fn has_total(n: u8, args: &[Type]) -> bool
    ensures { result ≡ (sum (map spec.count_of args.now) == n) }
{
    let mut rest = n;
    for arg in args {
        match rest.checked_sub(count_of(arg)) {
            Some(left) => rest = left,
            None => return false,
        }
    }
    rest == 0
}

fn fills(n: u8, args: &[Type]) -> bool
    ensures { result ≡ spec.fills n args.now }
{
    match args {
        [] => false,
        [arg] => count_of(arg) == 1 || count_of(arg) == n,
        _ => has_total(n, args),
    }
}

/// Whether the components of each argument are scalars.
fn are_scalars(args: &[Type]) -> bool
    ensures { result ≡ list_all (λ arg. is_scalar (spec.component_of arg)) args.now }
{
    args.iter().all(|arg| component_of(arg).is_scalar())
}

/// Whether arguments fill a vector with scalars.
fn are_parts(n: u8, args: &[Type]) -> bool
    ensures { result ≡ spec.are_parts n args.now }
{
    fills(n, args) && are_scalars(args)
}

fn is_whole(n: u8, args: &[Type]) -> bool
    ensures { result ≡ spec.is_whole n args.now }
{
    match args {
        [arg] => count_of(arg) == n,
        _ => false,
    }
}

/// Whether the components of each argument convert to a type.
fn parts_convert(args: &[Type], to: &Type) -> bool
    ensures { IsTrue result ↔ All (λ arg. Converts (spec.component_of arg) to.now) args.now }
{
    for arg in args {
        if !component_of(arg).is_convertible_to(to) {
            return false;
        }
    }
    true
}

/// Whether arguments make a vector of components of a given type.
fn fits_component(n: u8, component: &Type, args: &[Type]) -> bool
    ensures { IsTrue result ↔ spec.FitComponent n component.now args.now }
{
    if args.is_empty() {
        return true;
    }
    are_parts(n, args) && (is_whole(n, args) || parts_convert(args, component))
}

fn components_in(alloc: Global, args: &[Type]) -> Result<Items<Type>, AllocError>
    ensures { IfOk result (λ components. components ≡ map spec.component_of args.now) }
{
    let mut components = Items::new(alloc);
    for arg in args {
        components.push(component_of(arg).clone(alloc)?)?;
    }
    Ok(components)
}

/// The components' type of a vector for which none is given.
fn bare_component(alloc: Global, n: u8, args: &[Type]) -> Result<Option<Type>, AllocError>
    ensures { IfOk result (λ found. MatchOption found (spec.HasNoComponent n args.now) (spec.IsComponent n args.now)) }
{
    if args.is_empty() {
        return Ok(Some(Type::AbstractInt));
    }
    if !are_parts(n, args) {
        return Ok(None);
    }
    let components = components_in(alloc, args)?;
    match convert_all_ty(components.as_slice()) {
        None => Ok(None),
        Some(common) => {
            let component = common.clone(alloc)?;
            Ok(Some(component))
        }
    }
}

/// A vector of components of a given type.
fn vector_of(
    alloc: Global,
    n: u8,
    component: &Type,
    args: &[Type],
) -> Result<Option<Type>, AllocError>
    ensures { IfOk result (λ found. MatchOption found
        (spec.FitComponent n component.now args.now → ⊥)
        (λ made. (made ≡ type.Vec n component.now) × spec.FitComponent n component.now args.now)) }
{
    if !fits_component(n, component, args) {
        return Ok(None);
    }
    let component = component.clone(alloc)?;
    let component = Boxed::new(alloc, component)?;
    Ok(Some(Type::Vec(n, component)))
}

/// The vector that arguments make, if they make one.
fn vector_made(
    alloc: Global,
    n: u8,
    template: Option<&VecTemplate>,
    args: &[Type],
) -> Result<Option<Type>, AllocError>
    ensures { IfOk result (λ found. MatchOption found
        (spec.MakesNothing (Constructor.Vector n (option_copied template.entry)) args.now)
        (spec.IsVectorMade n (option_copied template.entry) args.now)) }
{
    match template {
        Some(template) => vector_of(alloc, n, &template.component, args),
        None => match bare_component(alloc, n, args)? {
            None => Ok(None),
            Some(component) => {
                let component = Boxed::new(alloc, component)?;
                Ok(Some(Type::Vec(n, component)))
            }
        },
    }
}

/// The answer of a vector's constructor, called by a name with arguments of a template.
fn vector_answer(
    alloc: Global,
    name: &str,
    params: Option<&[TpltParam]>,
    n: u8,
    template: Option<&VecTemplate>,
    args: &[Type],
) -> Result<Type, Error>
    ensures { spec.AnswersMade name.now (option_copied params.entry) (Constructor.Vector n (option_copied template.entry)) args.now result }
{
    match vector_made(alloc, n, template, args)? {
        Some(made) => Ok(made),
        None => Err(call(alloc, name, params, args)?),
    }
}

/// The type that a vector's constructor makes: of nothing, of one scalar for all components, of one vector of that length, or of parts that have as many components in all. Any other list is `Signature`, with the name `vec` and the number, and no arguments of a template.
pub fn vec_t(
    alloc: Global,
    n: u8,
    template: Option<&VecTemplate>,
    args: &[Type],
) -> Result<Type, Error>
    ensures { spec.AnswersMade (codes "vec" ++ decimal n) None (Constructor.Vector n (option_copied template.entry)) args.now result }
{
    let name = format!(in alloc; "vec{n}")?;
    vector_answer(alloc, name.as_str(), None, n, template, args)
}

fn takes_one(args: &[Type]) -> bool
    ensures { result ≡ spec.takes_one args.now }
{
    match args {
        [] => true,
        [arg] => arg.is_scalar(),
        _ => false,
    }
}

/// The answer of a scalar's constructor, called by a name with arguments of a template.
fn scalar_answer(
    alloc: Global,
    name: &str,
    params: Option<&[TpltParam]>,
    scalar: Type,
    args: &[Type],
) -> Result<Type, Error>
    ensures { spec.AnswersMade name.now (option_copied params.entry) (Constructor.Scalar scalar) args.now result }
{
    if takes_one(args) {
        return Ok(scalar);
    }
    drop(scalar);
    Err(call(alloc, name, params, args)?)
}

/// The constructor of a name without a template.
fn plain_constructor(alloc: Global, text: &str, builtin: BuiltinName) -> Result<Constructor, Error>
    ensures { MatchResult result
        (λ by. spec.named_constructor builtin None ≡ Some by)
        (λ fault. (fault ≡ Error.OutOfMemory) ⊎ ((spec.named_constructor builtin None ≡ None) × spec.IsNameFault text.now builtin None fault)) }
{
    match builtin {
        BuiltinName::Scalar(scalar) => Ok(Constructor::Scalar(scalar)),
        BuiltinName::Vector(n, Some(component)) => Ok(Constructor::Vector(
            n,
            Some(VecTemplate { component }),
        )),
        BuiltinName::Vector(n, None) => Ok(Constructor::Vector(n, None)),
        BuiltinName::Array => Ok(Constructor::Array(None)),
        BuiltinName::LeftOut => {
            let name = Text::from_str(alloc, text)?;
            Err(Error::Todo(name))
        }
        BuiltinName::Pointer | BuiltinName::Unknown => {
            let name = Text::from_str(alloc, text)?;
            Err(Error::UnknownType(name))
        }
    }
}

/// The constructor of a vector's name with a template.
fn vector_constructor(alloc: Global, n: u8, params: &[TpltParam]) -> Result<Constructor, Error>
    ensures { MatchResult result
        (λ by. spec.named_constructor (BuiltinName.Vector n None) (Some params.now) ≡ Some by)
        (λ fault. (fault ≡ Error.OutOfMemory) ⊎ ((spec.named_constructor (BuiltinName.Vector n None) (Some params.now) ≡ None) × IsTemplateArgs (codes "vec") fault)) }
{
    let read = VecTemplate::parse(alloc, params)?;
    Ok(Constructor::Vector(n, Some(read)))
}

/// The constructor of `array` with a template.
fn array_constructor(alloc: Global, params: &[TpltParam]) -> Result<Constructor, Error>
    ensures { MatchResult result
        (λ by. spec.named_constructor BuiltinName.Array (Some params.now) ≡ Some by)
        (λ fault. (fault ≡ Error.OutOfMemory) ⊎ ((spec.named_constructor BuiltinName.Array (Some params.now) ≡ None) × IsArrayTemplateFault params.now fault)) }
{
    let read = ArrayTemplate::parse(alloc, params)?;
    Ok(Constructor::Array(Some(read)))
}

/// The constructor of a name with a template.
fn templated_constructor(
    alloc: Global,
    text: &str,
    builtin: &BuiltinName,
    params: &[TpltParam],
) -> Result<Constructor, Error>
    ensures { MatchResult result
        (λ by. spec.named_constructor builtin.now (Some params.now) ≡ Some by)
        (λ fault. (fault ≡ Error.OutOfMemory) ⊎ ((spec.named_constructor builtin.now (Some params.now) ≡ None) × spec.IsNameFault text.now builtin.now (Some params.now) fault)) }
{
    match builtin {
        BuiltinName::Scalar(_) | BuiltinName::Vector(_, Some(_)) => {
            let name = Text::from_str(alloc, text)?;
            Err(Error::UnexpectedTemplate(name))
        }
        BuiltinName::Vector(n, None) => vector_constructor(alloc, *n, params),
        BuiltinName::Array => array_constructor(alloc, params),
        BuiltinName::LeftOut => {
            let name = Text::from_str(alloc, text)?;
            Err(Error::Todo(name))
        }
        BuiltinName::Pointer | BuiltinName::Unknown => {
            let name = Text::from_str(alloc, text)?;
            Err(Error::UnknownType(name))
        }
    }
}

/// The constructor of a name, with a template or without one.
fn named_constructor(
    alloc: Global,
    name: &str,
    template: Option<&[TpltParam]>,
) -> Result<Constructor, Error>
    ensures { MatchResult result
        (λ by. spec.named_constructor (builtin_name name.now) (option_copied template.entry) ≡ Some by)
        (λ fault. (fault ≡ Error.OutOfMemory) ⊎ ((spec.named_constructor (builtin_name name.now) (option_copied template.entry) ≡ None) × spec.IsNameFault name.now (builtin_name name.now) (option_copied template.entry) fault)) }
{
    match template {
        None => plain_constructor(alloc, name, builtin_name(name)),
        Some(params) => {
            let builtin = builtin_name(name);
            let made = templated_constructor(alloc, name, &builtin, params);
            drop(builtin);
            made
        }
    }
}

/// The answer of a constructor, called by a name with arguments of a template.
fn constructor_answer(
    alloc: Global,
    name: &str,
    params: Option<&[TpltParam]>,
    by: Constructor,
    args: &[Type],
) -> Result<Type, Error>
    ensures { spec.AnswersMade name.now (option_copied params.entry) by args.now result }
{
    match by {
        Constructor::Scalar(scalar) => scalar_answer(alloc, name, params, scalar, args),
        Constructor::Vector(n, template) => {
            let made = vector_answer(alloc, name, params, n, template.as_ref(), args);
            drop(template);
            made
        }
        Constructor::Array(template) => {
            let made = array_answer(alloc, name, params, template.as_ref(), args);
            drop(template);
            made
        }
    }
}

/// The type that a constructor's call makes. A template that is too much is `UnexpectedTemplate`, one that can't be read `TemplateArgs` (a count of 0 is `Todo`); a built-in name that isn't supported is `Todo`, a name without a constructor `UnknownType`; an array of no elements is `Todo`, and any other list of arguments that makes nothing `Signature`, with the call's name and template.
pub fn type_ctor(
    alloc: Global,
    name: &str,
    template: Option<&[TpltParam]>,
    args: &[Type],
) -> Result<Type, Error>
    ensures { spec.AnswersCall name.now (builtin_name name.now) (option_copied template.entry) args.now result }
{
    let by = named_constructor(alloc, name, template)?;
    constructor_answer(alloc, name, template, by, args)
}
