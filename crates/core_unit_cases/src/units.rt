//! Validation, evaluation and compiled units.

use crate::cut;
use crate::parsing::places;
use core_compiled::{PrintError, UnitRefusal, compile_unit, parse_core, print_core};
use core_eval::{Declarations, Fault, Scope, Values, eval_ty, eval_value};
use core_lower::lower;
use core_syntax::{
    CompoundStatement, Expression, Function, GlobalDeclaration, Ident, Span, Spanned,
    TranslationUnit,
};
use core_validate::{ValidateFault, unclear_name, validate_wesl};
use std::alloc::{AllocError, Global};
use std::collections::HashMap;
use std::fmt::{Debug, Display};
use wgsl_base::{CloneIn, Items, OrOutOfMemory, Text};
use wgsl_cases::types::told_of_copy;
use wgsl_scalar::{IntegerType, ScalarType};
use wgsl_shader_type::LiteralInstance;
use wgsl_words::builtin_names;

/// How many steps an evaluation may take.
const MAX_STEPS: u64 = 1_000_000;

/// A value in the form of `Debug`.
fn shown<T: Debug>(alloc: Global, value: &T) -> Result<String, AllocError> {
    format!(in alloc; "{value:?}")
}

/// What the cases tell of a refusal.
trait Tell {
    fn tell(&self, alloc: Global) -> Result<String, AllocError>;
}

impl<E: Tell> Tell for OrOutOfMemory<E> {
    fn tell(&self, alloc: Global) -> Result<String, AllocError> {
        match self {
            OrOutOfMemory::Error(error) => error.tell(alloc),
            OrOutOfMemory::OutOfMemory => Err(AllocError),
        }
    }
}

impl Tell for Fault {
    fn tell(&self, alloc: Global) -> Result<String, AllocError> {
        match self {
            Fault::Operation(error) => shown(alloc, error.get()),
            Fault::StepLimit | Fault::Deferred(_) | Fault::NegativeAttr(_) => shown(alloc, self),
            Fault::Name(fault, name) => format!(in alloc; "{fault:?} {}", name.as_str()),
        }
    }
}

impl Tell for ValidateFault {
    fn tell(&self, alloc: Global) -> Result<String, AllocError> {
        self.to_string(alloc)
    }
}

/// What is told of a unit that has no text.
fn textless(alloc: Global, name: &Option<Text>) -> Result<String, AllocError> {
    match name {
        Some(name) => format!(in alloc; "no text stands for {}", name.as_str()),
        None => String::from_str(alloc, "no text stands for it"),
    }
}

impl Tell for PrintError {
    fn tell(&self, alloc: Global) -> Result<String, AllocError> {
        match self {
            PrintError::Unprintable(name) => textless(alloc, name),
            PrintError::GaveUp(_) | PrintError::OutOfMemory => Err(AllocError),
        }
    }
}

impl Tell for UnitRefusal {
    fn tell(&self, alloc: Global) -> Result<String, AllocError> {
        match self {
            UnitRefusal::Eval(found) => {
                let fault = found.fault.tell(alloc)?;
                format!(in alloc; "{fault} in `{}`", found.declaration.as_str())
            }
            UnitRefusal::Unprintable(name) => textless(alloc, name),
            refusal => refusal.to_string(alloc),
        }
    }
}

/// Whether two calls give the same.
fn agree<T: PartialEq + Drop>(left: Option<T>, right: Option<T>) -> bool {
    match (&left, &right) {
        (Some(left), Some(right)) => *left == *right,
        _ => false,
    }
}

/// The text of what is found, or `none`.
fn maybe<T: Display + Drop>(
    alloc: Global,
    found: Result<Option<T>, AllocError>,
) -> Result<String, AllocError> {
    match found? {
        Some(found) => found.to_string(alloc),
        None => String::from_str(alloc, "none"),
    }
}

/// Whether a text reads back as what a unit is lowered to.
fn reads_back(alloc: Global, unit: &TranslationUnit, text: &str) -> bool {
    agree(
        lower(alloc, unit, MAX_STEPS).ok(),
        parse_core(alloc, text).ok(),
    )
}

/// A compiled text, which reads back, or its refusal.
fn compiled<E: Tell + Drop>(
    alloc: Global,
    unit: &TranslationUnit,
    answer: Result<String, E>,
) -> Result<String, AllocError> {
    match answer {
        Ok(text) if reads_back(alloc, unit, text.as_str()) => Ok(text),
        Ok(_) => String::from_str(alloc, "it reads back as another unit"),
        Err(refusal) => refusal.tell(alloc),
    }
}

/// How a unit is refused, if it is.
fn refused<E: Tell + Drop>(alloc: Global, answer: Result<(), E>) -> Result<String, AllocError> {
    match answer {
        Ok(()) => String::from_str(alloc, "fine"),
        Err(fault) => fault.tell(alloc),
    }
}

/// The text of a unit, or its refusal.
fn printed(alloc: Global, unit: TranslationUnit) -> Result<String, AllocError> {
    match print_core(alloc, unit) {
        Ok(text) => Ok(text),
        Err(error) => error.tell(alloc),
    }
}

/// The text of the last declaration alone, or its refusal.
fn last_printed(alloc: Global, unit: &TranslationUnit) -> Result<String, AllocError> {
    let mut alone = TranslationUnit {
        imports: Items::new(alloc),
        global_declarations: Items::new(alloc),
    };
    if let Some(last) = unit.global_declarations.as_slice().last() {
        alone.global_declarations.push(last.clone_in(alloc)?)?;
    }
    printed(alloc, alone)
}

/// Adds `fn NAME() {}`, maybe under a name that no text has.
fn add_function(alloc: Global, unit: &mut TranslationUnit, name: &str) -> Result<(), AllocError> {
    let ident = Ident::new(Text::from_str(alloc, name)?);
    let function = Function {
        attributes: Items::new(alloc),
        ident,
        parameters: Items::new(alloc),
        return_attributes: Items::new(alloc),
        return_type: None,
        body: CompoundStatement {
            attributes: Items::new(alloc),
            statements: Items::new(alloc),
        },
    };
    let node = GlobalDeclaration::Function(function);
    let declaration = Spanned::new(alloc, node, Span { start: 0, end: 0 })?;
    unit.global_declarations.push(declaration)
}

/// A value, or its refusal.
fn valued<T: Debug + Drop, E: Tell + Drop>(
    alloc: Global,
    value: Result<T, E>,
) -> Result<String, AllocError> {
    match value {
        Ok(value) => shown(alloc, &value),
        Err(error) => error.tell(alloc),
    }
}

/// The value and the type of an expression, where these declarations, consts and parameters are in scope.
fn evaluated(
    alloc: Global,
    declarations: &Declarations<'_>,
    consts: &Values<'_>,
    parameters: &[(Text, ScalarType)],
    expression: &Expression,
) -> Result<String, AllocError> {
    let scope = Scope {
        declarations,
        consts,
        parameters,
    };
    let ty = eval_ty(alloc, &scope, expression).ok();
    let is_u32 = ty == Some(ScalarType::Integer(IntegerType::U32));
    let value = valued(alloc, eval_value(alloc, &scope, expression))?;
    format!(in alloc; "{value} u32 {is_u32}")
}

/// The same, where `k` is a const of 40.
fn with_const(alloc: Global, expression: &Expression) -> Result<String, AllocError> {
    let declarations: Declarations<'_> = HashMap::new(alloc);
    let mut consts: Values<'_> = HashMap::new(alloc);
    consts.insert("k", LiteralInstance::AbstractInt(40))?;
    evaluated(alloc, &declarations, &consts, &[], expression)
}

/// The same, where `k` is a parameter of type `u32`.
fn with_parameter(alloc: Global, expression: &Expression) -> Result<String, AllocError> {
    let parameters = [(
        Text::from_str(alloc, "k")?,
        ScalarType::Integer(IntegerType::U32),
    )];
    let declarations: Declarations<'_> = HashMap::new(alloc);
    let consts: Values<'_> = HashMap::new(alloc);
    evaluated(alloc, &declarations, &consts, &parameters, expression)
}

fn first_value(unit: &TranslationUnit) -> Option<&Expression> {
    match unit.global_declarations.get(0)?.node() {
        GlobalDeclaration::Declaration(declaration) => Some(
            declaration.initializer.as_ref()?.node(),
        ),
        GlobalDeclaration::Function(_) => None,
    }
}

/// The value and the type of the first const of a unit.
fn first_evaluated(
    alloc: Global,
    call: &str,
    unit: &TranslationUnit,
) -> Result<String, AllocError> {
    match first_value(unit) {
        Some(expression) if call == "eval with const" => with_const(alloc, expression),
        Some(expression) => with_parameter(alloc, expression),
        None => String::from_str(alloc, "no const"),
    }
}

/// What a call on a unit gives.
fn of_unit(alloc: Global, call: &str, unit: &TranslationUnit) -> Result<String, AllocError> {
    match call {
        "parse" => told_of_copy(alloc, unit),
        "places" => places(alloc, unit),
        "compile_unit" => compiled(alloc, unit, compile_unit(alloc, unit, MAX_STEPS)),
        "validate_wesl" => refused(alloc, validate_wesl(alloc, unit, builtin_names())),
        "unclear_name" => maybe(alloc, unclear_name(alloc, unit, builtin_names())),
        "print_declaration" => last_printed(alloc, unit),
        "print_unit" => printed(alloc, unit.clone_in(alloc)?),
        call => first_evaluated(alloc, call, unit),
    }
}

/// What calls are made on, with a function added where it has a name.
trait Called {
    fn called(&mut self, alloc: Global, call: &str, function: &str) -> Result<String, AllocError>;
}

impl Called for TranslationUnit {
    fn called(&mut self, alloc: Global, call: &str, function: &str) -> Result<String, AllocError> {
        if !function.is_empty() {
            add_function(alloc, self, function)?;
        }
        of_unit(alloc, call, self)
    }
}

/// What a call on what is read gives, or the fault.
fn of_read<T: Called + Drop, E: Display + Drop>(
    alloc: Global,
    call: &str,
    function: &str,
    read: Result<T, E>,
) -> Result<String, AllocError> {
    match read {
        Ok(mut unit) => unit.called(alloc, call, function),
        Err(error) => error.to_string(alloc),
    }
}

/// What a call on the unit of a text gives. A second text is the name of a function that is added.
pub fn answer(alloc: Global, call: &str, with: &str) -> Result<String, AllocError> {
    let (text, function) = cut(with);
    of_read(alloc, call, function, parse_core(alloc, text))
}
