//! The words by which a line tells the kind of an inner fault.

use wesl_conditions::CondCompError;
use weslc_compile::{Fault, NameFault, ValidateError};
use wgsl_eval_machine::operation_kind;
use wgsl_token::fault::ErrorKind;

pub fn syntax_kind(kind: ErrorKind) -> &'static str {
    match kind {
        ErrorKind::InvalidToken => "InvalidToken",
        ErrorKind::ReservedWord => "ReservedWord",
        ErrorKind::UnexpectedToken => "UnexpectedToken",
        ErrorKind::UnexpectedEof => "UnexpectedEof",
        ErrorKind::ExtraToken => "ExtraToken",
        ErrorKind::DiagnosticSeverity => "DiagnosticSeverity",
        ErrorKind::Attribute => "Attribute",
        ErrorKind::VarTemplate => "VarTemplate",
        ErrorKind::TooDeep => "TooDeep",
        ErrorKind::Misfit => "Misfit",
        ErrorKind::TooManySteps => "TooManySteps",
        ErrorKind::OutOfMemory => "OutOfMemory",
    }
}

pub fn condition_kind(error: &CondCompError) -> &'static str {
    match error {
        CondCompError::InvalidFeatureFlag(_) => "InvalidFeatureFlag",
        CondCompError::UnexpectedFeatureFlag(_) => "UnexpectedFeatureFlag",
        CondCompError::InvalidExpression => "InvalidExpression",
        CondCompError::NoPrecedingIf => "NoPrecedingIf",
        CondCompError::DuplicateIf => "DuplicateIf",
        CondCompError::OutOfMemory => "OutOfMemory",
    }
}

pub fn validate_kind(kind: ValidateError) -> &'static str {
    match kind {
        ValidateError::UndefinedSymbol => "UndefinedSymbol",
        ValidateError::ParamCount => "ParamCount",
        ValidateError::NotCallable => "NotCallable",
        ValidateError::Duplicate => "Duplicate",
        ValidateError::Cycle => "Cycle",
    }
}

pub fn eval_kind(fault: &Fault) -> &'static str {
    match fault {
        Fault::StepLimit => "StepLimit",
        Fault::Operation(error) => operation_kind(error.get()),
        Fault::Deferred(_) => "Deferred",
        Fault::NegativeAttr(_) => "NegativeAttr",
        Fault::Name(fault, _) => name_kind(fault),
    }
}

fn name_kind(fault: &NameFault) -> &'static str {
    match fault {
        NameFault::UnknownDecl => "UnknownDecl",
        NameFault::NotAccessible => "NotAccessible",
        NameFault::NotConst => "NotConst",
        NameFault::CyclicDecl => "CyclicDecl",
        NameFault::Todo => "Todo",
        NameFault::NotType => "NotType",
        NameFault::NotCallable => "NotCallable",
        NameFault::UninitConst => "UninitConst",
        NameFault::UnexpectedTemplate => "UnexpectedTemplate",
        NameFault::Signature => "Signature",
        NameFault::ParamCount(_, _) => "ParamCount",
        NameFault::Void => "Void",
        NameFault::NoReturn(_) => "NoReturn",
        NameFault::UnexpectedReturn(_) => "UnexpectedReturn",
        NameFault::ReturnType(_, _) => "ReturnType",
        NameFault::NotEntrypoint => "NotEntrypoint",
        NameFault::InvalidEntrypointParam => "InvalidEntrypointParam",
        NameFault::MissingUserInput(_) => "MissingUserInput",
    }
}
