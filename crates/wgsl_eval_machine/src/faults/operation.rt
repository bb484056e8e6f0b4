//! The kinds of refusals by the rules of types and operators.

use wgsl_shader_type::Error;

/// The word of a refusal's kind.
pub fn operation_kind(error: &Error) -> &'static str {
    match error {
        Error::Todo(_) => "Todo",
        Error::NotScalar(_) => "NotScalar",
        Error::NotConstructible(_) => "NotConstructible",
        Error::UnknownType(_) => "UnknownType",
        Error::UnexpectedTemplate(_) => "UnexpectedTemplate",
        Error::MissingTemplate(_) => "MissingTemplate",
        Error::WriteRefType(_, _) => "WriteRefType",
        Error::NotWrite => "NotWrite",
        Error::NotRead => "NotRead",
        Error::NotReadWrite => "NotReadWrite",
        Error::PtrHandle => "PtrHandle",
        Error::PtrVecComp => "PtrVecComp",
        Error::Conversion(_, _) => "Conversion",
        Error::ConvOverflow(_, _) => "ConvOverflow",
        Error::Component(_, _) => "Component",
        Error::NotIndexable(_) => "NotIndexable",
        Error::OutOfBounds(_, _, _) => "OutOfBounds",
        Error::Unary(_, _) => "Unary",
        Error::Binary(_, _, _) => "Binary",
        Error::CompwiseBinary(_, _) => "CompwiseBinary",
        Error::AddOverflow => "AddOverflow",
        Error::SubOverflow => "SubOverflow",
        Error::MulOverflow => "MulOverflow",
        Error::DivByZero => "DivByZero",
        Error::RemZeroDiv => "RemZeroDiv",
        Error::ShlOverflow(_, _) => "ShlOverflow",
        Error::ShrOverflow(_, _) => "ShrOverflow",
        Error::Signature(_) => "Signature",
        Error::Builtin(_) => "Builtin",
        Error::TemplateArgs(_) => "TemplateArgs",
        Error::ParamCount(_, _, _) => "ParamCount",
        Error::ParamType(_, _) => "ParamType",
        Error::OutOfMemory => "OutOfMemory",
    }
}

/// The name that a refusal concerns, if it concerns one.
pub fn operation_name(error: &Error) -> Option<&str> {
    match error {
        Error::Todo(name)
        | Error::UnknownType(name)
        | Error::UnexpectedTemplate(name)
        | Error::Component(_, name)
        | Error::ParamCount(name, _, _) => Some(name.as_str()),
        Error::MissingTemplate(name) | Error::Builtin(name) | Error::TemplateArgs(name) => Some(
            *name,
        ),
        Error::Signature(call) => Some(call.name.as_str()),
        _ => None,
    }
}
