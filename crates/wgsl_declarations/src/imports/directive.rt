//! Directives (WGSL, "Directives").

use wgsl_expressions::{Attributes, DiagnosticSeverity, Items, Text};

/// A directive of a module.
#[derive(Debug, Drop, PartialEq)]
pub enum GlobalDirective {
    Diagnostic(DiagnosticDirective),
    Enable(EnableDirective),
    Requires(RequiresDirective),
}

/// `diagnostic`: a severity and the name of a rule, with its `.` where it has two parts.
#[derive(Debug, Drop, PartialEq)]
pub struct DiagnosticDirective {
    pub attributes: Attributes,
    pub severity: DiagnosticSeverity,
    pub rule_name: Text,
}

/// `enable` and the names of extensions.
#[derive(Debug, Drop, PartialEq)]
pub struct EnableDirective {
    pub attributes: Attributes,
    pub extensions: Items<Text>,
}

/// `requires` and the names of extensions of the language.
#[derive(Debug, Drop, PartialEq)]
pub struct RequiresDirective {
    pub attributes: Attributes,
    pub extensions: Items<Text>,
}
