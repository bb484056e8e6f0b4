//! Directives as text.

ghost use Rattle.std.specs.Prelude.{◌≡◌, ◌++◌, Some, codes};
ghost use Rattle.std.specs.Fmt.{WritesOnOk};
ghost use Rattle.wgsl_declarations.specs.ImportsView.{diagnostic_tree, enable_tree, requires_tree, directive_tree};
ghost use Rattle.wgsl_declarations.specs.ImportsPrint.{names_text, setting_text, directive_text};

use crate::imports::directive::{
    DiagnosticDirective, EnableDirective, GlobalDirective, RequiresDirective,
};
use std::fmt;
use std::fmt::Display;
use wgsl_expressions::{DiagnosticSeverity, Text, write_attributes};

impl fmt::Display for DiagnosticDirective {
    ghost output = { λ x. Some (directive_text (diagnostic_tree x)) };

    fn fmt<W: fmt::Write>(&self, f: &mut fmt::Formatter<W>) -> fmt::Result {
        write_attributes(self.attributes.as_slice(), f)?;
        write_setting(self.severity, &self.rule_name, f)?;
        f.write_str(";\n")
    }
}

/// Writes a severity for a rule.
#[tactic(auto, unfolding(crate::specs::ImportsPrint::setting_text))]
fn write_setting<W: fmt::Write>(
    severity: DiagnosticSeverity,
    rule_name: &Text,
    f: &mut fmt::Formatter<W>,
) -> fmt::Result
    ensures { WritesOnOk W.write_str_gives f.old result (setting_text severity rule_name.now) f.new }
{
    f.write_str("diagnostic(")?;
    severity.fmt(f)?;
    f.write_str(", ")?;
    rule_name.fmt(f)?;
    f.write_str(")")
}

/// Writes names with `, ` between them.
fn write_names<W: fmt::Write>(names: &[Text], f: &mut fmt::Formatter<W>) -> fmt::Result
    ensures { WritesOnOk W.write_str_gives f.old result (names_text names.now) f.new }
{
    if let [first, rest @ ..] = names {
        first.fmt(f)?;
        for name in rest {
            f.write_str(", ")?;
            name.fmt(f)?;
        }
    }
    Ok(())
}

impl fmt::Display for EnableDirective {
    ghost output = { λ x. Some (directive_text (enable_tree x)) };

    fn fmt<W: fmt::Write>(&self, f: &mut fmt::Formatter<W>) -> fmt::Result {
        write_attributes(self.attributes.as_slice(), f)?;
        f.write_str("enable ")?;
        write_names(self.extensions.as_slice(), f)?;
        f.write_str(";\n")
    }
}

impl fmt::Display for RequiresDirective {
    ghost output = { λ x. Some (directive_text (requires_tree x)) };

    fn fmt<W: fmt::Write>(&self, f: &mut fmt::Formatter<W>) -> fmt::Result {
        write_attributes(self.attributes.as_slice(), f)?;
        f.write_str("requires ")?;
        write_names(self.extensions.as_slice(), f)?;
        f.write_str(";\n")
    }
}

impl fmt::Display for GlobalDirective {
    ghost output = { λ x. Some (directive_text (directive_tree x)) };

    fn fmt<W: fmt::Write>(&self, f: &mut fmt::Formatter<W>) -> fmt::Result {
        match self {
            GlobalDirective::Diagnostic(x) => x.fmt(f),
            GlobalDirective::Enable(x) => x.fmt(f),
            GlobalDirective::Requires(x) => x.fmt(f),
        }
    }
}
