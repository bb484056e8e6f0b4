//! Laws of the texts of trees. Each function states one, and does nothing.

ghost use Rattle.wgsl_print_laws.specs.TreesLaws.{ExpressionsAreLaidOut, DirectivesAreLaidOut, KindsAreLaidOut, AttributesAreLaidOut, ImportsAreLaidOut};

/// The printed text of an expression is laid out as the expression's tokens.
pub fn expressions_are_laid_out()
    ensures { ExpressionsAreLaidOut }
{}

/// So is that of a directive.
pub fn directives_are_laid_out()
    ensures { DirectivesAreLaidOut }
{}

/// And that of what a declaration of a value begins with.
pub fn kinds_are_laid_out()
    ensures { KindsAreLaidOut }
{}

/// And that of an attribute.
pub fn attributes_are_laid_out()
    ensures { AttributesAreLaidOut }
{}

/// And that of an import statement.
pub fn imports_are_laid_out()
    ensures { ImportsAreLaidOut }
{}
