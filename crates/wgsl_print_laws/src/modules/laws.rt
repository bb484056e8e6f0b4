//! Laws of the texts of statements, declarations and modules. Each function states one, and does nothing.

ghost use Rattle.wgsl_print_laws.specs.ModulesLaws.{StatementsAreLaidOut, DeclarationsAreLaidOut, ModulesAreLaidOut};

/// The printed text of a statement is laid out as the statement's tokens, at any level.
pub fn statements_are_laid_out()
    ensures { StatementsAreLaidOut }
{}

/// So is that of a declaration.
pub fn declarations_are_laid_out()
    ensures { DeclarationsAreLaidOut }
{}

/// And that of a module.
pub fn modules_are_laid_out()
    ensures { ModulesAreLaidOut }
{}
