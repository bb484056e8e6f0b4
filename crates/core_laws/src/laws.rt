//! Laws of compiled modules. Each function states its law and does nothing.

ghost use Rattle.core_laws.specs.Compiled.{CompiledTextRunsAsItsSources, LinkedTextRunsAsItsSources, PrintedTextRunsAsItsSources, SourcesRunInTheLoweredUnit};
ghost use Rattle.core_laws.specs.Declared.{CompiledUnitsDeclareHeldFunctions};
ghost use Rattle.core_laws.specs.Headline.{CompiledTextsAreOfTheirSources, LinkedTextsAreOfTheirSources};

use wesl_resolve::Resolver;

/// A run that ends well in the modules, ends well in the lowered unit with the same answer, in no more steps.
pub fn sources_run_in_the_lowered_unit()
    ensures { SourcesRunInTheLoweredUnit }
{}

/// A run that ends well in the modules, ends well in each unit as which a text of the lowered unit is read, with the same answer, in no more steps.
pub fn compiled_text_runs_as_its_sources()
    ensures { CompiledTextRunsAsItsSources }
{}

/// What is printed of the lowered unit is such a text, where any text is.
pub fn printed_text_runs_as_its_sources()
    ensures { PrintedTextRunsAsItsSources }
{}

/// The lowered unit declares the held functions, each once under its printed name, in the order of the linked unit.
pub fn compiled_units_declare_held_functions()
    ensures { CompiledUnitsDeclareHeldFunctions }
{}

/// A run ends well in each unit as which a text of the linked unit is read exactly where it does in the modules, with the same answer, for each
/// number of steps that is allowed.
pub fn linked_text_runs_as_its_sources()
    ensures { LinkedTextRunsAsItsSources }
{}

/// What is linked from what a resolver finds, and lowered with clear names: its text declares the held functions, and each run that
/// ends well in the sources ends well there.
pub fn compiled_texts_are_of_their_sources<R: Resolver>()
    ensures { (resolver : R) → CompiledTextsAreOfTheirSources (R.answers resolver) }
{}

/// What is linked from what a resolver finds: its text declares what is held, and runs end well there exactly where they do in the
/// sources.
pub fn linked_texts_are_of_their_sources<R: Resolver>()
    ensures { (resolver : R) → LinkedTextsAreOfTheirSources (R.answers resolver) }
{}
