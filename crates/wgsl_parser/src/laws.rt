//! The law of the parser. The function states it, and does nothing.

ghost use Rattle.wgsl_parser.specs.Laws.{ModuleTextsHaveOneAnswer};

/// A text that is no module has one fault, and a module has none.
pub fn module_texts_have_one_answer()
    ensures { ModuleTextsHaveOneAnswer }
{}
