//! Laws of what is printed and read back. Each function states one, and does nothing.

ghost use Rattle.wgsl_read_back.specs.Laws.{ExpressionsAreReadBack, StatementsAreReadBack, DeclarationsAreReadBack, ModulesAreReadBack, SameTokensAreTheSameModule, SameTokensAreTheSameParts, TextsHaveOneModule, ImportsOfTextsAreApart, DirectivesAreReadBack, ImportsAreReadBack, KindsAreReadBack, AttributesArePrintedAsRead, AttributesAreReadBack};

/// Where a text is an expression, what is printed of its tree is one, too, with the same tree but for places.
pub fn expressions_are_read_back()
    ensures { ExpressionsAreReadBack }
{}

/// The same of a directive.
pub fn directives_are_read_back()
    ensures { DirectivesAreReadBack }
{}

/// The same of an import statement.
pub fn imports_are_read_back()
    ensures { ImportsAreReadBack }
{}

/// The same of a kind of declaration, as `var<storage, read_write>`.
pub fn kinds_are_read_back()
    ensures { KindsAreReadBack }
{}

/// The attribute of a word and arguments is printed as `@`, that word and these arguments.
pub fn attributes_are_printed_as_read()
    ensures { AttributesArePrintedAsRead }
{}

/// Where the tokens of a text are an attribute, so are those of what is printed of it, with the same tree but for places.
pub fn attributes_are_read_back()
    ensures { AttributesAreReadBack }
{}

/// Where a text is a statement, and not `;` alone, what is printed of its tree at any level is one, too, with the same tree but for places.
pub fn statements_are_read_back()
    ensures { StatementsAreReadBack }
{}

/// The same of a declaration of a module.
pub fn declarations_are_read_back()
    ensures { DeclarationsAreReadBack }
{}

/// Where a text is a module, so is what is printed of its tree, with the same tree but for places.
pub fn modules_are_read_back()
    ensures { ModulesAreReadBack }
{}

/// Where two texts have the same tokens but for their places, and one is a module, so is the other, with the same tree but for places.
pub fn same_tokens_are_the_same_module()
    ensures { SameTokensAreTheSameModule }
{}

/// The same of expressions, statements, declarations, directives, import statements and kinds of declarations.
pub fn same_tokens_are_the_same_parts()
    ensures { SameTokensAreTheSameParts }
{}

/// A text is one module at most.
pub fn texts_have_one_module()
    ensures { TextsHaveOneModule }
{}

/// Imports of texts that name modules by paths that print alike name them by one path.
pub fn imports_of_texts_are_apart()
    ensures { ImportsOfTextsAreApart }
{}
