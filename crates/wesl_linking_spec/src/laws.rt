//! Laws of linking. Each function states some, and does nothing.

ghost use Rattle.wesl_linking_spec.specs.Laws.{WrittenHasNoPaths};
ghost use Rattle.wesl_linking_spec.specs.Examples.{CanonicalExample, ScopeExample, SenseExample, KeptExample, UsesExample, ImportExample, WritingExample, PrintedExample, MentionExample, HiddenExample, DuplicateExample, UndefinedExample, RowsExample, CallExample};
ghost use Rattle.wesl_linking_spec.specs.Packages.{HeldExample, StrippedExample, DirectiveExample, ClashExample, FaultExample, AskedExample, RefusedExample, LinkedExample};

/// No name of a linked declaration stands behind a path.
pub fn written_has_no_paths()
    ensures { WrittenHasNoPaths }
{}

/// What a module is called by, imports and keeps, and what its declarations use.
pub fn outlines_in_examples()
    ensures paths { CanonicalExample }
    ensures scope { ScopeExample }
    ensures senses { SenseExample }
    ensures kept { KeptExample }
    ensures uses { UsesExample }
    ensures imports { ImportExample }
{}

/// How declarations are written, and which names stand in them.
pub fn writing_in_examples()
    ensures written { WritingExample }
    ensures names { PrintedExample }
    ensures mentions { MentionExample }
    ensures hidden { HiddenExample }
    ensures directives { DirectiveExample }
    ensures clashes { ClashExample }
{}

/// What is wrong with some declarations.
pub fn faults_in_examples()
    ensures duplicates { DuplicateExample }
    ensures undefined { UndefinedExample }
    ensures rows { RowsExample }
    ensures calls { CallExample }
    ensures first { FaultExample }
{}

/// What is held of packages, asked for and refused, and what one is linked into.
pub fn linking_in_examples()
    ensures held { HeldExample }
    ensures stripped { StrippedExample }
    ensures asked { AskedExample }
    ensures refused { RefusedExample }
    ensures linked { LinkedExample }
{}
