//! Laws of occurrences and of skeletons that are laid out flat. Each function states some, and does nothing.

ghost use Rattle.wgsl_skeleton.specs.Laws.{RenamingLooksAtOccurrences};
ghost use Rattle.wgsl_skeleton.specs.Flats.{FlatSaysUses, DeclarationsAreTidy};
ghost use Rattle.wgsl_skeleton.specs.Examples.{ForExample, LoopExample, BlockExample, AttributeExample, BodyExample, EmptyListExample};

/// Two namings that agree on what occurs and is no local's rename alike.
pub fn renaming_looks_at_occurrences()
    ensures { RenamingLooksAtOccurrences }
{}

/// What is laid out flat, and read again with the scopes that are open, says the names that occur and are no local's, where locals stand in
/// lists of scopes alone; so it is in each declaration.
pub fn flat_says_uses()
    ensures uses { FlatSaysUses }
    ensures declarations { DeclarationsAreTidy }
{}

/// Which names occur in some declarations, locals aside.
pub fn occurrences_in_examples()
    ensures header { ForExample }
    ensures continuing { LoopExample }
    ensures block { BlockExample }
    ensures attributes { AttributeExample }
    ensures body { BodyExample }
    ensures lists { EmptyListExample }
{}
