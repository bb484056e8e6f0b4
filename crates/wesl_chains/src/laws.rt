//! Laws of chains of imports and of what is reached. Each function states some, and does nothing.

ghost use Rattle.wesl_chains.specs.Laws.{EndsAreOne, DenotesIsOne, LongChainsLoop, ChainsEnd, ClosedHoldsAll, HandledOnward};
ghost use Rattle.wesl_chains.specs.Examples.{ScopeExample, SenseExample, StepExample, OrderExample, ReexportExample, RingExample, PassedExample, AskedExample};

/// A chain comes to one thing, by the same modules.
pub fn ends_are_one()
    ensures chains { EndsAreOne }
    ensures names { DenotesIsOne }
{}

/// A chain that is longer than there are items that imports lead to never ends; so each chain ends, or is known not to.
pub fn chains_end()
    ensures long { LongChainsLoop }
    ensures all { ChainsEnd }
{}

/// A closing that is done holds all that is reached, and has passed all modules that are passed.
pub fn closed_holds_all()
    ensures { ClosedHoldsAll }
{}

/// What was handled in earlier rounds stays so, once what was asked for is sought in more modules.
pub fn handled_onward()
    ensures { HandledOnward }
{}

/// What names mean in some modules.
pub fn names_in_examples()
    ensures scope { ScopeExample }
    ensures senses { SenseExample }
    ensures steps { StepExample }
    ensures order { OrderExample }
{}

/// What some chains come to, and what is reached by them.
pub fn chains_in_examples()
    ensures reexport { ReexportExample }
    ensures ring { RingExample }
    ensures passed { PassedExample }
    ensures asked { AskedExample }
{}
