//! The law of constructors. The function states it and does nothing.

ghost use Rattle.wgsl_instance_operators.specs.ConstructorsLaws.{BuiltHasType};

/// What is built of well formed values has the type that the constructor makes of their types.
pub fn built_has_type()
    ensures { BuiltHasType }
{}
