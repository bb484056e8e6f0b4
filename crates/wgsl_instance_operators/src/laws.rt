//! Laws of the operators on values. Each function states its law and does nothing.

ghost use Rattle.wgsl_instance_operators.specs.Laws.{ValuesHaveTheirTypes, UnaryValuesHaveTheirTypes};

/// A value of an operator between well formed values has the type that the operator gives for their types.
pub fn values_have_their_types()
    ensures { ValuesHaveTheirTypes }
{}

/// A value of an operator in front of a well formed value has the type that the operator gives for its type.
pub fn unary_values_have_their_types()
    ensures { UnaryValuesHaveTheirTypes }
{}
