//! Laws of the operators on scalars. Each function states its law and does nothing.

ghost use Rattle.wgsl_scalar.specs.Laws.{ValuesHaveTheirTypes, OtherOperandsAreRefused, ConstValuesHold};
ghost use Rattle.wgsl_scalar.specs.OperatorTypes as types;

/// A value of an operator has the type that the operator gives for its operands' types.
pub fn values_have_their_types()
    ensures { ValuesHaveTheirTypes }
{}

/// Where no candidate of the operator fits the operands' types, they are refused, with both types.
pub fn other_operands_are_refused()
    ensures { OtherOperandsAreRefused }
{}

/// A value at the const stage is the value at each stage.
pub fn const_values_hold()
    ensures { ConstValuesHold }
{}

/// A value at the const stage of an operator in front of a scalar is the value at each stage.
pub fn const_values_hold_in_front()
    ensures { types.ConstValuesHoldInFront }
{}

/// Scalar types convert as the rules of all types say.
pub fn conversions_are_those_of_types()
    ensures { types.ConversionsAreThoseOfTypes }
{}

/// Operators on scalars have the types that the rules of all types give, and refuse what those refuse.
pub fn operators_have_the_types_of_types()
    ensures unary { types.UnaryTypesAreThoseOfTypes }
    ensures binary { types.BinaryTypesAreThoseOfTypes }
{}

/// What an operator, a conversion or a constructor gives has its type.
pub fn values_have_the_type()
    ensures unary { types.UnaryValuesHaveTheType }
    ensures binary { types.BinaryValuesHaveTheType }
    ensures converted { types.ConvertedValuesHaveTheType }
    ensures constructed { types.ConstructedValuesHaveTheType }
{}
