//! Laws of values. Each function states its law and does nothing.

ghost use Rattle.wgsl_instance.specs.Laws.{ZeroHasType, ConvertedHasType};

/// The zero value of a type has the type.
pub fn zero_has_type()
    ensures { ZeroHasType }
{}

/// A converted value has the type that it is converted to.
pub fn converted_has_type()
    ensures { ConvertedHasType }
{}
