//! Laws of types, each the contract of a function that does nothing.

ghost use Rattle.wgsl_types.specs.Laws.{IsReflexive, IsTransitive, IsAntisymmetric, RanksAdd, CommonTypeIsOne, CommonTypeIsSymmetric, CommonOfIsSymmetric, CommonTypeIgnoresOrder, ConcreteTwiceIsOnce, LoadedTwiceIsOnce, BothAtCommonType, BothUnlessUnfit};
ghost use Rattle.wgsl_types.specs.Names.{SupportedNamesAreValueTypes};

use crate::typed::Convert;

/// Conversion is a partial order.
pub fn conversion_is_a_partial_order()
    ensures reflexive { IsReflexive }
    ensures transitive { IsTransitive }
    ensures antisymmetric { IsAntisymmetric }
{}

/// Ranks add along conversions.
pub fn ranks_add()
    ensures { RanksAdd }
{}

/// A list has one common type at most, so that the answers of `convert_ty` and `convert_all_ty` are determined.
pub fn common_type_is_one()
    ensures { CommonTypeIsOne }
{}

/// `convert_ty` is symmetric.
pub fn convert_ty_is_symmetric()
    ensures common { CommonTypeIsSymmetric }
    ensures answer { CommonOfIsSymmetric }
{}

/// `convert_all_ty` ignores the order of its list.
pub fn convert_all_ty_ignores_order()
    ensures { CommonTypeIgnoresOrder }
{}

/// `concretize` twice is once.
pub fn concretize_twice_is_once()
    ensures { ConcreteTwiceIsOnce }
{}

/// `loaded` twice is once.
pub fn loaded_twice_is_once()
    ensures { LoadedTwiceIsOnce }
{}

/// `convert` gives two things at the common type of their types; it gives nothing only where they have none, or where that type
/// can't hold one of the two values.
pub fn convert_gives_the_common_type<T: Convert>()
    ensures common { BothAtCommonType T.type_of T.converted }
    ensures unless { BothUnlessUnfit T.type_of T.converted T.unfit }
{}

/// The names of types that have values here are those that the table of built-in names has for such.
pub fn supported_names_are_value_types()
    ensures { SupportedNamesAreValueTypes }
{}
