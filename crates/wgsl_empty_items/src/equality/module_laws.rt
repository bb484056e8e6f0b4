//! Laws of the equality of declarations and modules. Each function states some, and does nothing.

ghost use Rattle.wgsl_declarations.specs.View.{variable_tree, alias_tree, member_tree, structure_tree, parameter_tree, assertion_tree, function_tree, declaration_tree, unit_tree};
ghost use Rattle.wgsl_empty_items.specs.Counts.{in_block, voids, voids_in_declaration, voids_in_unit};
ghost use Rattle.wgsl_empty_items.specs.Units.{unit_without_voids};
ghost use Rattle.wgsl_empty_items.specs.EqualityLaws.{TellsTrees, OneTreeWhereTrue, TellsTreesOfThoseWithout, TellsTreesAfter, MissesSome};

use wgsl_declarations::{
    FormalParameter, Function, GlobalDeclaration, Struct, StructMember, TranslationUnit, TypeAlias,
};
use wgsl_simple_statements::{ConstAssert, Declaration};

/// `==` of declarations that hold no statement tells whether they stand for the same tree.
pub fn declarations_are_equal_where_their_trees_are()
    ensures value { TellsTrees ⟦<Declaration as PartialEq>⟧.eq variable_tree }
    ensures alias { TellsTrees ⟦<TypeAlias as PartialEq>⟧.eq alias_tree }
    ensures structure { TellsTrees ⟦<Struct as PartialEq>⟧.eq structure_tree }
    ensures member { TellsTrees ⟦<StructMember as PartialEq>⟧.eq member_tree }
    ensures parameter { TellsTrees ⟦<FormalParameter as PartialEq>⟧.eq parameter_tree }
    ensures assertion { TellsTrees ⟦<ConstAssert as PartialEq>⟧.eq assertion_tree }
{}

/// Functions, declarations and modules that are equal stand for the same tree.
pub fn equal_modules_have_one_tree()
    ensures function { OneTreeWhereTrue ⟦<Function as PartialEq>⟧.eq function_tree }
    ensures declaration { OneTreeWhereTrue ⟦<GlobalDeclaration as PartialEq>⟧.eq declaration_tree }
    ensures unit { OneTreeWhereTrue ⟦<TranslationUnit as PartialEq>⟧.eq unit_tree }
{}

/// An empty item, a `;` alone, stands for nothing, and `==` sees it: a module of one stands for the same as an empty module, and is
/// not equal to it.
pub fn modules_may_differ_by_empty_items()
    ensures { MissesSome ⟦<TranslationUnit as PartialEq>⟧.eq unit_tree }
{}

/// Of functions, declarations and modules without empty items, `==` tells whether they stand for the same tree, and so it does of all
/// modules once their empty items are left out.
pub fn modules_without_empty_items_are_equal_where_their_trees_are()
    ensures function { TellsTreesOfThoseWithout (λ f. in_block voids f.body) ⟦<Function as PartialEq>⟧.eq function_tree }
    ensures declaration { TellsTreesOfThoseWithout voids_in_declaration ⟦<GlobalDeclaration as PartialEq>⟧.eq declaration_tree }
    ensures unit { TellsTreesOfThoseWithout voids_in_unit ⟦<TranslationUnit as PartialEq>⟧.eq unit_tree }
    ensures left_out { TellsTreesAfter unit_without_voids ⟦<TranslationUnit as PartialEq>⟧.eq unit_tree }
{}
