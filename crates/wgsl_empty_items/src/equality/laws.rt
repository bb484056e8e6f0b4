//! Laws of the equality of expressions, attributes, imports and directives. Each function states some, and does nothing.

ghost use Rattle.std.specs.Prelude.{◌≡◌};
ghost use Rattle.std.specs.Bool.{Decides};
ghost use Rattle.wgsl_expressions.specs.declared.expression.Expression.{Expression, out-Expression};
ghost use Rattle.wgsl_expressions.specs.declared.expression.LiteralExpression.{LiteralExpression};
ghost use Rattle.wgsl_expressions.specs.View.{tree, type_tree};
ghost use Rattle.wgsl_expressions.specs.AttributesView.{attribute_tree};
ghost use Rattle.wgsl_declarations.specs.ImportsView.{content_tree, importing_tree, directive_tree};
ghost use Rattle.wgsl_empty_items.specs.Expressions.{same_layer};
ghost use Rattle.wgsl_empty_items.specs.EqualityLaws.{TellsTrees, TellsContained};

use wgsl_declarations::{GlobalDirective, ImportContent, ImportStatement};
use wgsl_expressions::{Attribute, Expression, LiteralExpression, TypeExpression};

/// `==` of expressions compares their variants and all that these hold, and no places.
pub fn expressions_are_equal_by_their_parts()
    ensures { (a b : Expression) → ⟦<Expression as PartialEq>⟧.eq a b ≡ same_layer ⟦<Expression as PartialEq>⟧.eq (out-Expression a) (out-Expression b) }
{}

/// `==` of literals tells whether they are the same: numbers by their value, and floats as they are spelled.
pub fn literals_are_equal_where_they_are_the_same()
    ensures { (a b : LiteralExpression) → Decides (⟦<LiteralExpression as PartialEq>⟧.eq a b) (a ≡ b) }
{}

/// `==` of expressions, and of types, tells whether they stand for the same tree, wherever their parts are placed.
pub fn expressions_are_equal_where_their_trees_are()
    ensures expression { TellsTrees ⟦<Expression as PartialEq>⟧.eq tree }
    ensures named { TellsTrees ⟦<TypeExpression as PartialEq>⟧.eq type_tree }
{}

/// `==` of attributes tells whether they stand for the same tree.
pub fn attributes_are_equal_where_their_trees_are()
    ensures { TellsTrees ⟦<Attribute as PartialEq>⟧.eq attribute_tree }
{}

/// An attribute equals one of a node's (`contains_attribute`) exactly where its tree is among theirs, wherever they stand.
pub fn attributes_are_contained_where_their_trees_are()
    ensures { TellsContained ⟦<Attribute as PartialEq>⟧.eq attribute_tree }
{}

/// `==` of what imports take, of import statements and of directives tells whether they stand for the same tree.
pub fn imports_are_equal_where_their_trees_are()
    ensures content { TellsTrees ⟦<ImportContent as PartialEq>⟧.eq content_tree }
    ensures statement { TellsTrees ⟦<ImportStatement as PartialEq>⟧.eq importing_tree }
    ensures directive { TellsTrees ⟦<GlobalDirective as PartialEq>⟧.eq directive_tree }
{}
