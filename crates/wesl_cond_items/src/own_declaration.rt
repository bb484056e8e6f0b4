//! What features leave of the attributes of each kind of declaration and directive.

ghost use Rattle.std.specs.Prelude.{Some};
ghost use Rattle.wgsl_declarations.specs.ImportsView.{diagnostic_tree, enable_tree, requires_tree};
ghost use Rattle.wgsl_declarations.specs.View.{variable_tree, alias_tree, structure_tree, function_tree, assertion_tree};
ghost use Rattle.wesl_conditions.specs.Walks.{Settles};
ghost use Rattle.wesl_conditions.specs.Trees.{of_declarations, of_directives};

use wesl_cond_attributes::settle_attributes;
use wesl_conditions::{Chain, Features};
use wgsl_declarations::{
    DiagnosticDirective, EnableDirective, Function, RequiresDirective, Struct, TypeAlias,
};
use wgsl_simple_statements::{ConstAssert, Declaration};

pub(crate) fn own_variable(x: &mut Declaration, chain: &mut Chain, features: &Features) -> bool
    ensures { Settles features.now of_declarations chain.old (Some (variable_tree x.old)) result chain.new (Some (variable_tree x.new)) }
{
    settle_attributes(&mut x.attributes, chain, features)
}

pub(crate) fn own_alias(x: &mut TypeAlias, chain: &mut Chain, features: &Features) -> bool
    ensures { Settles features.now of_declarations chain.old (Some (alias_tree x.old)) result chain.new (Some (alias_tree x.new)) }
{
    settle_attributes(&mut x.attributes, chain, features)
}

pub(crate) fn own_structure(x: &mut Struct, chain: &mut Chain, features: &Features) -> bool
    ensures { Settles features.now of_declarations chain.old (Some (structure_tree x.old)) result chain.new (Some (structure_tree x.new)) }
{
    settle_attributes(&mut x.attributes, chain, features)
}

pub(crate) fn own_function(x: &mut Function, chain: &mut Chain, features: &Features) -> bool
    ensures { Settles features.now of_declarations chain.old (Some (function_tree x.old)) result chain.new (Some (function_tree x.new)) }
{
    settle_attributes(&mut x.attributes, chain, features)
}

pub(crate) fn own_assertion(x: &mut ConstAssert, chain: &mut Chain, features: &Features) -> bool
    ensures { Settles features.now of_declarations chain.old (Some (assertion_tree x.old)) result chain.new (Some (assertion_tree x.new)) }
{
    settle_attributes(&mut x.attributes, chain, features)
}

pub(crate) fn own_diagnostic(
    x: &mut DiagnosticDirective,
    chain: &mut Chain,
    features: &Features,
) -> bool
    ensures { Settles features.now of_directives chain.old (Some (diagnostic_tree x.old)) result chain.new (Some (diagnostic_tree x.new)) }
{
    settle_attributes(&mut x.attributes, chain, features)
}

pub(crate) fn own_enable(x: &mut EnableDirective, chain: &mut Chain, features: &Features) -> bool
    ensures { Settles features.now of_directives chain.old (Some (enable_tree x.old)) result chain.new (Some (enable_tree x.new)) }
{
    settle_attributes(&mut x.attributes, chain, features)
}

pub(crate) fn own_requires_directive(
    x: &mut RequiresDirective,
    chain: &mut Chain,
    features: &Features,
) -> bool
    ensures { Settles features.now of_directives chain.old (Some (requires_tree x.old)) result chain.new (Some (requires_tree x.new)) }
{
    settle_attributes(&mut x.attributes, chain, features)
}
