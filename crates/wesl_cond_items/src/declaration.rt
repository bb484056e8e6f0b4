//! Items of a module's lists: imports, directives, declarations, members and parameters.

ghost use Rattle.std.specs.Prelude.{◌≡◌};
ghost use Rattle.std.specs.Option.{option_map, option_copied};
ghost use Rattle.wgsl_expressions.specs.AttributesView.{attributes_tree};
ghost use Rattle.wgsl_declarations.specs.ImportsView.{directive_tree};
ghost use Rattle.wgsl_declarations.specs.View.{declaration_tree};
ghost use Rattle.wesl_conditions.specs.Walks.{Settles};
ghost use Rattle.wesl_conditions.specs.Trees.{of_declarations, of_directives, declaration_attributes};

use crate::item::Item;
use crate::own_declaration as own;
use wesl_cond_attributes::settle_attributes;
use wesl_conditions::{Chain, Features};
use wgsl_declarations::{
    FormalParameter, GlobalDeclaration, GlobalDeclarationNode, GlobalDirective, ImportStatement,
    StructMemberNode,
};
use wgsl_expressions::Attributes;

impl Item for StructMemberNode {
    ghost use Rattle.std.specs.Prelude.{Some, None};
    ghost use Rattle.wgsl_declarations.specs.Tree.{Member};
    ghost use Rattle.wgsl_declarations.specs.View.{member_tree};
    ghost use Rattle.wesl_conditions.specs.Trees.{of_members};

    ghost Tree = { Member };

    ghost has = { of_members };

    ghost tree = { λ n. Some (member_tree n.node) };

    ghost inside = { λ features x. None };

    fn attributes(&self) -> Option<&Attributes> {
        Some(&self.node().attributes)
    }

    fn settle(&mut self, chain: &mut Chain, features: &Features) -> bool {
        settle_attributes(&mut self.node_mut().attributes, chain, features)
    }
}

impl Item for FormalParameter {
    ghost use Rattle.std.specs.Prelude.{Some, None};
    ghost use Rattle.wgsl_declarations.specs.Tree.{Param};
    ghost use Rattle.wgsl_declarations.specs.View.{parameter_tree};
    ghost use Rattle.wesl_conditions.specs.Trees.{of_parameters};

    ghost Tree = { Param };

    ghost has = { of_parameters };

    ghost tree = { λ x. Some (parameter_tree x) };

    ghost inside = { λ features x. None };

    fn attributes(&self) -> Option<&Attributes> {
        Some(&self.attributes)
    }

    fn settle(&mut self, chain: &mut Chain, features: &Features) -> bool {
        settle_attributes(&mut self.attributes, chain, features)
    }
}

impl Item for ImportStatement {
    ghost use Rattle.std.specs.Prelude.{Some, None};
    ghost use Rattle.wgsl_declarations.specs.ImportsTree.{Importing};
    ghost use Rattle.wgsl_declarations.specs.ImportsView.{importing_tree};
    ghost use Rattle.wesl_conditions.specs.Trees.{of_imports};

    ghost Tree = { Importing };

    ghost has = { of_imports };

    ghost tree = { λ x. Some (importing_tree x) };

    ghost inside = { λ features x. None };

    fn attributes(&self) -> Option<&Attributes> {
        Some(&self.attributes)
    }

    fn settle(&mut self, chain: &mut Chain, features: &Features) -> bool {
        settle_attributes(&mut self.attributes, chain, features)
    }
}

impl Item for GlobalDirective {
    ghost use Rattle.std.specs.Prelude.{Some, None};
    ghost use Rattle.wgsl_declarations.specs.ImportsTree.{Directive};
    ghost use Rattle.wgsl_declarations.specs.ImportsView.{directive_tree};
    ghost use Rattle.wesl_conditions.specs.Trees.{of_directives};

    ghost Tree = { Directive };

    ghost has = { of_directives };

    ghost tree = { λ x. Some (directive_tree x) };

    ghost inside = { λ features x. None };

    fn attributes(&self) -> Option<&Attributes> {
        match self {
            GlobalDirective::Diagnostic(x) => Some(&x.attributes),
            GlobalDirective::Enable(x) => Some(&x.attributes),
            GlobalDirective::Requires(x) => Some(&x.attributes),
        }
    }

    fn settle(&mut self, chain: &mut Chain, features: &Features) -> bool {
        match self {
            GlobalDirective::Diagnostic(x) => own::own_diagnostic(x, chain, features),
            GlobalDirective::Enable(x) => own::own_enable(x, chain, features),
            GlobalDirective::Requires(x) => own::own_requires_directive(x, chain, features),
        }
    }
}

/// The attributes of a declaration. A `;` alone has none.
fn attributes_of(declaration: &GlobalDeclaration) -> Option<&Attributes>
    ensures { option_map attributes_tree (option_copied result) ≡ option_map declaration_attributes (declaration_tree declaration.now) }
{
    match declaration {
        GlobalDeclaration::Void => None,
        GlobalDeclaration::Declaration(x) => Some(&x.attributes),
        GlobalDeclaration::TypeAlias(x) => Some(&x.attributes),
        GlobalDeclaration::Struct(x) => Some(&x.attributes),
        GlobalDeclaration::Function(x) => Some(&x.attributes),
        GlobalDeclaration::ConstAssert(x) => Some(&x.attributes),
    }
}

/// What features leave of a declaration's attributes; and whether it stays. A `;` alone does.
fn settle_own(declaration: &mut GlobalDeclaration, chain: &mut Chain, features: &Features) -> bool
    ensures { Settles features.now of_declarations chain.old (declaration_tree declaration.old) result chain.new (declaration_tree declaration.new) }
{
    match declaration {
        GlobalDeclaration::Void => true,
        GlobalDeclaration::Declaration(x) => own::own_variable(x, chain, features),
        GlobalDeclaration::TypeAlias(x) => own::own_alias(x, chain, features),
        GlobalDeclaration::Struct(x) => own::own_structure(x, chain, features),
        GlobalDeclaration::Function(x) => own::own_function(x, chain, features),
        GlobalDeclaration::ConstAssert(x) => own::own_assertion(x, chain, features),
    }
}

impl Item for GlobalDeclarationNode {
    ghost use Rattle.wgsl_declarations.specs.Tree.{Decl};
    ghost use Rattle.wgsl_declarations.specs.View.{declaration_tree};
    ghost use Rattle.wesl_conditions.specs.Trees.{of_declarations};
    ghost use Rattle.wesl_conditions.specs.Faults.{declaration_fault};

    ghost Tree = { Decl };

    ghost has = { of_declarations };

    ghost tree = { λ n. declaration_tree n.node };

    ghost inside = { declaration_fault };

    fn attributes(&self) -> Option<&Attributes> {
        attributes_of(self.node())
    }

    fn settle(&mut self, chain: &mut Chain, features: &Features) -> bool {
        settle_own(self.node_mut(), chain, features)
    }
}
