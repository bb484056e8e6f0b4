//! Conditions in modules.

ghost use Rattle.std.specs.Prelude.{◌≡◌, map};
ghost use Rattle.wgsl_declarations.specs.ImportsView.{importing_tree, directive_tree};
ghost use Rattle.wgsl_declarations.specs.View.{declaration_tree, declarations_tree, members_tree, parameter_tree, unit_tree};
ghost use Rattle.wesl_cond_left.specs.Open.{maybe_open_declaration, members_open, parameters_open, imports_open, directives_open, declarations_open, directive_open, unit_open};

use crate::attributes::is_conditional;
use crate::statements::in_block;
use wgsl_base::Items;
use wgsl_declarations::{
    FormalParameter, GlobalDeclaration, GlobalDeclarationNode, GlobalDirective, ImportStatement,
    StructMemberNode, TranslationUnit,
};

/// Whether a module has a condition anywhere.
pub fn has_conditions(unit: &TranslationUnit) -> bool
    ensures { result ≡ unit_open (unit_tree unit.now) }
{
    in_imports(&unit.imports)
        || in_directives(&unit.global_directives)
        || in_declarations(&unit.global_declarations)
}

fn in_imports(imports: &Items<ImportStatement>) -> bool
    ensures { result ≡ imports_open (map importing_tree imports.now) }
{
    for import in imports.as_slice() {
        if is_conditional(&import.attributes) {
            return true;
        }
    }
    false
}

fn in_directives(directives: &Items<GlobalDirective>) -> bool
    ensures { result ≡ directives_open (map directive_tree directives.now) }
{
    for directive in directives.as_slice() {
        if in_directive(directive) {
            return true;
        }
    }
    false
}

fn in_directive(directive: &GlobalDirective) -> bool
    ensures { result ≡ directive_open (directive_tree directive.now) }
{
    match directive {
        GlobalDirective::Diagnostic(x) => is_conditional(&x.attributes),
        GlobalDirective::Enable(x) => is_conditional(&x.attributes),
        GlobalDirective::Requires(x) => is_conditional(&x.attributes),
    }
}

#[tactic(auto, using(crate::proofs::Layers::first_declaration))]
fn in_declarations(declarations: &Items<GlobalDeclarationNode>) -> bool
    ensures { result ≡ declarations_open (declarations_tree declarations.now) }
{
    for declaration in declarations.as_slice() {
        if in_declaration(declaration.node()) {
            return true;
        }
    }
    false
}

fn in_declaration(declaration: &GlobalDeclaration) -> bool
    ensures { result ≡ maybe_open_declaration (declaration_tree declaration.now) }
{
    match declaration {
        GlobalDeclaration::Void => false,
        GlobalDeclaration::Declaration(x) => is_conditional(&x.attributes),
        GlobalDeclaration::TypeAlias(x) => is_conditional(&x.attributes),
        GlobalDeclaration::Struct(x) => is_conditional(&x.attributes) || in_members(&x.members),
        GlobalDeclaration::Function(x) => {
            is_conditional(&x.attributes)
                || in_parameters(&x.parameters)
                || is_conditional(&x.return_attributes)
                || in_block(&x.body)
        }
        GlobalDeclaration::ConstAssert(x) => is_conditional(&x.attributes),
    }
}

fn in_members(members: &Items<StructMemberNode>) -> bool
    ensures { result ≡ members_open (members_tree members.now) }
{
    for member in members.as_slice() {
        if is_conditional(&member.node().attributes) {
            return true;
        }
    }
    false
}

fn in_parameters(parameters: &Items<FormalParameter>) -> bool
    ensures { result ≡ parameters_open (map parameter_tree parameters.now) }
{
    for parameter in parameters.as_slice() {
        if is_conditional(&parameter.attributes) {
            return true;
        }
    }
    false
}
