//! What is put into directives and modules.

ghost use Rattle.std.specs.Prelude.{◌≡◌, map};
ghost use Rattle.wgsl_declarations.specs.ImportsView.{diagnostic_tree, enable_tree, requires_tree, directive_tree};
ghost use Rattle.wgsl_declarations.specs.View.{declarations_tree, unit_tree};
ghost use Rattle.wesl_marks_mut.specs.Walks.{each};
ghost use Rattle.wesl_marks_mut.specs.WrittenUnits.{declaration_written, directive_written, unit_written};

use crate::attributes::write_attributes;
use crate::declarations::write_declaration;
use crate::script::Script;
use wgsl_base::Items;
use wgsl_declarations::{
    DiagnosticDirective, EnableDirective, GlobalDeclarationNode, GlobalDirective,
    RequiresDirective, TranslationUnit,
};

/// Writes the attributes of `diagnostic`.
fn write_diagnostic(x: &mut DiagnosticDirective, script: &mut Script)
    ensures tree { diagnostic_tree x.new ≡ (directive_written (diagnostic_tree x.old) script.old.rest.items).0 }
    ensures rest { script.new.rest.items ≡ (directive_written (diagnostic_tree x.old) script.old.rest.items).1 }
{
    write_attributes(&mut x.attributes, script);
}

/// Writes the attributes of `enable`.
fn write_enable(x: &mut EnableDirective, script: &mut Script)
    ensures tree { enable_tree x.new ≡ (directive_written (enable_tree x.old) script.old.rest.items).0 }
    ensures rest { script.new.rest.items ≡ (directive_written (enable_tree x.old) script.old.rest.items).1 }
{
    write_attributes(&mut x.attributes, script);
}

/// Writes the attributes of `requires`.
fn write_requires(x: &mut RequiresDirective, script: &mut Script)
    ensures tree { requires_tree x.new ≡ (directive_written (requires_tree x.old) script.old.rest.items).0 }
    ensures rest { script.new.rest.items ≡ (directive_written (requires_tree x.old) script.old.rest.items).1 }
{
    write_attributes(&mut x.attributes, script);
}

/// Writes into a directive what a script holds for it.
pub fn write_directive(directive: &mut GlobalDirective, script: &mut Script)
    ensures tree { directive_tree directive.new ≡ (directive_written (directive_tree directive.old) script.old.rest.items).0 }
    ensures rest { script.new.rest.items ≡ (directive_written (directive_tree directive.old) script.old.rest.items).1 }
{
    match directive {
        GlobalDirective::Diagnostic(x) => write_diagnostic(x, script),
        GlobalDirective::Enable(x) => write_enable(x, script),
        GlobalDirective::Requires(x) => write_requires(x, script),
    }
}

/// Writes into a module what a script holds for it: into its directives, and behind them into its declarations.
pub fn write_unit(unit: &mut TranslationUnit, script: &mut Script)
    ensures tree { unit_tree unit.new ≡ (unit_written (unit_tree unit.old) script.old.rest.items).0 }
    ensures rest { script.new.rest.items ≡ (unit_written (unit_tree unit.old) script.old.rest.items).1 }
{
    write_directives(&mut unit.global_directives, script);
    write_declarations(&mut unit.global_declarations, script);
}

fn write_directives(directives: &mut Items<GlobalDirective>, script: &mut Script)
    ensures tree { map directive_tree directives.new ≡ (each directive_written (map directive_tree directives.old) script.old.rest.items).0 }
    ensures rest { script.new.rest.items ≡ (each directive_written (map directive_tree directives.old) script.old.rest.items).1 }
{
    for i in 0..directives.len() {
        write_directive(directives.get_mut(i), script);
    }
}

fn write_declarations(nodes: &mut Items<GlobalDeclarationNode>, script: &mut Script)
    ensures tree { declarations_tree nodes.new ≡ (each declaration_written (declarations_tree nodes.old) script.old.rest.items).0 }
    ensures rest { script.new.rest.items ≡ (each declaration_written (declarations_tree nodes.old) script.old.rest.items).1 }
{
    for i in 0..nodes.len() {
        write_declaration(nodes.get_mut(i).node_mut(), script);
    }
}
