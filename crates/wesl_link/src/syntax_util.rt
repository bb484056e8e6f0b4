//! What linking asks of the tree of a module.

ghost use Rattle.std.specs.Prelude.{◌≡◌, ◌++◌, OnOk};
ghost use Rattle.std.specs.List.{flat_map};
ghost use Rattle.wesl_visit_children.specs.Turns.{pointed};
ghost use Rattle.wesl_link.specs.EntryPoints as spec;

use std::alloc::{AllocError, Global};
use wgsl_declarations::{Function, GlobalDeclaration, GlobalDeclarationNode, TranslationUnit};
use wgsl_expressions::{Attribute, AttributeNode};
use wgsl_path::Ident;

/// What linking asks of the tree of a module, and does with it alone.
pub trait SyntaxUtil {
    ghost use Rattle.std.specs.Prelude.{◌≡◌, List, IfOk};
    ghost use Rattle.wesl_visit_children.specs.Turns.{pointed};
    ghost use Rattle.wgsl_path.specs.declared.ident.Ident.{Ident};

    /// The names of the entry points, in the order of the text.
    ghost entries: { Self → List Ident };

    /// The names of the entry points, in the order of the text: of the functions with the attribute of a stage.
    fn entry_points<'a>(&'a self, alloc: Global) -> Result<Vec<&'a Ident>, AllocError>
        ensures { IfOk result (λ found. pointed found.items ≡ entries self.now) };

    /// Gives each identifier the number of the symbol that it stands for, by the scopes of this module: the declarations of the module are
    /// numbered in order, local declarations and parameters behind them. A name that nothing declares, or that stands behind a path, has
    /// none. Where memory is refused nothing is changed.
    fn retarget_idents(&mut self, alloc: Global) -> Result<(), AllocError>;
}

impl SyntaxUtil for TranslationUnit {
    ghost use Rattle.wesl_link.specs.EntryPoints.{entry_points as entries_of};

    ghost entries = { entries_of };

    fn entry_points<'a>(&'a self, alloc: Global) -> Result<Vec<&'a Ident>, AllocError> {
        let mut found = Vec::new(alloc);
        find_entries(self.global_declarations.as_slice(), &mut found)?;
        Ok(found)
    }

    fn retarget_idents(&mut self, alloc: Global) -> Result<(), AllocError> {
        wesl_assemble::retarget_idents(alloc, self)
    }
}

fn find_entries<'a>(
    declarations: &'a [GlobalDeclarationNode],
    found: &mut Vec<&'a Ident>,
) -> Result<(), AllocError>
    ensures { OnOk result (pointed found.new.items ≡ pointed found.old.items ++ flat_map spec.entry_of_node declarations.now) }
{
    for declaration in declarations {
        find_entry(declaration.node(), found)?;
    }
    Ok(())
}

fn find_entry<'a>(
    declaration: &'a GlobalDeclaration,
    found: &mut Vec<&'a Ident>,
) -> Result<(), AllocError>
    ensures { OnOk result (pointed found.new.items ≡ pointed found.old.items ++ spec.entry_of declaration.now) }
{
    match declaration {
        GlobalDeclaration::Function(x) => find_function(x, found),
        GlobalDeclaration::Void => Ok(()),
        GlobalDeclaration::Declaration(_) => Ok(()),
        GlobalDeclaration::TypeAlias(_) => Ok(()),
        GlobalDeclaration::Struct(_) => Ok(()),
        GlobalDeclaration::ConstAssert(_) => Ok(()),
    }
}

fn find_function<'a>(function: &'a Function, found: &mut Vec<&'a Ident>) -> Result<(), AllocError>
    ensures { OnOk result (pointed found.new.items ≡ pointed found.old.items ++ spec.entry_of_function function.now) }
{
    if has_stage(function.attributes.as_slice()) {
        found.push(&function.ident)?;
    }
    Ok(())
}

/// Whether attributes have that of a stage.
fn has_stage(attributes: &[AttributeNode]) -> bool
    ensures { result ≡ spec.has_stage attributes.now }
{
    for attribute in attributes {
        if is_stage(attribute.node()) {
            return true;
        }
    }
    false
}

fn is_stage(attribute: &Attribute) -> bool
    ensures { result ≡ spec.is_stage attribute.now }
{
    matches!(
        attribute,
        Attribute::Vertex | Attribute::Fragment | Attribute::Compute
    )
}
