//! The check of a module.

ghost use Rattle.std.specs.Prelude.{◌≡◌};
ghost use Rattle.wgsl_declarations.specs.View.{unit_tree};
ghost use Rattle.wgsl_read_back.specs.Derivable.{IsDerivable};
ghost use Rattle.wgsl_check_unit.specs.Telling.{IsRefused, Checks, Prints};

use crate::error::Unprintable;
use crate::told::told_of;
use std::alloc::Global;
use wgsl_declarations::TranslationUnit;
use wgsl_read_back::{is_derivable, print_derivable};

/// Why a module that no text derives has no text.
fn refusal(alloc: Global, unit: &TranslationUnit) -> Unprintable
    requires { IsDerivable (unit_tree unit.now) → ⊥ }
    ensures { IsRefused (unit_tree unit.now) result }
{
    match told_of(alloc, unit) {
        Ok(name) => Unprintable::Node(name),
        Err(refusal) => Unprintable::GaveUp(refusal),
    }
}

/// The text of a module, which is a module with the same tree. Where no text is such a module, it says so, and names the first node that
/// no text derives, as `check_unit` does. The module loses its empty items.
pub fn print_checked(alloc: Global, unit: &mut TranslationUnit) -> Result<String, Unprintable>
    ensures answer { Prints (unit_tree unit.old) result }
    ensures tree { unit_tree unit.new ≡ unit_tree unit.old }
{
    match print_derivable(alloc, unit)? {
        Some(printed) => Ok(printed),
        None => Err(refusal(alloc, unit)),
    }
}

/// Whether some text derives a module, that is, whether some text is a module with the same tree.
///
/// Where none is, it names the first node that no text derives though one derives each of its parts, in the order of the text. Nodes are
/// the attributes of directives and what is in them, the attributes, expressions, types, statements, members and parameters of declarations,
/// and the declarations themselves. Declarations
/// (local ones too), members, parameters and types have names; a callee and any other name in an expression is a type. What has none is
/// told by the declaration of the module that holds it.
pub fn check_unit(alloc: Global, unit: &TranslationUnit) -> Result<(), Unprintable>
    ensures { Checks (unit_tree unit.now) result }
{
    if is_derivable(alloc, unit)? {
        Ok(())
    } else {
        Err(refusal(alloc, unit))
    }
}
