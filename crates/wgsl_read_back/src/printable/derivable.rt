//! Modules whose printed text is parsed.

ghost use Rattle.std.specs.Prelude.{◌≡◌, Decides, IfOk};
ghost use Rattle.wgsl_declarations.specs.View.{declaration_tree, unit_tree};
ghost use Rattle.wgsl_declarations.specs.Print.{unit_text};
ghost use Rattle.wgsl_nodes_in_order.specs.Found.{node_of};
ghost use Rattle.wgsl_nodes_in_order.specs.Placed.{holding};
ghost use Rattle.wgsl_nodes_in_order.specs.Alone.{alone, at_most_one};
ghost use Rattle.wgsl_read_back.specs.Derivable.{IsDerivable, IsPrinted};

use crate::parse_str;
use std::alloc::Global;
use wgsl_base::CloneIn;
use wgsl_declarations::{GlobalDeclaration, TranslationUnit, let_go};
use wgsl_empty_items::remove_voids;
use wgsl_nodes_in_order::{NodeRef, with_declaration, with_node};
use wgsl_token::fault::Refusal;

/// Whether another module stands for the same tree. Both lose their empty items.
#[tactic(auto, using(wgsl_empty_items::proofs::EqualityModules::units_decide_once))]
fn is_same(unit: &mut TranslationUnit, other: TranslationUnit) -> bool
    ensures same { Decides result (unit_tree unit.old ≡ unit_tree other) }
    ensures tree { unit_tree unit.new ≡ unit_tree unit.old }
{
    let mut other = other;
    remove_voids(unit);
    remove_voids(&mut other);
    let same = *unit == other;
    let_go(other);
    same
}

/// Whether some text derives a module, by its printed text. The module loses its empty items.
fn round_trips(alloc: Global, printed: &str, unit: &mut TranslationUnit) -> Result<bool, Refusal>
    requires { printed.now ≡ unit_text (unit_tree unit.old) }
    ensures said { IfOk result (λ said. Decides said (IsDerivable (unit_tree unit.old))) }
    ensures tree { unit_tree unit.new ≡ unit_tree unit.old }
{
    match parse_str(alloc, printed) {
        Ok(other) => Ok(is_same(unit, other)),
        Err(error) => match error.refusal() {
            Some(refusal) => Err(refusal),
            None => Ok(false),
        },
    }
}

/// The printed text of a module, where some text derives the module. That is so exactly where the printed text does. The module loses its
/// empty items.
#[tactic(auto, using(crate::proofs::Deciding::printed_so))]
pub fn print_derivable(alloc: Global, unit: &mut TranslationUnit) -> Result<Option<String>, Refusal>
    ensures printed { IfOk result (IsPrinted (unit_tree unit.old)) }
    ensures tree { unit_tree unit.new ≡ unit_tree unit.old }
{
    let printed = unit.to_string(alloc)?;
    if round_trips(alloc, printed.as_str(), unit)? {
        Ok(Some(printed))
    } else {
        Ok(None)
    }
}

/// Whether some text derives a module. The module loses its empty items.
fn is_derivable_as_it_is(alloc: Global, unit: &mut TranslationUnit) -> Result<bool, Refusal>
    ensures { IfOk result (λ derivable. Decides derivable (IsDerivable (unit_tree unit.old))) }
{
    let printed = unit.to_string(alloc)?;
    round_trips(alloc, printed.as_str(), unit)
}

/// Whether some text derives a module, which is dropped.
fn is_dropped_derivable(alloc: Global, unit: TranslationUnit) -> Result<bool, Refusal>
    ensures { IfOk result (λ derivable. Decides derivable (IsDerivable (unit_tree unit))) }
{
    let mut unit = unit;
    let derivable = is_derivable_as_it_is(alloc, &mut unit);
    let_go(unit);
    derivable
}

/// Whether some text derives a module.
pub fn is_derivable(alloc: Global, unit: &TranslationUnit) -> Result<bool, Refusal>
    ensures { IfOk result (λ derivable. Decides derivable (IsDerivable (unit_tree unit.now))) }
{
    is_dropped_derivable(alloc, unit.clone_in(alloc)?)
}

/// Whether some text derives the module of a declaration alone.
pub fn is_declaration_derivable(
    alloc: Global,
    declaration: &GlobalDeclaration,
) -> Result<bool, Refusal>
    ensures { IfOk result (λ derivable. Decides derivable (IsDerivable (at_most_one (declaration_tree declaration.now)))) }
{
    is_dropped_derivable(alloc, with_declaration(alloc, declaration)?)
}

/// Whether some text derives the module of a declaration that holds a node alone.
pub fn is_node_derivable(alloc: Global, node: NodeRef) -> Result<bool, Refusal>
    ensures { IfOk result (λ derivable. Decides derivable (IsDerivable (alone (holding (node_of node.entry))))) }
{
    is_dropped_derivable(alloc, with_node(alloc, node)?)
}
