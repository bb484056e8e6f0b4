//! The linked unit is put together.

ghost use Rattle.std.specs.Prelude.{◌≡◌, [], IfOk};

use crate::moving::{Moved, empty_unit, move_reversed, move_unless_equal};
use crate::numbering::Numbering;
use crate::scripts::{Meanings, find_meanings, script_of};
use std::alloc::{AllocError, Global};
use wesl_load::{HeldUnit, Resolutions};
use wesl_mark::Kind;
use wesl_marks_mut::{write_declaration, write_directive};
use wesl_module_index::{DeclarationId, Module};
use wgsl_base::{Items, Text};
use wgsl_declarations::{
    GlobalDeclarationNode, GlobalDirective, TranslationUnit, let_go, retain_declarations,
};

/// Puts the linked unit together: the directives of all loaded modules, equal ones once, and the held declarations, in the order of the
/// symbols' numbers and without imports. `names` has the name of each symbol, by number. The trees are moved out of the resolutions, whose
/// tables stay. Where each place of the unit comes from is added to `origins`: its directives, and behind them its declarations.
pub fn assemble(
    alloc: Global,
    resolutions: &mut Resolutions,
    numbering: &Numbering,
    names: &[Text],
    origins: &mut Vec<DeclarationId>,
) -> Result<TranslationUnit, AllocError>
    ensures { IfOk result (λ unit. unit.imports ≡ []) }
{
    let order = resolutions.modules.in_linked_order(alloc)?;
    write_modules(alloc, resolutions, numbering, names, order.as_slice())?;
    let mut linked = empty_unit(alloc);
    let taken = take_all(
        alloc,
        resolutions,
        order.as_slice(),
        &mut linked.global_directives,
        &mut linked.global_declarations,
        origins,
    );
    match taken {
        Ok(()) => Ok(linked),
        Err(error) => {
            let_go(linked);
            Err(error)
        }
    }
}

/// Moves the directives and what is held of the modules in this order.
fn take_all(
    alloc: Global,
    resolutions: &mut Resolutions,
    order: &[usize],
    directives: &mut Items<GlobalDirective>,
    declarations: &mut Items<GlobalDeclarationNode>,
    origins: &mut Vec<DeclarationId>,
) -> Result<(), AllocError> {
    let mut turned = HeldUnit::new(empty_unit(alloc));
    let mut moved = Moved::new(alloc);
    for number in order {
        if *number < resolutions.units.len() {
            let unit = resolutions.units[*number].get_mut();
            take_directives(
                unit,
                *number,
                turned.get_mut(),
                directives,
                &mut moved,
                origins,
            )?;
        }
    }
    for number in order {
        let taken = taken_declarations(alloc, resolutions, *number, origins)?;
        if *number < resolutions.units.len() {
            let unit = resolutions.units[*number].get_mut();
            take_declarations(unit, taken.as_slice(), turned.get_mut(), declarations)?;
        }
    }
    Ok(())
}

/// Writes the names of the linked unit into the modules.
fn write_modules(
    alloc: Global,
    resolutions: &mut Resolutions,
    numbering: &Numbering,
    names: &[Text],
    order: &[usize],
) -> Result<(), AllocError> {
    let mut meanings = Meanings::new(alloc, numbering.spots().len())?;
    for number in order {
        write_module(alloc, resolutions, numbering, names, *number, &mut meanings)?;
    }
    Ok(())
}

/// Writes the names of the linked unit into the directives and the held declarations of a module.
fn write_module(
    alloc: Global,
    resolutions: &mut Resolutions,
    numbering: &Numbering,
    names: &[Text],
    number: usize,
    meanings: &mut Meanings,
) -> Result<(), AllocError> {
    let count = match resolutions.modules.get(number) {
        None => 0,
        Some(module) => module.places.len(),
    };
    for place in 0..count {
        let spot = DeclarationId {
            module: number,
            place,
        };
        if is_taken(resolutions, spot) {
            write_place(alloc, resolutions, numbering, names, spot, meanings)?;
        }
    }
    Ok(())
}

/// Whether a place goes into the linked unit: each directive, and what is held but a `;` alone.
fn is_taken(resolutions: &Resolutions, spot: DeclarationId) -> bool {
    match kind_at(resolutions, spot) {
        None => false,
        Some(Kind::Directive) => true,
        Some(Kind::Void) => false,
        Some(_) => resolutions.is_held(spot),
    }
}

fn kind_at(resolutions: &Resolutions, spot: DeclarationId) -> Option<Kind> {
    match resolutions.modules.get(spot.module) {
        None => None,
        Some(module) => match module.places.get(spot.place) {
            None => None,
            Some(place) => Some(place.kind),
        },
    }
}

fn write_place(
    alloc: Global,
    resolutions: &mut Resolutions,
    numbering: &Numbering,
    names: &[Text],
    spot: DeclarationId,
    meanings: &mut Meanings,
) -> Result<(), AllocError> {
    match resolutions.modules.get(spot.module) {
        None => return Ok(()),
        Some(module) => find_in(resolutions, numbering, module, spot, meanings)?,
    }
    let mut script = script_of(alloc, meanings.meant.as_slice(), names)?;
    if spot.module < resolutions.units.len() {
        let unit = resolutions.units[spot.module].get_mut();
        let directives = unit.global_directives.len();
        if spot.place < directives {
            write_directive(unit.global_directives.get_mut(spot.place), &mut script);
        } else if spot.place - directives < unit.global_declarations.len() {
            let node = unit.global_declarations.get_mut(spot.place - directives);
            write_declaration(node.node_mut(), &mut script);
        }
    }
    Ok(())
}

fn find_in(
    resolutions: &Resolutions,
    numbering: &Numbering,
    module: &Module,
    spot: DeclarationId,
    meanings: &mut Meanings,
) -> Result<(), AllocError> {
    match module.places.get(spot.place) {
        None => Ok(()),
        Some(place) => find_meanings(resolutions, numbering, &module.list, spot, *place, meanings),
    }
}

/// Moves the directives of a module, in order and equal ones once.
fn take_directives(
    unit: &mut TranslationUnit,
    number: usize,
    turned: &mut TranslationUnit,
    directives: &mut Items<GlobalDirective>,
    moved: &mut Moved,
    origins: &mut Vec<DeclarationId>,
) -> Result<(), AllocError> {
    let count = unit.global_directives.len();
    move_reversed(&mut unit.global_directives, &mut turned.global_directives)?;
    for place in 0..count {
        let is_new = move_unless_equal(
            &mut turned.global_directives,
            directives,
            &mut unit.global_directives,
            moved,
        )?;
        if is_new {
            origins.push(DeclarationId {
                module: number,
                place,
            })?;
        }
    }
    Ok(())
}

/// Which of the declarations of a module go into the linked unit. Where each that does comes from is added to the origins.
fn taken_declarations(
    alloc: Global,
    resolutions: &Resolutions,
    number: usize,
    origins: &mut Vec<DeclarationId>,
) -> Result<Vec<bool>, AllocError> {
    let mut taken = Vec::new(alloc);
    let Some(module) = resolutions.modules.get(number) else {
        return Ok(taken);
    };
    for (place, entry) in module.places.iter().enumerate() {
        if entry.kind != Kind::Directive {
            let spot = DeclarationId {
                module: number,
                place,
            };
            let is_taken = is_taken(resolutions, spot);
            taken.push(is_taken)?;
            if is_taken {
                origins.push(spot)?;
            }
        }
    }
    Ok(taken)
}

/// Moves the declarations of a module that go into the linked unit, in order, and drops the others.
fn take_declarations(
    unit: &mut TranslationUnit,
    taken: &[bool],
    turned: &mut TranslationUnit,
    declarations: &mut Items<GlobalDeclarationNode>,
) -> Result<(), AllocError> {
    let mut at: usize = 0;
    retain_declarations(&mut unit.global_declarations, |_| {
        let is_taken = matches!(taken.get(at), Some(true));
        at = at.saturating_add(1);
        is_taken
    });
    move_reversed(
        &mut unit.global_declarations,
        &mut turned.global_declarations,
    )?;
    move_reversed(&mut turned.global_declarations, declarations)
}
