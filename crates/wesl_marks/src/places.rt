//! The marks of a module, and its places.

ghost use Rattle.std.specs.Prelude.{◌≡◌, ◌++◌, length, IfOk, OnOk};
ghost use Rattle.std.specs.List.{list_any, AllZip};
ghost use Rattle.wgsl_expressions.specs.AttributesView.{attribute_tree, attributes_tree};
ghost use Rattle.wgsl_declarations.specs.ImportsView.{directive_tree};
ghost use Rattle.wgsl_declarations.specs.View.{declaration_tree};
ghost use Rattle.wesl_mark.specs.Lists.{flats, says, OnlyGrows};
ghost use Rattle.wesl_mark.specs.Places.{IsNumber, IsSpot};
ghost use Rattle.wesl_marks.specs.Units as units;
ghost use Rattle.wesl_marks.specs.Units.{declaration_flats, declaration_spot, directive_flats, directive_spot, is_stage, unit_spots};

use crate::declarations::mark_declaration;
use crate::expressions::mark_attributes;
use std::alloc::{AllocError, Global};
use wesl_mark::{Kind, MarkList, Place};
use wgsl_declarations::{GlobalDeclaration, GlobalDirective, TranslationUnit};
use wgsl_expressions::{Attribute, AttributeNode};

/// Adds the marks of a unit to a list, and returns the unit's places: its directives, and behind them its declarations, `;` counted.
pub fn mark_unit(
    alloc: Global,
    list: &mut MarkList,
    unit: &TranslationUnit,
) -> Result<Vec<Place>, AllocError>
    ensures places { IfOk result (λ places. AllZip (IsSpot list.new) places.items (unit_spots unit.now)) }
    ensures grows { OnOk result (OnlyGrows list.old list.new) }
{
    let mut places = Vec::new(alloc);
    for directive in unit.global_directives.as_slice() {
        places.push(mark_directive_place(directive, list)?)?;
    }
    for declaration in unit.global_declarations.as_slice() {
        places.push(mark_place(declaration.node(), list)?)?;
    }
    Ok(places)
}

/// Marks a directive: its attributes.
#[tactic(auto, using(crate::proofs::Spots::laid_directive))]
pub fn mark_directive(directive: &GlobalDirective, list: &mut MarkList) -> Result<(), AllocError>
    ensures flats { OnOk result (flats list.new ≡ flats list.old ++ directive_flats (directive_tree directive.now)) }
    ensures grows { OnOk result (OnlyGrows list.old list.new) }
{
    match directive {
        GlobalDirective::Diagnostic(x) => mark_attributes(x.attributes.as_slice(), list),
        GlobalDirective::Enable(x) => mark_attributes(x.attributes.as_slice(), list),
        GlobalDirective::Requires(x) => mark_attributes(x.attributes.as_slice(), list),
    }
}

/// Marks a directive, and returns its place.
fn mark_directive_place(
    directive: &GlobalDirective,
    list: &mut MarkList,
) -> Result<Place, AllocError>
    ensures spot { IfOk result (λ place. IsSpot list.new place (directive_spot (directive_tree directive.now))) }
    ensures grows { OnOk result (OnlyGrows list.old list.new) }
{
    let start = list.len();
    mark_directive(directive, list)?;
    Ok(Place {
        kind: Kind::Directive,
        name: None,
        start,
        end: list.len(),
    })
}

/// Marks a declaration, and returns its place.
fn mark_place(declaration: &GlobalDeclaration, list: &mut MarkList) -> Result<Place, AllocError>
    ensures spot { IfOk result (λ place. IsSpot list.new place (declaration_spot (declaration_tree declaration.now))) }
    ensures grows { OnOk result (OnlyGrows list.old list.new) }
{
    let start = list.len();
    mark_declaration(declaration, list)?;
    Ok(Place {
        kind: kind_of(declaration),
        name: name_of(declaration, list)?,
        start,
        end: list.len(),
    })
}

/// The number of a declaration's name. It is there already, behind the declaration's marks.
fn name_of(declaration: &GlobalDeclaration, list: &mut MarkList) -> Result<Option<u32>, AllocError>
    ensures name { IfOk result (λ number. IsNumber list.new.names.keys number (units.name_of (declaration_tree declaration.now))) }
    ensures says { OnOk result (says list.new ≡ says list.old) }
    ensures flats { OnOk result (flats list.new ≡ flats list.old) }
    ensures grows { OnOk result (OnlyGrows list.old list.new) }
{
    let ident = match declaration {
        GlobalDeclaration::Void => return Ok(None),
        GlobalDeclaration::ConstAssert(_) => return Ok(None),
        GlobalDeclaration::Declaration(x) => &x.ident,
        GlobalDeclaration::TypeAlias(x) => &x.ident,
        GlobalDeclaration::Struct(x) => &x.ident,
        GlobalDeclaration::Function(x) => &x.ident,
    };
    let number = list.number(ident.as_str())?;
    Ok(Some(number))
}

fn kind_of(declaration: &GlobalDeclaration) -> Kind
    ensures { result ≡ units.kind_of (declaration_tree declaration.now) }
{
    match declaration {
        GlobalDeclaration::Void => Kind::Void,
        GlobalDeclaration::Declaration(_) => Kind::Variable,
        GlobalDeclaration::TypeAlias(_) => Kind::Alias,
        GlobalDeclaration::Struct(x) => Kind::Struct {
            members: counted(x.members.len()),
        },
        GlobalDeclaration::Function(x) => Kind::Function {
            parameters: counted(x.parameters.len()),
            is_entry_point: has_stage(x.attributes.as_slice()),
        },
        GlobalDeclaration::ConstAssert(_) => Kind::Assertion,
    }
}

/// How many there are, or the greatest number below that.
fn counted(count: usize) -> u32
    ensures { result ≡ units.counted count }
{
    match u32::try_from(count) {
        Ok(count) => count,
        Err(_) => u32::MAX,
    }
}

/// Whether a function has the attribute of a stage.
fn has_stage(attributes: &[AttributeNode]) -> bool
    ensures { result ≡ list_any is_stage (attributes_tree attributes.now) }
{
    for attribute in attributes {
        if is_of_stage(attribute.node()) {
            return true;
        }
    }
    false
}

fn is_of_stage(attribute: &Attribute) -> bool
    ensures { result ≡ is_stage (attribute_tree attribute.now) }
{
    matches!(
        attribute,
        Attribute::Vertex | Attribute::Fragment | Attribute::Compute
    )
}
