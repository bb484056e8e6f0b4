//! What a name's value is.

use wgsl_eval_machine::{NameFault, Stop};
use wgsl_eval_names::{Declared, Directory, Meaning};
use wgsl_eval_operands::{DeclarationFrame, Frame, Frames, Local, Machine, Root, Slot, Start};
use wgsl_expressions::TypeExpression;
use wgsl_simple_statements::{Declaration, DeclarationKind};
use wgsl_words::{ShaderStage, is_known, other_types};

/// Stops, since a name has no value.
pub(crate) fn refuse_free<T>(machine: &mut Machine, name: &str, is_path: bool) -> Result<T, Stop> {
    if !is_path && is_known(name, other_types()) {
        machine.refuse_todo(name)
    } else {
        machine.refuse_name(NameFault::UnknownDecl, name)
    }
}

/// Whether a value of a module has none at this stage.
fn is_hidden(machine: &Machine, declaration: &Declaration) -> bool {
    let has_started = machine.start == Start::All;
    match declaration.kind {
        DeclarationKind::Override => !has_started || machine.stage == ShaderStage::Const,
        DeclarationKind::Var(_) => !has_started || machine.stage != ShaderStage::Exec,
        _ => false,
    }
}

/// The value of a declaration is an operand, found first where it isn't known yet.
fn fetch<'s>(
    machine: &mut Machine,
    frames: &mut Frames<'s>,
    number: usize,
    declaration: &Declaration,
) -> Result<(), Stop> {
    if is_hidden(machine, declaration) {
        return machine.refuse_access(declaration.ident.name());
    }
    if matches!(machine.slots.get(number), Some(Slot::Found(_))) {
        return machine.push_known(Root::Module(number));
    }
    frames.push(Frame::Declaration(DeclarationFrame::Push(number)))?;
    frames.push(Frame::Declaration(DeclarationFrame::Start(number)))?;
    Ok(())
}

fn local(machine: &mut Machine, position: usize, name: &str) -> Result<(), Stop> {
    match machine.locals.at(position) {
        Some(Local::Known(_)) => machine.push_known(Root::Local(position)),
        _ => machine.refuse_name(NameFault::UnknownDecl, name),
    }
}

/// The operand that a name stands for.
pub(crate) fn name<'s>(
    directory: &Directory<'s>,
    machine: &mut Machine,
    frames: &mut Frames<'s>,
    ty: &TypeExpression,
) -> Result<(), Stop> {
    let name = ty.ident.name();
    if ty.template_args.is_some() {
        return machine.refuse_template(name);
    }
    if ty.path.is_some() {
        return refuse_free(machine, name, true);
    }
    if let Some(position) = machine.locals.position(name) {
        return local(machine, position, name);
    }
    match directory.meaning(ty) {
        Meaning::Module(number) => match directory.declared(number) {
            Declared::Value(declaration) => fetch(machine, frames, number, declaration),
            _ => machine.refuse_name(NameFault::UnknownDecl, name),
        },
        _ => refuse_free(machine, name, false),
    }
}
