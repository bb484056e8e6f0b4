//! The loop.

use wgsl_declarations::{GlobalDeclaration, TranslationUnit};
use wgsl_eval_declarations::step;
use wgsl_eval_machine::{Frame, Frames, Local, Machine, Stop, ValueFrame};
use wgsl_eval_names::Directory;
use wgsl_eval_statements::{Works, begin_body, step_statement};
use wgsl_expressions::{Expression, ExpressionNode};
use wgsl_instance::Instance;
use wgsl_statements::CompoundStatement;

/// What becomes of the use of a local of which the type alone is known.
#[derive(Clone, Copy)]
pub enum TypedLocals {
    /// It has a value of that type, which the run is to find.
    Deferred,
    /// It isn't accessible.
    Refused,
}

/// The body of a function, by the number of its declaration.
fn body_of(unit: &TranslationUnit, number: usize) -> Option<&CompoundStatement> {
    match unit.global_declarations.get(number) {
        Some(node) => match node.node() {
            GlobalDeclaration::Function(x) => Some(&x.body),
            _ => None,
        },
        None => None,
    }
}

/// One step of statements.
fn work<'s>(
    directory: &Directory<'s>,
    machine: &mut Machine,
    frames: &mut Frames<'s>,
    works: &mut Works<'s>,
) -> Result<(), Stop> {
    match works.pop() {
        Some(next) => step_statement(directory, machine, frames, works, next),
        None => Err(Stop::OutOfMemory),
    }
}

fn enter<'s>(
    unit: &'s TranslationUnit,
    frames: &mut Frames<'s>,
    works: &mut Works<'s>,
    number: usize,
) -> Result<(), Stop> {
    match body_of(unit, number) {
        Some(body) => begin_body(frames, works, body),
        None => Err(Stop::OutOfMemory),
    }
}

/// The name that an expression is, if it stands for a local of which the type alone is known.
fn typed_name<'n>(machine: &Machine, node: &'n ExpressionNode) -> Option<&'n str> {
    let Expression::TypeOrIdentifier(ty) = node.node() else {
        return None;
    };
    if ty.path.is_some() || ty.template_args.is_some() {
        return None;
    }
    match machine.locals.get(ty.ident.name()) {
        Some(Local::Known(Instance::Deferred(_))) => Some(ty.ident.name()),
        _ => None,
    }
}

/// What a frame does.
fn step_frame<'s>(
    directory: &Directory<'s>,
    machine: &mut Machine,
    frames: &mut Frames<'s>,
    typed: TypedLocals,
    frame: Frame<'s>,
) -> Result<(), Stop> {
    if let TypedLocals::Refused = typed
        && let Frame::Value(ValueFrame::Node(node)) = frame
        && let Some(name) = typed_name(machine, node)
    {
        return machine.refuse_access(name);
    }
    step(directory, machine, frames, frame)
}

/// Goes on until no frame is left.
pub fn run_frames<'s>(
    unit: &'s TranslationUnit,
    directory: &Directory<'s>,
    machine: &mut Machine,
    frames: &mut Frames<'s>,
    works: &mut Works<'s>,
    typed: TypedLocals,
) -> Result<(), Stop> {
    for _turn in 0..u64::MAX {
        if let Some(Frame::Body) = frames.top() {
            work(directory, machine, frames, works)?;
        } else {
            match frames.pop() {
                None => return Ok(()),
                Some(Frame::Enter(number)) => enter(unit, frames, works, number)?,
                Some(frame) => step_frame(directory, machine, frames, typed, frame)?,
            }
        }
    }
    Err(Stop::OutOfMemory)
}
