//! The reader's loop.

ghost use Rattle.std.specs.Prelude.{◌≡◌, reverse, IfOk};
ghost use Rattle.wgsl_templates.specs.Answers.{IsAnswer};
ghost use Rattle.wgsl_templates.specs.Actions as actions;

use crate::meaning::Kind;
use crate::recognizer::actions::{action, fresh};
use crate::recognizer::place::{Action, Enclosing, Frame, Outcome, Place, State};
use crate::recognizer::recognize::{Answer, Recognizer};
use std::alloc::{AllocError, Global};

/// A recognizer of template lists. Its stack grows with the brackets that are open at once.
#[derive(Clone, Copy)]
pub struct ListRecognizer {
    pub alloc: Global,
}

impl Recognizer for ListRecognizer {
    fn recognize(&self, kinds: &[Kind]) -> Result<Answer, AllocError> {
        let mut frames: Vec<Frame> = Vec::new(self.alloc);
        let mut state = State {
            place: Place::Operand,
            progress: fresh(),
        };
        let mut rest = kinds;
        while let Some((kind, behind)) = rest.split_first() {
            match step(&mut frames, state, *kind)? {
                Outcome::Reads(next) => state = next,
                Outcome::Ends(answer) => return Ok(answer),
            }
            rest = behind;
        }
        Ok(Answer::Unfinished)
    }
}

/// Takes a token.
fn step(frames: &mut Vec<Frame>, state: State, kind: Kind) -> Result<Outcome, AllocError>
    ensures { IfOk result (λ outcome. actions.status outcome (reverse frames.new.items) ≡ actions.next state (reverse frames.old.items) kind) }
{
    match action(state, enclosing(frames.as_slice()), kind) {
        Action::Goes(place) => Ok(Outcome::Reads(State {
            place,
            progress: state.progress,
        })),
        Action::Operates(progress) => Ok(Outcome::Reads(State {
            place: Place::Operand,
            progress,
        })),
        Action::Opens(enclosing) => {
            let outer = state.progress;
            frames.push(Frame { enclosing, outer })?;
            Ok(Outcome::Reads(State {
                place: first_place(enclosing),
                progress: fresh(),
            }))
        }
        Action::Separates => Ok(Outcome::Reads(State {
            place: Place::OperandOrEnd,
            progress: fresh(),
        })),
        Action::Closes => Ok(close(frames)),
        Action::Fails => Ok(Outcome::Ends(Answer::Never)),
    }
}

/// Closes the last open bracket: the list itself, if there is no other.
fn close(frames: &mut Vec<Frame>) -> Outcome
    ensures { actions.status result (reverse frames.new.items) ≡ actions.popped (reverse frames.old.items) }
{
    match frames.pop() {
        None => Outcome::Ends(Answer::List),
        Some(frame) => {
            let Frame { enclosing, outer } = frame;
            Outcome::Reads(State {
                place: last_place(enclosing),
                progress: outer,
            })
        }
    }
}

/// The last open bracket.
fn enclosing(frames: &[Frame]) -> Enclosing
    ensures { result ≡ actions.enclosing (reverse frames.now) }
{
    match frames.last() {
        None => Enclosing::List,
        Some(frame) => frame.enclosing,
    }
}

/// Behind an opening bracket.
fn first_place(enclosing: Enclosing) -> Place
    ensures { result ≡ actions.first_place enclosing }
{
    match enclosing {
        Enclosing::Arguments => Place::OperandOrEnd,
        _ => Place::Operand,
    }
}

/// Behind a closing bracket.
pub fn last_place(enclosing: Enclosing) -> Place
    ensures { result ≡ actions.last_place enclosing }
{
    match enclosing {
        Enclosing::List => Place::Templated,
        _ => Place::Complete,
    }
}
