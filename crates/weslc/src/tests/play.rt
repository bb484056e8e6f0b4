//! A call is made, and once more where memory is refused.

use crate::tests::answer::Answer;
use std::alloc::Global;

/// How a call went.
#[derive(Clone, Copy, PartialEq, Eq)]
pub enum Played {
    /// It was answered as it should be.
    Right,
    /// Memory was refused. Where that was in the call, all was left as before, and the call made again was answered as it should be.
    Refused,
    Wrong,
}

/// A call, with what it is made on.
pub trait Trial {
    /// Makes the call.
    fn call(&mut self, alloc: Global) -> Answer;

    /// Whether all is as it was before the call, as far as a refused one may not change it; nothing where memory is refused.
    fn is_unchanged(&mut self, alloc: Global) -> Option<bool>;
}

/// How a call goes that is made again where memory is refused in it.
pub fn play<T: Trial>(alloc: Global, trial: &mut T) -> Played {
    match trial.call(alloc) {
        Answer::Right => Played::Right,
        Answer::Wrong => Played::Wrong,
        Answer::Untold => Played::Refused,
        Answer::Refused => play_again(alloc, trial),
    }
}

fn play_again<T: Trial>(alloc: Global, trial: &mut T) -> Played {
    if trial.is_unchanged(alloc) != Some(true) {
        return Played::Wrong;
    }
    match trial.call(alloc) {
        Answer::Right => Played::Refused,
        _ => Played::Wrong,
    }
}

/// The same of what is made for it; that memory is refused where that is not made.
pub fn play_made<T: Trial + Drop>(alloc: Global, trial: Option<T>) -> Played {
    match trial {
        Some(mut trial) => play(alloc, &mut trial),
        None => Played::Refused,
    }
}

/// A call on things that are made anew each time.
pub trait Row {
    fn play(&self, alloc: Global) -> Played;
}

/// Whether a call goes as it should. It is made on new things where memory was refused, which may happen once: so no call always says so.
pub fn is_right<R: Row>(alloc: Global, row: &R) -> bool {
    match row.play(alloc) {
        Played::Right => true,
        Played::Wrong => false,
        Played::Refused => row.play(alloc) == Played::Right,
    }
}
