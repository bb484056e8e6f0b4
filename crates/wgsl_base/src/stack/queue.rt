//! A queue in pieces, so that the memory of what was taken from it is free while the rest is read.

ghost use Rattle.std.specs.Prelude.{◌≡◌, [], ◌∷◌, ◌++◌, ◌↔◌, IsTrue, MatchOption, IfOk};
ghost use Rattle.std.specs.Option.{option_copied};
ghost use Rattle.wgsl_base.specs.Tops.{first};
ghost use Rattle.wgsl_base.specs.Queues.{behind, flattened};

use crate::stack::Stack;
use std::alloc::{AllocError, Global};
use std::marker::Model;
use std::mem;

/// How many values a piece has, but for the last.
const PIECE: usize = 1024;

/// The values of a queue as they are put into it, the last at the end.
#[derive(Drop)]
pub struct QueueWriter<T> {
    alloc: Global,
    full: Vec<Stack<T>>,
    last: Vec<T>,
}

impl<T> Model for QueueWriter<T> {
    ghost use Rattle.std.specs.Prelude.{List, ◌++◌};
    ghost use Rattle.std.specs.Coded.{coded_list};
    ghost use Rattle.wgsl_base.specs.Queues.{flattened};

    ghost Value = { List T };

    ghost coded = { coded_list T.code };

    ghost view = { λ it. flattened it.full.items ++ it.last.items };
}

/// A queue that is read from its front.
#[derive(Drop)]
pub struct Queue<T> {
    /// The values that come first. It has none where the queue has none.
    front: Stack<T>,
    /// The values behind them, in pieces.
    rest: Stack<Stack<T>>,
}

impl<T> Model for Queue<T> {
    ghost use Rattle.std.specs.Prelude.{List};
    ghost use Rattle.std.specs.Coded.{coded_list};
    ghost use Rattle.wgsl_base.specs.Queues.{behind};

    ghost Value = { List T };

    ghost coded = { coded_list T.code };

    ghost view = { λ it. behind it.front it.rest };
}

/// Puts values behind the full pieces, as one more.
#[tactic(auto, using(crate::proofs::Queues::flattened_more))]
fn close<T: Drop>(full: &mut Vec<Stack<T>>, piece: Vec<T>) -> Result<(), AllocError>
    ensures { IfOk result (λ _. flattened full.new.items ≡ flattened full.old.items ++ piece.items) }
{
    full.push(Stack::from_vec(piece))?;
    Ok(())
}

/// Takes pieces to the front, which has no values, up to one that has some.
#[tactic(auto, using(crate::proofs::Queues::behind_is, crate::proofs::Queues::flattened_empty))]
fn fill<T: Drop>(front: &mut Stack<T>, rest: &mut Stack<Stack<T>>)
    requires { front.old ≡ [] }
    ensures { behind front.new rest.new ≡ flattened rest.old }
{
    while let Some(piece) = rest.pop() {
        if piece.len() > 0 {
            *front = piece;
            return;
        }
    }
}

impl<T: Drop> QueueWriter<T> {
    /// No values. It needs no memory.
    pub fn new(alloc: Global) -> QueueWriter<T>
        ensures { result ≡ [] }
    {
        QueueWriter {
            alloc,
            full: Vec::new(alloc),
            last: Vec::new(alloc),
        }
    }

    /// Puts a value at the end.
    pub fn push(&mut self, item: T) -> Result<(), AllocError>
        ensures { IfOk result (λ _. self.new ≡ self.old ++ item ∷ []) }
    {
        if self.last.len() >= PIECE {
            self.begin_piece()?;
        }
        self.last.push(item)?;
        Ok(())
    }

    /// Begins one more piece, with room for all its values.
    #[inline(never)]
    fn begin_piece(&mut self) -> Result<(), AllocError>
        ensures { IfOk result (λ _. self.new ≡ self.old) }
    {
        let mut next = Vec::new(self.alloc);
        next.reserve_exact(PIECE)?;
        let piece = mem::replace(&mut self.last, next);
        close(&mut self.full, piece)
    }

    /// The queue of the values.
    pub fn into_queue(self) -> Result<Queue<T>, AllocError>
        ensures { IfOk result (λ queue. queue ≡ self) }
    {
        let QueueWriter { alloc, full, last } = self;
        let mut full = full;
        close(&mut full, last)?;
        let mut front = Stack::new(alloc);
        let mut rest = Stack::from_vec(full);
        fill(&mut front, &mut rest);
        Ok(Queue { front, rest })
    }
}

impl<T: Drop> Queue<T> {
    /// Whether it has no values.
    pub fn is_empty(&self) -> bool
        ensures { IsTrue result ↔ (self.now ≡ []) }
    {
        self.front.len() == 0
    }

    /// The first value.
    pub fn first(&self) -> Option<&T>
        ensures { option_copied result ≡ first self.now }
    {
        self.front.top()
    }

    /// The first value, taken off.
    pub fn pop(&mut self) -> Option<T>
        ensures { MatchOption result ((self.old ≡ []) × (self.new ≡ [])) (λ x. self.old ≡ x ∷ self.new) }
    {
        let item = self.front.pop()?;
        if self.front.len() == 0 {
            fill(&mut self.front, &mut self.rest);
        }
        Some(item)
    }
}
