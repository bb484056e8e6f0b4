//! A stack that contracts see as the list of its values, the uppermost first, and a queue in pieces.

ghost use Rattle.std.specs.Prelude.{◌≡◌, [], ◌∷◌, length, MatchOption, OnOk, OnErr};
ghost use Rattle.std.specs.Option.{option_copied, option_copied_mut};
ghost use Rattle.std.specs.Borrow.{sem, LendsIf};
ghost use Rattle.wgsl_base.specs.Tops.{first, second, with_first, without_first};
ghost use Rattle.wgsl_base.specs.contracts.stack.Stack.{the_row};

mod queue;

pub use queue::{Queue, QueueWriter};
use std::alloc::{AllocError, Global};
use std::marker::Model;
use std::mem;

/// A stack of values on the heap.
#[derive(Drop)]
pub struct Stack<T> {
    items: Vec<T>,
}

impl<T> Model for Stack<T> {
    ghost use Rattle.std.specs.Prelude.{List, reverse};
    ghost use Rattle.std.specs.Coded.{coded_list};

    ghost Value = { List T };

    ghost coded = { coded_list T.code };

    ghost view = { λ it. reverse it.items.items };
}

impl<T> Stack<T> {
    /// No values. It needs no memory.
    pub fn new(alloc: Global) -> Stack<T>
        ensures { result ≡ [] }
    {
        Stack {
            items: Vec::new(alloc),
        }
    }

    /// The values of a `Vec`, its first uppermost. It needs no memory.
    pub fn from_vec(items: Vec<T>) -> Stack<T>
        ensures { result ≡ items.items }
    {
        let mut items = items;
        items.reverse();
        Stack { items }
    }

    pub fn len(&self) -> usize
        ensures { result ≡ length self.now }
    {
        self.items.len()
    }

    /// The uppermost value.
    pub fn top(&self) -> Option<&T>
        ensures { option_copied result ≡ first self.now }
    {
        self.items.last()
    }

    /// The value below the uppermost.
    pub fn below_top(&self) -> Option<&T>
        ensures { option_copied result ≡ second self.now }
    {
        match self.items.as_slice() {
            [.., below, _] => Some(below),
            _ => None,
        }
    }

    /// The uppermost value, to be changed in place.
    pub fn top_mut(&mut self) -> Option<&mut T>
        ensures* writes_back { sem 𝓛 (LendsIf (the_row T.row) T.row self.entry result (with_first self.old) self.old) }
        ensures value { option_copied_mut result ≡ first self.old }
    {
        self.items.last_mut()
    }

    /// The uppermost value, taken off.
    pub fn pop(&mut self) -> Option<T>
        ensures { MatchOption result ((self.old ≡ []) × (self.new ≡ [])) (λ x. self.old ≡ x ∷ self.new) }
    {
        self.items.pop()
    }
}

impl<T: Drop> Stack<T> {
    /// Takes all values off and drops them. The room stays.
    pub fn clear(&mut self)
        ensures { self.new ≡ [] }
    {
        self.items.clear();
    }

    /// Takes the uppermost value off and does not drop it. What it owns is never given back, so it is for values that own nothing.
    pub fn forget_top(&mut self)
        ensures { self.new ≡ without_first self.old }
    {
        mem::forget(self.items.pop());
    }

    /// Puts a value on top. Where memory is refused the stack is unchanged and the value dropped.
    pub fn push(&mut self, item: T) -> Result<(), AllocError>
        ensures ok { OnOk result (self.new ≡ item ∷ self.old) }
        ensures err { OnErr result (self.new ≡ self.old) }
    {
        self.items.reserve(1)?;
        self.items.push_reserved(item);
        Ok(())
    }
}
