//! The names in scope: each name's newest entry, and an undo list.

use crate::scope::keys::Keys;
use indexmap::IndexSet;
use std::alloc::{AllocError, Global};
use std::fmt;
use wgsl_base::Items;

/// A value of a name, by the name's number, and the entry of that name that it hides.
#[derive(Drop)]
struct Entry<T> {
    name: usize,
    value: T,
    hidden: Option<usize>,
}

/// A level above the root. Each number is that of an entry.
#[derive(Clone, Copy, Drop)]
struct Level {
    /// The first entry of the level.
    start: usize,
    /// The first entry whose name may not be declared again.
    local_from: usize,
    /// The first entry whose name is seen.
    seen_from: usize,
}

/// Where a declaration stands.
#[derive(Clone, Copy, Debug, PartialEq, Eq)]
pub enum ScopeKind {
    /// In a module.
    Module,
    /// In a function.
    Function,
}

impl fmt::Display for ScopeKind {
    fn fmt<W: fmt::Write>(&self, f: &mut fmt::Formatter<W>) -> fmt::Result {
        f.write_str(match self {
            ScopeKind::Module => "module",
            ScopeKind::Function => "function",
        })
    }
}

/// A list of levels, the last the nearest, that begins with the root. Each has names that stand for values. Local are the levels from the
/// last back to the nearest that isn't transparent, that one included; the root isn't transparent.
#[derive(Drop)]
pub struct Scope<T> {
    names: IndexSet<String>,
    newest: Items<Option<usize>>,
    entries: Items<Entry<T>>,
    levels: Items<Level>,
}

fn set_newest(newest: &mut Items<Option<usize>>, name: usize, to: Option<usize>) {
    if name < newest.len() {
        *newest.get_mut(name) = to;
    }
}

impl<T> Scope<T> {
    /// The root, without names. It needs no memory.
    pub fn new(alloc: Global) -> Scope<T> {
        Scope {
            names: IndexSet::new(alloc),
            newest: Items::new(alloc),
            entries: Items::new(alloc),
            levels: Items::new(alloc),
        }
    }

    /// Whether there is no level but the root.
    pub fn is_root(&self) -> bool {
        self.levels.is_empty()
    }

    /// How many levels there are above the root.
    pub fn depth(&self) -> usize {
        self.levels.len()
    }

    fn last_level(&self) -> Level {
        match self.levels.as_slice().last() {
            Some(level) => *level,
            None => Level {
                start: 0,
                local_from: 0,
                seen_from: 0,
            },
        }
    }

    /// Begins a level in which each name may be declared.
    pub fn push(&mut self) -> Result<(), AllocError> {
        let start = self.entries.len();
        let seen_from = self.last_level().seen_from;
        self.levels.push(Level {
            start,
            local_from: start,
            seen_from,
        })
    }

    /// Begins a level in which no local name may be declared again.
    pub fn push_transparent(&mut self) -> Result<(), AllocError> {
        let start = self.entries.len();
        let last = self.last_level();
        self.levels.push(Level {
            start,
            local_from: last.local_from,
            seen_from: last.seen_from,
        })
    }

    /// Begins a level in which no name of another level is seen.
    pub fn push_closed(&mut self) -> Result<(), AllocError> {
        let start = self.entries.len();
        self.levels.push(Level {
            start,
            local_from: start,
            seen_from: start,
        })
    }

    /// Makes the last level transparent. The root stays as it is.
    pub fn make_transparent(&mut self) {
        if let Some(last) = self.levels.pop() {
            let local_from = self.last_level().local_from;
            let _ = self.levels.push(Level { local_from, ..last });
        }
    }

    fn newest_of(&self, name: usize) -> Option<usize> {
        match self.newest.get(name) {
            Some(newest) => *newest,
            None => None,
        }
    }

    /// The newest entry of a name, if its number isn't below a bound.
    fn position_from(&self, name: &str, bound: usize) -> Option<usize> {
        let number = self.names.get_index_of(name)?;
        let position = self.newest_of(number)?;
        if position < bound {
            None
        } else {
            Some(position)
        }
    }

    /// The number of the nearest entry of a name, which stays that entry's while its level lasts.
    pub fn position(&self, name: &str) -> Option<usize> {
        self.position_from(name, self.last_level().seen_from)
    }

    /// The value of an entry, by its number.
    pub fn at(&self, position: usize) -> Option<&T> {
        match self.entries.get(position) {
            Some(entry) => Some(&entry.value),
            None => None,
        }
    }

    /// What a name stands for, by the nearest level that has it.
    pub fn get(&self, name: &str) -> Option<&T> {
        self.at(self.position(name)?)
    }

    /// What a name stands for, to be changed, where the last level has it.
    pub fn local_get_mut(&mut self, name: &str) -> Option<&mut T> {
        let position = self.position_from(name, self.last_level().start)?;
        if position < self.entries.len() {
            Some(&mut self.entries.get_mut(position).value)
        } else {
            None
        }
    }

    /// Whether the last level has a name.
    pub fn last_contains(&self, name: &str) -> bool {
        self.position_from(name, self.last_level().start).is_some()
    }

    /// Whether a local level has a name.
    pub fn local_contains(&self, name: &str) -> bool {
        self.position_from(name, self.last_level().local_from)
            .is_some()
    }

    /// Whether a level that is seen has a name.
    pub fn contains(&self, name: &str) -> bool {
        self.position(name).is_some()
    }

    /// The names that are seen, the first that was added first. A shadowed name comes once per level.
    pub fn iter_keys(&self) -> Keys<'_, T> {
        Keys::new(self, self.last_level().seen_from)
    }

    /// The name of an entry, by its number.
    pub(crate) fn key(&self, position: usize) -> Option<&str> {
        match self.entries.get(position) {
            Some(entry) => match self.names.get_index(entry.name) {
                Some(name) => Some(name.as_str()),
                None => None,
            },
            None => None,
        }
    }
}

impl<T: Drop> Scope<T> {
    fn number(&mut self, alloc: Global, name: &str) -> Result<usize, AllocError> {
        match self.names.get_index_of(name) {
            Some(number) => Ok(number),
            None => {
                self.newest.push(None)?;
                let name = String::from_str(alloc, name)?;
                let (number, _) = self.names.insert_full(name)?;
                Ok(number)
            }
        }
    }

    /// A name stands for a value from now on, until its level ends. It answers whether that is so: a local name stays what it was.
    pub fn add(&mut self, alloc: Global, name: &str, value: T) -> Result<bool, AllocError> {
        if self.local_contains(name) {
            drop(value);
            return Ok(false);
        }
        match self.number(alloc, name) {
            Ok(number) => {
                self.enter(number, value)?;
                Ok(true)
            }
            Err(error) => {
                drop(value);
                Err(error)
            }
        }
    }

    fn enter(&mut self, number: usize, value: T) -> Result<(), AllocError> {
        let hidden = self.newest_of(number);
        let position = self.entries.len();
        self.entries.push(Entry {
            name: number,
            value,
            hidden,
        })?;
        set_newest(&mut self.newest, number, Some(position));
        Ok(())
    }

    /// Takes off the newest entry.
    fn pop_entry(&mut self) {
        if let Some(
            Entry {
                name,
                value,
                hidden,
            },
        ) = self.entries.pop()
        {
            drop(value);
            set_newest(&mut self.newest, name, hidden);
        }
    }

    /// Ends the last level, if it isn't the root.
    pub fn pop(&mut self) {
        if let Some(level) = self.levels.pop() {
            for _ in level.start..self.entries.len() {
                self.pop_entry();
            }
        }
    }

    /// Ends levels until there are no more than so many above the root.
    pub fn pop_to(&mut self, depth: usize) {
        for _ in depth..self.depth() {
            self.pop();
        }
    }
}
