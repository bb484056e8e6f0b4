//! How published imports lead on to one another.

ghost use Rattle.std.specs.Prelude.{◌≡◌, [], true, false, IfOk, OnOk};
ghost use Rattle.wesl_reachability.specs.Cells.{Puts};
ghost use Rattle.wesl_reachability.specs.Onward.{onward_at, FindsLast, AreAlone, TakesLinks};

use std::alloc::{AllocError, Global};
use wesl_name_resolution::{Modules, Via};

/// For each published import another one that it leads to; itself, where none is known.
#[derive(Drop)]
pub(crate) struct Links {
    onward: Vec<Vec<Via>>,
}

impl Links {
    pub fn new(alloc: Global) -> Links
        ensures { result.onward.items ≡ [] }
    {
        Links {
            onward: Vec::new(alloc),
        }
    }

    /// Takes in the items of the next module.
    pub fn take_in(&mut self, alloc: Global, module: usize, items: usize) -> Result<(), AllocError>
        ensures { OnOk result (TakesLinks «module» items self.old.onward.items self.new.onward.items) }
    {
        let row = own_links(alloc, module, items)?;
        self.onward.push(row)?;
        Ok(())
    }

    fn behind(&self, via: Via) -> Via
        ensures { result ≡ onward_at self.now.onward.items via }
    {
        match self.onward.get(via.module) {
            None => via,
            Some(row) => match row.get(via.item) {
                None => via,
                Some(next) => *next,
            },
        }
    }

    /// An import leads on to another one.
    pub fn lead(&mut self, via: Via, to: Via)
        ensures { Puts self.old.onward.items via.«module» via.item to self.new.onward.items }
    {
        if let Some(row) = self.onward.get_mut(via.module)
            && let Some(next) = row.get_mut(via.item)
        {
            *next = to;
        }
    }

    /// The last import that an import is known to lead to, itself where it is none; `None`, where its chain never ends. The way to it is
    /// halved.
    pub fn last(&mut self, modules: &Modules, first: Via) -> Option<Via>
        ensures { FindsLast modules.now self.old.onward.items first self.new.onward.items result }
    {
        let mut at = first;
        for _link in 0..=modules.item_count() {
            let next = self.behind(at);
            let stays = is_same(next, at);
            if stays {
                return Some(at);
            }
            let behind = self.behind(next);
            let turns = is_same(behind, at);
            if turns {
                return None;
            }
            self.lead(at, behind);
            at = behind;
        }
        None
    }
}

/// The items of a module, each of which leads to itself.
fn own_links(alloc: Global, module: usize, items: usize) -> Result<Vec<Via>, AllocError>
    ensures { IfOk result (λ row. AreAlone «module» items row.items) }
{
    let mut row = Vec::new(alloc);
    for item in 0..items {
        row.push(Via { module, item })?;
    }
    Ok(row)
}

/// Whether these are one import.
pub(crate) fn is_same(left: Via, right: Via) -> bool
    ensures same { result ≡ true → left ≡ right }
    ensures other { result ≡ false → left ≡ right → ⊥ }
{
    left.module == right.module && left.item == right.item
}
