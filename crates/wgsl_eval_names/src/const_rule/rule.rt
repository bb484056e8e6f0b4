//! The functions that are const by the rule: they use nothing that isn't.

use crate::const_rule::uses::Used;
use crate::symbols::{Declared, Directory};
use std::alloc::{AllocError, Global};
use wgsl_base::{Items, Stack};
use wgsl_simple_statements::DeclarationKind;

/// A flag for each declaration.
type Flags = Items<bool>;

fn is_set(flags: &[bool], at: usize) -> bool {
    match flags.get(at) {
        Some(flag) => *flag,
        None => false,
    }
}

fn set(flags: &mut Flags, at: usize) {
    if at < flags.len() {
        *flags.get_mut(at) = true;
    }
}

/// A declaration that uses another, and what leads from that one to the next that does.
#[derive(Clone, Copy, Drop)]
struct User {
    number: usize,
    next: Option<usize>,
}

/// For each declaration those that use it, as a list in which each names the next.
#[derive(Drop)]
struct Users {
    first: Items<Option<usize>>,
    all: Items<User>,
}

impl Users {
    fn new(alloc: Global, count: usize) -> Result<Users, AllocError> {
        let mut first = Items::new(alloc);
        for _ in 0..count {
            first.push(None)?;
        }
        Ok(Users {
            first,
            all: Items::new(alloc),
        })
    }

    fn first_of(&self, number: usize) -> Option<usize> {
        match self.first.get(number) {
            Some(first) => *first,
            None => None,
        }
    }

    /// Adds a declaration to those that use the ones of these numbers.
    fn add(&mut self, number: usize, edges: &[usize]) -> Result<(), AllocError> {
        for edge in edges {
            if *edge < self.first.len() {
                let at = self.all.len();
                let next = self.first_of(*edge);
                self.all.push(User { number, next })?;
                *self.first.get_mut(*edge) = Some(at);
            }
        }
        Ok(())
    }

    /// Sets the flags of the users of a declaration, which come next where they weren't set.
    fn mark(
        &self,
        flags: &mut Flags,
        work: &mut Stack<usize>,
        number: usize,
    ) -> Result<(), AllocError> {
        let mut at = self.first_of(number);
        for _ in 0..self.all.len() {
            let Some(user) = at.and_then(|at| self.all.get(at)) else {
                return Ok(());
            };
            if !is_set(flags.as_slice(), user.number) {
                set(flags, user.number);
                work.push(user.number)?;
            }
            at = user.next;
        }
        Ok(())
    }

    /// Sets the flag of all that use one whose flag is set, where that one passes it on.
    fn spread(
        &self,
        alloc: Global,
        flags: &mut Flags,
        passes_on: &[bool],
    ) -> Result<(), AllocError> {
        let mut work = Stack::new(alloc);
        for number in 0..flags.len() {
            if is_set(flags.as_slice(), number) {
                work.push(number)?;
            }
        }
        for _turn in 0..u64::MAX {
            let Some(number) = work.pop() else {
                return Ok(());
            };
            if is_set(passes_on, number) {
                self.mark(flags, &mut work, number)?;
            }
        }
        Err(AllocError)
    }
}

/// Which structures and aliases hold a pointer, maybe in another one.
fn pointers_of(
    alloc: Global,
    directory: &Directory<'_>,
    uses: &[Used],
) -> Result<Flags, AllocError> {
    let mut users = Users::new(alloc, uses.len())?;
    let mut pointers = Items::new(alloc);
    let mut passes_on = Items::new(alloc);
    for (number, used) in uses.iter().enumerate() {
        users.add(number, used.member_edges.as_slice())?;
        pointers.push(used.has_pointer)?;
        passes_on.push(matches!(
            directory.declared(number),
            Declared::Struct(_) | Declared::Alias(_)
        ))?;
    }
    users.spread(alloc, &mut pointers, passes_on.as_slice())?;
    Ok(pointers)
}

/// Whether a const function may use a declaration, if that one, where it is a function or an alias, is const by the rule.
fn may_be_used(directory: &Directory<'_>, pointers: &[bool], number: usize) -> bool {
    match directory.declared(number) {
        Declared::Value(x) => x.kind == DeclarationKind::Const,
        Declared::Struct(_) => !is_set(pointers, number),
        Declared::Function(_) | Declared::Alias(_) => true,
        _ => false,
    }
}

fn is_excluded(directory: &Directory<'_>, pointers: &[bool], used: &Used) -> bool {
    !used.is_clean
        || !used
            .edges
            .as_slice()
            .iter()
            .all(|number| may_be_used(directory, pointers, *number))
}

/// Which declarations aren't const by the rule.
fn excluded(alloc: Global, directory: &Directory<'_>, uses: &[Used]) -> Result<Flags, AllocError> {
    let pointers = pointers_of(alloc, directory, uses)?;
    let mut users = Users::new(alloc, uses.len())?;
    let mut excluded = Items::new(alloc);
    let mut passes_on = Items::new(alloc);
    for (number, used) in uses.iter().enumerate() {
        users.add(number, used.edges.as_slice())?;
        excluded.push(is_excluded(directory, pointers.as_slice(), used))?;
        passes_on.push(matches!(
            directory.declared(number),
            Declared::Function(_) | Declared::Alias(_)
        ))?;
    }
    users.spread(alloc, &mut excluded, passes_on.as_slice())?;
    Ok(excluded)
}

/// Whether each declaration, in text order, is const by the rule. A function or an alias is, if it names only locals, consts, types of the
/// language that aren't pointers, textures, samplers or atomics, structures without pointers, and functions and aliases that are const
/// by the rule; and has no stage, no `discard`, no `&` and no `*`.
pub fn const_functions(
    alloc: Global,
    directory: &Directory<'_>,
    uses: &[Used],
) -> Result<Items<bool>, AllocError> {
    let excluded = excluded(alloc, directory, uses)?;
    let mut consts = Items::new(alloc);
    for flag in excluded.as_slice() {
        consts.push(!*flag)?;
    }
    Ok(consts)
}
