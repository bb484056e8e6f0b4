//! The order in which the values of a module are started: text order, each after those that it reaches, these by the same rule.

use crate::const_rule::backward::order_backward;
use crate::const_rule::uses::Used;
use crate::symbols::{Declared, Directory};
use std::alloc::{AllocError, Global};
use wgsl_base::{Items, Stack};
use wgsl_simple_statements::DeclarationKind;

fn is_set(flags: &Items<bool>, at: usize) -> bool {
    match flags.get(at) {
        Some(flag) => *flag,
        None => false,
    }
}

fn set(flags: &mut Items<bool>, at: usize) {
    if at < flags.len() {
        *flags.get_mut(at) = true;
    }
}

fn unset_flags(alloc: Global, count: usize) -> Result<Items<bool>, AllocError> {
    let mut flags = Items::new(alloc);
    for _ in 0..count {
        flags.push(false)?;
    }
    Ok(flags)
}

fn add_edges(
    work: &mut Stack<usize>,
    reached: &mut Items<bool>,
    uses: &[Used],
    number: usize,
) -> Result<(), AllocError> {
    let Some(used) = uses.get(number) else {
        return Ok(());
    };
    for edge in used.edges.as_slice() {
        if !is_set(reached, *edge) {
            set(reached, *edge);
            work.push(*edge)?;
        }
    }
    Ok(())
}

/// All that a declaration reaches.
fn reach(alloc: Global, uses: &[Used], number: usize) -> Result<Items<bool>, AllocError> {
    let mut reached = unset_flags(alloc, uses.len())?;
    let mut work = Stack::new(alloc);
    add_edges(&mut work, &mut reached, uses, number)?;
    for _turn in 0..u64::MAX {
        let Some(next) = work.pop() else {
            return Ok(reached);
        };
        add_edges(&mut work, &mut reached, uses, next)?;
    }
    Err(AllocError)
}

/// A declaration that waits for those that it reaches, from a number on.
#[derive(Drop)]
struct Waiting {
    number: usize,
    reached: Items<bool>,
    next: usize,
}

/// What is ordered, what has its turn already, and the order so far.
#[derive(Drop)]
struct Ordering {
    is_ordered: Items<bool>,
    has_turn: Items<bool>,
    order: Items<usize>,
    waiting: Stack<Waiting>,
}

impl Ordering {
    fn wait(&mut self, alloc: Global, uses: &[Used], number: usize) -> Result<(), AllocError> {
        set(&mut self.has_turn, number);
        let reached = reach(alloc, uses, number)?;
        self.waiting.push(Waiting {
            number,
            reached,
            next: 0,
        })
    }

    fn is_due(&self, number: usize) -> bool {
        is_set(&self.is_ordered, number) && !is_set(&self.has_turn, number)
    }

    /// The next declaration for which the uppermost one waits.
    fn next_due(&self) -> Option<usize> {
        let waiting = self.waiting.top()?;
        for number in waiting.next..waiting.reached.len() {
            if is_set(&waiting.reached, number) && self.is_due(number) {
                return Some(number);
            }
        }
        None
    }

    /// The uppermost declaration waits no more.
    fn finish(&mut self) -> Result<(), AllocError> {
        if let Some(
            Waiting {
                number,
                reached,
                next: _,
            },
        ) = self.waiting.pop()
        {
            drop(reached);
            self.order.push(number)?;
        }
        Ok(())
    }

    /// One step: a declaration more waits, or the uppermost is next in the order.
    fn turn(&mut self, alloc: Global, uses: &[Used]) -> Result<(), AllocError> {
        match self.next_due() {
            None => self.finish(),
            Some(number) => {
                if let Some(waiting) = self.waiting.top_mut() {
                    waiting.next = number;
                }
                self.wait(alloc, uses, number)
            }
        }
    }

    fn visit(&mut self, alloc: Global, uses: &[Used], number: usize) -> Result<(), AllocError> {
        self.wait(alloc, uses, number)?;
        for _turn in 0..u64::MAX {
            if self.waiting.len() == 0 {
                return Ok(());
            }
            self.turn(alloc, uses)?;
        }
        Err(AllocError)
    }
}

/// Whether a declaration is started: an assertion, or a value, if all are started or it is a const.
fn starts(directory: &Directory<'_>, number: usize, are_all: bool) -> bool {
    match directory.declared(number) {
        Declared::Assertion(_) => true,
        Declared::Value(x) => are_all || x.kind == DeclarationKind::Const,
        _ => false,
    }
}

/// The numbers of the declarations that are started, in their order: assertions and consts, and where all are started, overrides and
/// variables too.
pub fn start_order(
    alloc: Global,
    directory: &Directory<'_>,
    uses: &[Used],
    are_all: bool,
) -> Result<Items<usize>, AllocError> {
    let mut is_ordered = Items::new(alloc);
    for number in 0..uses.len() {
        is_ordered.push(starts(directory, number, are_all))?;
    }
    if let Some(order) = order_backward(alloc, &is_ordered, uses)? {
        return Ok(order);
    }
    let mut ordering = Ordering {
        is_ordered,
        has_turn: unset_flags(alloc, uses.len())?,
        order: Items::new(alloc),
        waiting: Stack::new(alloc),
    };
    for number in 0..uses.len() {
        if ordering.is_due(number) {
            ordering.visit(alloc, uses, number)?;
        }
    }
    let Ordering {
        is_ordered,
        has_turn,
        order,
        waiting,
    } = ordering;
    drop(is_ordered);
    drop(has_turn);
    drop(waiting);
    Ok(order)
}
