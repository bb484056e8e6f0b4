//! The start order of declarations of which none reaches itself, made from its end.

use crate::const_rule::uses::Used;
use std::alloc::{AllocError, Global};
use std::collections::BinaryHeap;
use wgsl_base::{Items, Stack};

/// What is left of the declarations, and the end of the order.
#[derive(Drop)]
struct Backward {
    /// How many uses of each declaration are in those that are left.
    users: Items<usize>,
    /// The ordered ones that none of those uses, and the others.
    ordered: BinaryHeap<usize>,
    others: Stack<usize>,
    /// The last of the order first.
    order: Items<usize>,
}

impl Backward {
    fn add_use(&mut self, number: usize) {
        if number < self.users.len() {
            let users = self.users.get_mut(number);
            *users = users.saturating_add(1);
        }
    }

    fn add_unused(&mut self, is_ordered: &Items<bool>, number: usize) -> Result<(), AllocError> {
        match is_ordered.get(number) {
            Some(true) => self.ordered.push(number)?,
            _ => self.others.push(number)?,
        }
        Ok(())
    }

    fn remove_use(&mut self, is_ordered: &Items<bool>, number: usize) -> Result<(), AllocError> {
        if number >= self.users.len() {
            return Ok(());
        }
        let users = self.users.get_mut(number);
        *users = users.saturating_sub(1);
        if *users > 0 {
            return Ok(());
        }
        self.add_unused(is_ordered, number)
    }

    /// One that none of those that are left uses: if each is ordered, the last.
    fn next(&mut self) -> Result<Option<usize>, AllocError> {
        if let Some(number) = self.others.pop() {
            return Ok(Some(number));
        }
        let Some(number) = self.ordered.pop() else {
            return Ok(None);
        };
        self.order.push(number)?;
        Ok(Some(number))
    }

    /// One declaration goes; or none can.
    fn take(&mut self, is_ordered: &Items<bool>, uses: &[Used]) -> Result<bool, AllocError> {
        let Some(number) = self.next()? else {
            return Ok(false);
        };
        if let Some(used) = uses.get(number) {
            for edge in used.edges.as_slice() {
                self.remove_use(is_ordered, *edge)?;
            }
        }
        Ok(true)
    }

    /// Whether all declarations could go.
    fn take_all(&mut self, is_ordered: &Items<bool>, uses: &[Used]) -> Result<bool, AllocError> {
        for used in uses {
            for edge in used.edges.as_slice() {
                self.add_use(*edge);
            }
        }
        for number in 0..uses.len() {
            if let Some(0) = self.users.get(number) {
                self.add_unused(is_ordered, number)?;
            }
        }
        for _taken in 0..uses.len() {
            if !self.take(is_ordered, uses)? {
                return Ok(false);
            }
        }
        Ok(true)
    }
}

/// The ordered declarations in text order, each after those that it reaches, these by the same rule; `None` where a declaration reaches itself.
///
/// That order puts the first declaration as early as what it reaches allows, then the second, and so on. Its last one is the last in the
/// text of those that no other reaches, and so on backwards; what is not ordered goes as soon as it can, since it only passes on what it
/// reaches. So each use is looked at twice.
pub fn order_backward(
    alloc: Global,
    is_ordered: &Items<bool>,
    uses: &[Used],
) -> Result<Option<Items<usize>>, AllocError> {
    let mut backward = Backward {
        users: Items::new(alloc),
        ordered: BinaryHeap::new(alloc),
        others: Stack::new(alloc),
        order: Items::new(alloc),
    };
    for _used in uses {
        backward.users.push(0)?;
    }
    if !backward.take_all(is_ordered, uses)? {
        return Ok(None);
    }
    let mut order = Items::new(alloc);
    for number in backward.order.as_slice().iter().rev() {
        order.push(*number)?;
    }
    Ok(Some(order))
}
