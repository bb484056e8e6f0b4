//! Conditions on statements: what features leave of statements, in place, and their first error.

mod check;
mod settle;

pub(crate) use check::check_block;
pub(crate) use settle::settle_block;
