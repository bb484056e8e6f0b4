//! Tests of trees, values and memory.
#![tactic(auto)]

mod memory;
mod trees;
