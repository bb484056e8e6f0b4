//! Rings of declarations (WGSL, "Declaration and Scope": no declaration of a module is recursive). For each declaration stands a row with
//! the numbers of those that it mentions.
#![tactic(auto)]

mod ranks;
mod ring;

pub use ring::first_on_ring;
