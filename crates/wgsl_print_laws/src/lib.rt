//! Laws: the tokens of printed texts.
#![tactic(auto)]

pub mod layout;
mod lemmas;
pub mod modules;
pub mod trees;
