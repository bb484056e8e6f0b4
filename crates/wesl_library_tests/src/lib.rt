//! Tests of calls that no program makes: with ample memory each answers something else than that memory was refused.
#![tactic(auto)]

#[cfg(test)]
mod linking;
#[cfg(test)]
mod manglers;
#[cfg(test)]
mod resolvers;
#[cfg(test)]
mod trees;
#[cfg(test)]
mod values;
#[cfg(test)]
mod visits;
