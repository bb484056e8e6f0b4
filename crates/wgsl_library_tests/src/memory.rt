//! Tests of values of all types: operators at each stage, views and writes, constructors.

#[cfg(test)]
mod answer;
#[cfg(test)]
mod constructors;
#[cfg(test)]
mod memory;
#[cfg(test)]
mod operators;
