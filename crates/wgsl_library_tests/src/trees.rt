//! Tests of trees that are built in code: what is printed of them. The expected texts are those of the project's description.

#[cfg(test)]
mod declarations;
#[cfg(test)]
mod expressions;
