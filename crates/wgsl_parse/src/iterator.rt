//! Iterators over the tokens of a text.

mod iterator;
mod recognize;

pub use iterator::TokenIterator;
pub use recognize::recognize_template_list;
