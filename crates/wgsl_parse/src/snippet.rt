//! Parts of a text as they are shown: the line, with marks below the part.

mod place;
mod snippet;

pub use snippet::Snippet;
