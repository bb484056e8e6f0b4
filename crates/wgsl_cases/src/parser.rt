//! What the parser of the whole grammar answers to a case. A case has tabs between its parts: a call and its arguments.

mod answers;
mod escapes;
mod lists;
mod made;
mod places;

pub use answers::answer;
