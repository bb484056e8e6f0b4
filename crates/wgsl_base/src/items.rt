//! Small owners that contracts see as what they hold: a text as its bytes, a list as its elements, a box as its value.

mod boxed;
mod copies;
mod error;
mod items;
mod made;
mod text;

pub use boxed::Boxed;
pub use copies::{CloneIn, FromIn};
pub use error::OrOutOfMemory;
pub use items::Items;
pub use made::{both, three};
pub use text::Text;
