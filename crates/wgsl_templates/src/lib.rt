//! Which `<` of a WGSL text open template lists (WGSL, "Template Lists"), and the tokens of texts with these told.
#![tactic(auto)]

mod ahead;
mod characters;
mod entry;
mod level;
mod lexer;
mod list;
pub mod meaning;
mod piece;
pub mod reading;
mod recognizer;
mod table;

pub use lexer::{lex, lex_counted};
pub use list::TokenList;
pub use meaning::{Bracket, Kind, SpannedTemplateToken, TemplateToken};
pub use piece::Pieces;
pub use reading::Lexer;
pub use recognizer::{
    Action, Answer, Enclosing, Frame, ListRecognizer, Place, Progress, Recognizer, Relation, State,
    action, fresh, last_place,
};
pub use table::opens_list;
