//! Pieces of the text of statements that mention no statement: what stands before, between and behind the statements that they
//! hold. They stand below the trees of statements, so that their proofs look at no statement.

mod brace;
mod front;
mod made;

pub use brace::{write_closing, write_last_line, write_opening};
pub use front::{
    write_attributed_head, write_block_front, write_condition, write_for_front, write_head,
    write_switch_front, write_word_front,
};
pub use made::{converted, converted_in, present, push_made, spanned};
pub use wgsl_expressions::{
    Attributes, Boxed, CloneIn, ExpressionNode, FromIn, Items, Spanned, both, three,
    write_attributes, write_indent,
};
