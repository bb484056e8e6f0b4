//! The statements of WGSL that hold no other statement, with value declarations and constant assertions; their copies and
//! their text.
#![tactic(auto)]

mod copy;
mod declaration;
mod making;
mod pieces;
mod print;
mod print_declarations;
mod statement;

pub use declaration::{ConstAssert, Declaration, DeclarationKind};
pub use pieces::{
    Attributes, Boxed, CloneIn, ExpressionNode, FromIn, Items, Spanned, both, converted,
    converted_in, present, push_made, spanned, three, write_attributed_head, write_attributes,
    write_block_front, write_closing, write_condition, write_for_front, write_head, write_indent,
    write_last_line, write_opening, write_switch_front, write_word_front,
};
pub use print::write_case_head;
pub use statement::{
    AssignmentStatement, BreakIfStatement, BreakStatement, CaseSelector, ContinueStatement,
    DecrementStatement, DiscardStatement, FunctionCallStatement, IncrementStatement,
    ReturnStatement,
};
