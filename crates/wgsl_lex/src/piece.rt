//! What stands at the front of some characters.

use wgsl_token::Token;

/// The longest run of characters at the front that is blankspace, a comment or a token.
#[derive(Drop)]
pub struct Piece {
    /// How many characters it has.
    pub length: usize,
    /// Its token, unless it is blankspace or a comment.
    pub token: Option<Token>,
}
