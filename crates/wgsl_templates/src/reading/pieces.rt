//! What stands first in a WGSL text.

use crate::Pieces;
use std::alloc::{AllocError, Global};
use wgsl_lex::{Piece, first_piece};

/// The pieces of WGSL texts.
#[derive(Clone, Copy)]
pub(crate) struct TextPieces {
    pub(crate) alloc: Global,
}

impl Pieces for TextPieces {
    fn first_piece(
        &self,
        characters: &[char],
        first: char,
        behind: &[char],
    ) -> Result<Piece, AllocError> {
        first_piece(self.alloc, characters, first, behind)
    }
}
