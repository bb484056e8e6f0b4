//! Lists that tokens are put into.

use crate::meaning::SpannedTemplateToken;
use std::alloc::AllocError;
use wgsl_base::{Items, QueueWriter};

/// What the tokens of a text are put into, the first first.
pub trait TokenList: Drop {
    ghost use Rattle.std.specs.Prelude.{◌≡◌, ◌++◌, ◌∷◌, [], List, IfOk};
    ghost use Rattle.wgsl_templates.specs.declared.meaning.token.SpannedTemplateToken.{SpannedTemplateToken};

    /// The tokens that it holds.
    ghost listed: { Self → List SpannedTemplateToken };

    /// Puts a token at the end.
    fn push_token(&mut self, token: SpannedTemplateToken) -> Result<(), AllocError>
        ensures { IfOk result (λ _. listed self.new ≡ listed self.old ++ token ∷ []) };
}

impl TokenList for Items<SpannedTemplateToken> {
    ghost listed = { λ tokens. tokens };

    #[inline(always)]
    fn push_token(&mut self, token: SpannedTemplateToken) -> Result<(), AllocError> {
        self.push(token)
    }
}

impl TokenList for QueueWriter<SpannedTemplateToken> {
    ghost listed = { λ tokens. tokens };

    #[inline(always)]
    fn push_token(&mut self, token: SpannedTemplateToken) -> Result<(), AllocError> {
        self.push(token)
    }
}
