//! Laws of texts with the same tokens. Each function states one, and does nothing.

ghost use Rattle.wgsl_print_laws.specs.Laws.{LaidOutAsItsTokens, LaidOutAlike, LaidOutButForOptionalMarks};

/// A text is laid out as its tokens.
pub fn laid_out_as_its_tokens()
    ensures { LaidOutAsItsTokens }
{}

/// A text that is laid out as the tokens of another has these tokens, template lists among them.
pub fn laid_out_alike()
    ensures { LaidOutAlike }
{}

/// The same, where the tokens differ in marks that may be left out: last commas of lists, and `:`, `;` and
/// `case` where a text may do without.
pub fn laid_out_but_for_optional_marks()
    ensures { LaidOutButForOptionalMarks }
{}
