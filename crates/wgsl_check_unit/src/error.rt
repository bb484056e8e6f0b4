//! Why a module has no text.

use wgsl_base::Text;
use wgsl_token::fault::Refusal;

/// Why a module has no text.
#[derive(Debug, Drop, PartialEq)]
pub enum Unprintable {
    /// No text derives the module. The name is that of the first node that no text derives, in the order of the text, though one derives
    /// each of its parts; or that of the declaration that holds it, where the node has no name. `check_unit` tells which nodes have names.
    Node(Option<Text>),
    /// The parser gave up on what was printed: memory was refused, or the module is nested deeper than a text may be. This says nothing else
    /// of the module.
    GaveUp(Refusal),
}

impl From<Refusal> for Unprintable {
    ghost use Rattle.std.specs.Prelude.{◌≡◌};
    ghost use Rattle.wgsl_check_unit.specs.declared.error.Unprintable.TheVariants.{GaveUp};

    ghost from_gives = { λ refusal error. error ≡ GaveUp refusal };

    fn from(refusal: Refusal) -> Unprintable {
        Unprintable::GaveUp(refusal)
    }
}
