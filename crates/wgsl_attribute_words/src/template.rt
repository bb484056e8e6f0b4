//! The templates of `var`.

ghost use Rattle.std.specs.Prelude.{◌≡◌};
ghost use Rattle.wgsl_attribute_words.specs.Attributes as attributes;

use crate::name::{access_mode_in, address_space_in};
use wgsl_expressions::ExpressionNode;
use wgsl_words::{AccessMode, AddressSpace};

fn space_alone(space: &ExpressionNode) -> Option<(AddressSpace, Option<AccessMode>)>
    ensures { result ≡ attributes.space_alone space.now }
{
    match address_space_in(space) {
        None => None,
        Some(space) => Some((space, None)),
    }
}

fn space_and_mode(
    space: &ExpressionNode,
    mode: &ExpressionNode,
) -> Option<(AddressSpace, Option<AccessMode>)>
    ensures { result ≡ attributes.space_and_mode space.now mode.now }
{
    match address_space_in(space) {
        None => None,
        Some(space) => match access_mode_in(mode) {
            None => None,
            Some(mode) => Some((space, Some(mode))),
        },
    }
}

/// What the template of a `var` says: an address space, and maybe an access mode. `None` where it says something else.
pub fn template_of(arguments: &[ExpressionNode]) -> Option<(AddressSpace, Option<AccessMode>)>
    ensures { result ≡ attributes.template_of arguments.now }
{
    match arguments {
        [space] => space_alone(space),
        [space, mode] => space_and_mode(space, mode),
        _ => None,
    }
}
