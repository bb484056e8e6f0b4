//! Lists of items that may have conditions.

ghost use Rattle.std.specs.Prelude.{◌≡◌, filter_map};
ghost use Rattle.wesl_conditions.specs.Chains.{left};

use wesl_cond_attributes::start;
use wesl_conditions::{Chain, Features};
use wgsl_base::Items;
use wgsl_expressions::Attributes;

/// An item of a list whose items may have conditions, or a `;` in such a list, which is none.
pub trait Item: Drop {
    ghost use Rattle.std.specs.Prelude.{◌≡◌, Option};
    ghost use Rattle.std.specs.Option.{option_map, option_copied};
    ghost use Rattle.wgsl_expressions.specs.AttributesView.{attributes_tree};
    ghost use Rattle.wesl_conditions.specs.declared.features.feature.Features.{Features};
    ghost use Rattle.wesl_conditions.specs.declared.features.error.CondCompError.{CondCompError};
    ghost use Rattle.wesl_conditions.specs.Chains.{HasAttributes};
    ghost use Rattle.wesl_conditions.specs.Walks.{Settles};

    /// What items stand for.
    ghost Tree: { Type 0 };

    ghost has: { HasAttributes Tree };

    /// What an item stands for; a `;` stands for nothing.
    ghost tree: { Self → Option Tree };

    /// The first error inside an item.
    ghost inside: { Features → Tree → Option CondCompError };

    /// The item's attributes.
    fn attributes(&self) -> Option<&Attributes>
        ensures { option_map attributes_tree (option_copied result) ≡ option_map has.attributes (tree self.now) };

    /// What features leave of the item's attributes, by what is known of its chain; and whether the item stays.
    fn settle(&mut self, chain: &mut Chain, features: &Features) -> bool
        ensures { Settles features.now has chain.old (tree self.old) result chain.new (tree self.new) };
}

/// What features leave of a list, in place. It needs no memory.
pub fn settle_list<T: Item>(items: &mut Items<T>, features: &Features)
    ensures { filter_map T.tree items.new ≡ left features.now T.has (filter_map T.tree items.old) }
{
    let mut chain = start();
    items.retain_mut(move |item| item.settle(&mut chain, features));
}
