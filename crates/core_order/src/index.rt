//! What each declaration of a unit declares, and what occurs in it.

ghost use Rattle.std.specs.Prelude.{◌≡◌, position, IfOk};
ghost use Rattle.std.specs.Str.{bytes_eq};
ghost use Rattle.core_validate.specs.Scopes.{Name};
ghost use Rattle.core_validate.specs.Lookups.{lookup, trees, declared};
ghost use Rattle.core_order.specs.Units.{rows_of};

use core_syntax::GlobalDeclarationNode;
use core_validate::{Index, Row, rows};
use std::alloc::{AllocError, Global};
use std::collections::HashMap;
use wgsl_base::Items;

/// Where each name is declared first.
fn first_positions<'a>(
    alloc: Global,
    declarations: &'a [GlobalDeclarationNode],
) -> Result<Index<'a>, AllocError>
    ensures { IfOk result (λ index. (x : Name) → lookup index x ≡ position (bytes_eq x) (declared declarations.now)) }
{
    let mut index = HashMap::new(alloc);
    for (position, declaration) in declarations.iter().enumerate() {
        let name = declaration.node().declared_name();
        if index.contains_key(name) {
            continue;
        }
        index.insert(name, position)?;
    }
    Ok(index)
}

/// What each of these declarations declares and what occurs in it. Where two have one name, it denotes the first.
pub fn unit_rows(
    alloc: Global,
    declarations: &[GlobalDeclarationNode],
) -> Result<Items<Row>, AllocError>
    ensures { IfOk result (λ made. made ≡ rows_of (trees declarations.now)) }
{
    let index = first_positions(alloc, declarations)?;
    rows(alloc, &index, declarations)
}
