//! Chains arrive at declarations.

ghost use Rattle.std.specs.Prelude.{◌≡◌, slice_get, OnOk};
ghost use Rattle.std.specs.Option.{option_to_list};
ghost use Rattle.wesl_reachability.specs.Passing.{PassesOne, PassesBefore};

use crate::chains::Chains;
use crate::holding::Holding;
use std::alloc::{AllocError, Global};
use wesl_name_resolution::{Modules, Via};

/// Passes the modules of all published imports from which chains lead up to one, that one included.
pub(crate) fn pass_before(
    alloc: Global,
    modules: &Modules,
    last: Option<Via>,
    holding: &mut Holding,
    chains: &mut Chains,
) -> Result<(), AllocError>
    ensures { OnOk result (PassesBefore modules.now (option_to_list last) holding.old chains.old holding.new chains.new) }
{
    match last {
        None => Ok(()),
        Some(via) => {
            let mut work = Vec::new(alloc);
            work.push(via)?;
            pass_all(modules, &mut work, holding, chains)
        }
    }
}

/// Passes the modules of these imports, and of those from which chains lead up to them, which are added.
fn pass_all(
    modules: &Modules,
    work: &mut Vec<Via>,
    holding: &mut Holding,
    chains: &mut Chains,
) -> Result<(), AllocError>
    ensures { OnOk result (PassesBefore modules.now work.old.items holding.old chains.old holding.new chains.new) }
{
    for at in 0..usize::MAX {
        let Some(via) = import_at(work.as_slice(), at) else {
            return Ok(());
        };
        pass_one(modules, via, work, holding, chains)?;
    }
    // No list is that long.
    Err(AllocError)
}

/// Passes the module of an import, if no chain did, and adds the imports that lead to it.
fn pass_one(
    modules: &Modules,
    via: Via,
    work: &mut Vec<Via>,
    holding: &mut Holding,
    chains: &mut Chains,
) -> Result<(), AllocError>
    ensures { OnOk result (PassesOne modules.now via holding.old chains.old work.old.items holding.new chains.new work.new.items) }
{
    let is_first = chains.pass(via, work)?;
    if is_first {
        holding.pass(modules, via.module)?;
    }
    Ok(())
}

fn import_at(imports: &[Via], at: usize) -> Option<Via>
    ensures { result ≡ slice_get imports.now at }
{
    imports.get(at).copied()
}
