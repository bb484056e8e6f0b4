//! The names that the declarations of a module use.

ghost use Rattle.std.specs.Prelude.{◌≡◌, ◌<◌, [], true, map, length, slice_get, IfOk, OnOk};
ghost use Rattle.std.specs.List.{All};
ghost use Rattle.wgsl_skeleton.specs.Flats.{names_on, replayed};
ghost use Rattle.wgsl_skeleton.specs.Occurrences.{hidden_by};
ghost use Rattle.wesl_mark.specs.Marks.{said_by, flat_of, is_within, path_of, name_of};
ghost use Rattle.wesl_module_index.specs.Uses.{read_at, AreReferences, AreLocals, trail_said, trail_after, Follows, flats_at, uses_at, IsClosed};

use std::alloc::{AllocError, Global};
use wesl_mark::{Mark, MarkList, Place, Scopes};

/// For each place of a module, the references in it whose first name no local declaration hides, in the order of the text.
pub(crate) fn uses_of(
    alloc: Global,
    list: &MarkList,
    places: &[Place],
) -> Result<Vec<Vec<u32>>, AllocError>
    ensures numbered { IfOk result (λ uses. All (λ references. AreReferences list.now references.items) uses.items) }
    ensures uses { IfOk result (λ uses. All (IsClosed list.now) places.now → map (λ references. map (read_at list.now) references.items) uses.items ≡ map (uses_at list.now) places.now) }
{
    let mut scopes = Scopes::new(alloc);
    let mut uses = Vec::new(alloc);
    for place in places {
        uses.push(uses_in(alloc, list, place, &mut scopes)?)?;
    }
    Ok(uses)
}

fn uses_in(
    alloc: Global,
    list: &MarkList,
    place: &Place,
    scopes: &mut Scopes,
) -> Result<Vec<u32>, AllocError>
    requires { AreLocals list.now.names.keys scopes.old.trail.items }
    ensures locals { OnOk result (AreLocals list.now.names.keys scopes.new.trail.items) }
    ensures numbered { IfOk result (λ uses. AreReferences list.now uses.items) }
    ensures uses { IfOk result (λ uses. map (read_at list.now) uses.items ≡ replayed (flats_at list.now place.now) (trail_said list.now.names.keys scopes.old.trail.items)) }
    ensures trail { OnOk result (trail_said list.now.names.keys scopes.new.trail.items ≡ trail_after (flats_at list.now place.now) (trail_said list.now.names.keys scopes.old.trail.items)) }
{
    let mut uses = Vec::new(alloc);
    for at in place.start..place.end {
        match list.marks().get(at) {
            None => {}
            Some(mark) => follow(list, mark, scopes, &mut uses)?,
        }
    }
    Ok(uses)
}

/// Reads one more mark: opens or leaves a scope, declares a local, or notes the reference of a name that no local hides.
fn follow(
    list: &MarkList,
    mark: &Mark,
    scopes: &mut Scopes,
    uses: &mut Vec<u32>,
) -> Result<(), AllocError>
    requires within { is_within (length list.now.names.keys) (length list.now.references.keys) mark.now ≡ true }
    requires locals { AreLocals list.now.names.keys scopes.old.trail.items }
    requires numbered { AreReferences list.now uses.old.items }
    ensures locals { OnOk result (AreLocals list.now.names.keys scopes.new.trail.items) }
    ensures numbered { OnOk result (AreReferences list.now uses.new.items) }
    ensures follows { OnOk result (Follows list.now (flat_of (said_by list.now.names.keys list.now.references.keys mark.now)) scopes.old.trail.items uses.old.items scopes.new.trail.items uses.new.items) }
{
    match mark {
        Mark::Declared { .. } | Mark::Member(_) => {}
        Mark::Enter => scopes.enter()?,
        Mark::Leave => scopes.leave(),
        Mark::Local { name, .. } => scopes.declare(*name, 0)?,
        Mark::Occurs { reference, .. } => {
            if !is_local(list, scopes, *reference) {
                uses.push(*reference)?;
            }
        }
    }
    Ok(())
}

/// Whether a local declaration that is in scope is meant.
fn is_local(list: &MarkList, scopes: &Scopes, reference: u32) -> bool
    requires locals { AreLocals list.now.names.keys scopes.now.trail.items }
    requires within { reference < length list.now.references.keys }
    ensures { result ≡ hidden_by (path_of (slice_get list.now.references.keys reference)) (name_of list.now.names.keys (slice_get list.now.references.keys reference)) (names_on (trail_said list.now.names.keys scopes.now.trail.items)) }
{
    match list.reference(reference) {
        None => false,
        Some(reference) => reference.path.is_none() && scopes.find(reference.name).is_some(),
    }
}
