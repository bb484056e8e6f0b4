//! What the kept names lead to in the loaded modules.

ghost use Rattle.std.specs.Prelude.{◌≡◌, ℕ, [], Some, None, Bool, true, false, IfOk, IfErr, OnOk, slice_get, string_bytes, if◌then◌else◌};
ghost use Rattle.std.specs.List.{Contains};
ghost use Rattle.std.specs.Option.{IsSome, is_some};
ghost use Rattle.std.specs.Ordering.{nat_cmp};
ghost use Rattle.std.specs.Str.{bytes_eq};
ghost use Rattle.std.specs.BTreeMap.{get, get_by_text};
ghost use Rattle.core_syntax.specs.View.{unit_tree, declaration_tree};
ghost use Rattle.core_link_spec.specs.Occurrences as spec;
ghost use Rattle.core_link_spec.specs.Modules.{Path, Symbol as ReferenceTarget};
ghost use Rattle.core_scopes.specs.Outcomes.{loaded, home_of, outcome, IsInTable};
ghost use Rattle.core_reach.specs.Following.{Moves, Handled, FollowedTo, AllFollowed};
ghost use Rattle.core_reach.specs.Reach.{KeepsAll, KeepsOne};
ghost use Rattle.core_reach.specs.Stages.{asks, name_asked, stage};
ghost use Rattle.wgsl_path.specs.Paths.{path_text};
ghost use Rattle.core_reach.specs.Resolved.{LoadedModules, IsKeyed};
ghost use Rattle.core_reach.specs.Closed.{HoldsNothing, AreAskedByName, AreAskedByImport, IsNamedInTable};
ghost use Rattle.core_reach.specs.Underway.{IsPlaced, NamesAll, LeadsOn, IsSought, EachName, LacksKept};
ghost use Rattle.core_reach.specs.Closing.{IsReached, AllReached, IsSound, Holds, held_at};
ghost use Rattle.core_reach.specs.ClosingClauses.{found_stage, IsInOrder, IsFoundUnderway, IsFoundFinished, ClosesOn, RefusesOn, RefusesRootOn, AfterLoading, AllFollowedOn, IsFollowedAt, NamesPlace, asks_too};

use crate::linking::{Asked, AskedModule, HeldNames, Linking};
use crate::missing::first_missing;
use core_rename::occurrences;
use core_scopes::{Denoted, ImportError, Item, Module, Symbol, Target, denotation, item_of};
use core_syntax::GlobalDeclaration;
use std::alloc::{AllocError, Global};
use std::collections::{BTreeMap, BTreeSet};
use wesl_resolve::EscapeMangler;
use wgsl_base::{CloneIn, Text};
use wgsl_path::ModulePath;

/// What is found while declarations are reached.
#[derive(Drop)]
struct Found<'a> {
    /// What was reached in this round, in the order in which it was.
    reached: Vec<Symbol<'a>>,
    asked: Asked,
    /// Whether some reached occurrence denotes nothing.
    is_missing: bool,
}

fn found_nothing<'a>(alloc: Global) -> Found<'a>
    ensures reached { result.reached.items ≡ [] }
    ensures asked { result.asked.entries ≡ [] }
    ensures present { result.is_missing ≡ false }
{
    Found {
        reached: Vec::new(alloc),
        asked: Asked::new(alloc),
        is_missing: false,
    }
}

/// Reaches what the kept names of the root lead to.
pub fn close_root(
    alloc: Global,
    linking: &Linking<'_>,
    path: &ModulePath,
    held: &mut HeldNames,
) -> Result<Asked, ImportError>
    requires { AllReached linking.now held.old }
    ensures sound { OnOk result (AllReached linking.now held.new) }
    ensures followed { ((m : Path) (place : ℕ) → held_at held.old m place ≡ None) → IfOk result (AllFollowedOn linking.now held.new) }
    ensures kept { OnOk result (KeepsAll (loaded linking.now.modules.now) linking.now.root.now linking.now.keep.now (held_at held.new)) }
    ensures closed { IsKeyed linking.now.modules.now → HoldsNothing held.old → IfOk result (ClosesOn linking.now held.new) }
    ensures refused { IsKeyed linking.now.modules.now → path_text path.now ≡ linking.now.root.now → HoldsNothing held.old → IfErr result (RefusesRootOn linking.now held.new) }
{
    let mut found = found_nothing(alloc);
    for name in linking.keep {
        reach_kept(alloc, linking, path, name, held, &mut found.reached)?;
    }
    let asked = close(alloc, linking, held, found)?;
    Ok(asked)
}

fn reach_kept<'a>(
    alloc: Global,
    linking: &Linking<'a>,
    path: &ModulePath,
    name: &Text,
    held: &mut HeldNames,
    reached: &mut Vec<Symbol<'a>>,
) -> Result<(), ImportError>
    requires keep { Contains linking.now.keep.now name.now }
    ensures sound { IsSound linking.now held.old reached.old.items → OnOk result (IsSound linking.now held.new reached.new.items) }
    ensures moves { OnOk result ((asked : ReferenceTarget → Bool) (missing : Bool) → Moves (stage held.old asked missing reached.old.items) (stage held.new asked missing reached.new.items)) }
    ensures kept { OnOk result (KeepsOne (loaded linking.now.modules.now) linking.now.root.now name.now (held_at held.new)) }
    ensures named { IsKeyed linking.now.modules.now → NamesAll linking.now held.old → OnOk result (NamesAll linking.now held.new) }
    ensures lacking { IfErr result (LacksKept linking.now (path_text path.now) name.now) }
{
    match item_of(linking.modules, linking.root, name.as_str()) {
        Item::Declared(symbol) => Ok(reach(alloc, linking, symbol, held, reached)?),
        Item::Imported | Item::Absent | Item::Unloaded => {
            Err(ImportError::MissingDecl(path.clone_in(alloc)?, name.clone_in(alloc)?))
        }
    }
}

/// Reaches what is sought in newly loaded modules, and what that leads to.
pub fn close_asked(
    alloc: Global,
    linking: &Linking<'_>,
    asked: &Asked,
    held: &mut HeldNames,
) -> Result<Asked, ImportError>
    ensures closed { (old : LoadedModules) → AfterLoading old linking.now held.old asked.now (IfOk result (ClosesOn linking.now held.new)) }
    ensures refused { (old : LoadedModules) → AfterLoading old linking.now held.old asked.now (IfErr result (RefusesOn linking.now held.new)) }
{
    let mut found = found_nothing(alloc);
    for (text, module) in asked {
        seek_all(
            alloc,
            linking,
            text.as_str(),
            &module.names,
            held,
            &mut found,
        )?;
    }
    close(alloc, linking, held, found)
}

/// Reaches what is sought in a module.
fn seek_all<'a>(
    alloc: Global,
    linking: &Linking<'a>,
    text: &str,
    names: &BTreeSet<String>,
    held: &mut HeldNames,
    found: &mut Found<'a>,
) -> Result<(), AllocError>
    ensures sound { EachName (LeadsOn linking.now text.now) names.now → IsSound linking.now held.old found.old.reached.items → OnOk result (IsSound linking.now held.new found.new.reached.items) }
    ensures in_order { IsKeyed linking.now.modules.now → IsInOrder linking.now held.old found.old → OnOk result (IsInOrder linking.now held.new found.new) }
    ensures moves { OnOk result (Moves (found_stage held.old found.old) (found_stage held.new found.new)) }
    ensures handled { OnOk result (EachName (IsSought linking.now (found_stage held.new found.new) text.now) names.now) }
{
    for name in names {
        seek(alloc, linking, text, name.as_str(), held, found)?;
    }
    Ok(())
}

/// Reaches an item that is sought in a module, or notes that it is missing.
fn seek<'a>(
    alloc: Global,
    linking: &Linking<'a>,
    text: &str,
    name: &str,
    held: &mut HeldNames,
    found: &mut Found<'a>,
) -> Result<(), AllocError>
    ensures sound { LeadsOn linking.now text.now name.now → IsSound linking.now held.old found.old.reached.items → OnOk result (IsSound linking.now held.new found.new.reached.items) }
    ensures in_order { IsKeyed linking.now.modules.now → IsInOrder linking.now held.old found.old → OnOk result (IsInOrder linking.now held.new found.new) }
    ensures moves { OnOk result (Moves (found_stage held.old found.old) (found_stage held.new found.new)) }
    ensures handled { OnOk result (IsSought linking.now (found_stage held.new found.new) text.now name.now) }
{
    match item_of(linking.modules, text, name) {
        Item::Declared(symbol) => reach(alloc, linking, symbol, held, &mut found.reached),
        Item::Imported | Item::Absent | Item::Unloaded => {
            found.is_missing = true;
            Ok(())
        }
    }
}

/// Follows the occurrences of what is reached, and answers what is asked for.
fn close<'a>(
    alloc: Global,
    linking: &Linking<'a>,
    held: &mut HeldNames,
    mut found: Found<'a>,
) -> Result<Asked, ImportError>
    ensures sound { IsSound linking.now held.old found.entry.reached.items → OnOk result (AllReached linking.now held.new) }
    ensures followed { FollowedTo (loaded linking.now.modules.now) (found_stage held.old found.entry) 0 → IfOk result (AllFollowedOn linking.now held.new) }
    ensures stays { OnOk result ((m : Path) (place : ℕ) → IsSome (held_at held.old m place) → IsSome (held_at held.new m place)) }
    ensures closed { IsFoundUnderway linking.now held.old found.entry → IfOk result (ClosesOn linking.now held.new) }
    ensures refused { IsFoundUnderway linking.now held.old found.entry → IfErr result (RefusesOn linking.now held.new) }
{
    follow_all(alloc, linking, held, &mut found)?;
    outcome_of(alloc, linking, held, found)
}

/// Follows the occurrences of what is reached, and of what they reach.
fn follow_all<'a>(
    alloc: Global,
    linking: &Linking<'a>,
    held: &mut HeldNames,
    found: &mut Found<'a>,
) -> Result<(), AllocError>
    ensures sound { IsSound linking.now held.old found.old.reached.items → OnOk result (IsSound linking.now held.new found.new.reached.items) }
    ensures in_order { IsKeyed linking.now.modules.now → IsSound linking.now held.old found.old.reached.items → IsInOrder linking.now held.old found.old → OnOk result (IsInOrder linking.now held.new found.new) }
    ensures moves { OnOk result (Moves (found_stage held.old found.old) (found_stage held.new found.new)) }
    ensures followed { FollowedTo (loaded linking.now.modules.now) (found_stage held.old found.old) 0 → OnOk result (AllFollowed (loaded linking.now.modules.now) (found_stage held.new found.new)) }
{
    for at in 0..usize::MAX {
        let Some(symbol) = found.reached.get(at) else {
            return Ok(());
        };
        let symbol = *symbol;
        follow(alloc, linking, symbol, held, found)?;
    }
    // No list is longer.
    let _count = found.reached.len();
    Ok(())
}

fn outcome_of(
    alloc: Global,
    linking: &Linking<'_>,
    held: &HeldNames,
    found: Found<'_>,
) -> Result<Asked, ImportError>
    ensures closed { IsFoundFinished linking.now held.now found.entry → IfOk result (ClosesOn linking.now held.now) }
    ensures refused { IsFoundFinished linking.now held.now found.entry → IfErr result (RefusesOn linking.now held.now) }
    ensures followed { AllFollowed (loaded linking.now.modules.now) (found_stage held.now found.entry) → IfOk result (AllFollowedOn linking.now held.now) }
{
    if !found.is_missing {
        return Ok(found.asked);
    }
    match first_missing(alloc, linking.modules, held)? {
        Some(error) => Err(error),
        None => Ok(found.asked),
    }
}

fn follow<'a>(
    alloc: Global,
    linking: &Linking<'a>,
    symbol: Symbol<'a>,
    held: &mut HeldNames,
    found: &mut Found<'a>,
) -> Result<(), AllocError>
    ensures in_order { IsKeyed linking.now.modules.now → IsReached linking.now symbol.entry → IsInOrder linking.now held.old found.old → OnOk result (IsInOrder linking.now held.new found.new) }
    ensures sound { IsReached linking.now symbol.entry → IsSound linking.now held.old found.old.reached.items → OnOk result (IsSound linking.now held.new found.new.reached.items) }
    ensures moves { OnOk result (Moves (found_stage held.old found.old) (found_stage held.new found.new)) }
    ensures followed { OnOk result (IsFollowedAt linking.now (found_stage held.new found.new) symbol.entry) }
{
    let Some(home) = linking.modules.get(symbol.module.printed_path.as_str()) else {
        return Ok(());
    };
    match home.declaration(symbol.place) {
        None => Ok(()),
        Some(declaration) => { follow_each(alloc, linking, symbol, home, declaration, held, found) }
    }
}

fn follow_each<'a>(
    alloc: Global,
    linking: &Linking<'a>,
    symbol: Symbol<'a>,
    home: &'a Module,
    declaration: &GlobalDeclaration,
    held: &mut HeldNames,
    found: &mut Found<'a>,
) -> Result<(), AllocError>
    requires home { loaded linking.now.modules.now (string_bytes symbol.«module».now.printed_path) ≡ Some (home_of home.now) }
    requires declaration { slice_get (unit_tree home.now.unit).declarations symbol.place ≡ Some (declaration_tree declaration.now) }
    requires in_table { IsInTable linking.now.modules.now home.now }
    ensures in_order { IsKeyed linking.now.modules.now → IsReached linking.now symbol.entry → IsInOrder linking.now held.old found.old → OnOk result (IsInOrder linking.now held.new found.new) }
    ensures sound { IsReached linking.now symbol.entry → IsSound linking.now held.old found.old.reached.items → OnOk result (IsSound linking.now held.new found.new.reached.items) }
    ensures moves { OnOk result (Moves (found_stage held.old found.old) (found_stage held.new found.new)) }
    ensures followed { OnOk result (IsFollowedAt linking.now (found_stage held.new found.new) symbol.entry) }
{
    let names = occurrences(alloc, declaration)?;
    for name in names.as_slice() {
        follow_name(alloc, linking, symbol, home, declaration, name, held, found)?;
    }
    Ok(())
}

fn follow_name<'a>(
    alloc: Global,
    linking: &Linking<'a>,
    from: Symbol<'a>,
    home: &'a Module,
    declaration: &GlobalDeclaration,
    name: &str,
    held: &mut HeldNames,
    found: &mut Found<'a>,
) -> Result<(), AllocError>
    requires home { loaded linking.now.modules.now (string_bytes from.«module».now.printed_path) ≡ Some (home_of home.now) }
    requires declaration { slice_get (unit_tree home.now.unit).declarations from.place ≡ Some (declaration_tree declaration.now) }
    requires occurs { Contains (spec.occurrences (declaration_tree declaration.now)) name.now }
    requires in_table { IsInTable linking.now.modules.now home.now }
    ensures in_order { IsKeyed linking.now.modules.now → IsReached linking.now from.entry → IsInOrder linking.now held.old found.old → OnOk result (IsInOrder linking.now held.new found.new) }
    ensures sound { IsReached linking.now from.entry → IsSound linking.now held.old found.old.reached.items → OnOk result (IsSound linking.now held.new found.new.reached.items) }
    ensures moves { OnOk result (Moves (found_stage held.old found.old) (found_stage held.new found.new)) }
    ensures handled { OnOk result (Handled (found_stage held.new found.new) (outcome (loaded linking.now.modules.now) (home_of home.now) name.now)) }
{
    match denotation(linking.modules, home, name) {
        Denoted::Declared(symbol) => reach(alloc, linking, symbol, held, &mut found.reached),
        Denoted::Unloaded(target) => {
            ask(alloc, &mut found.asked, target)?;
            Ok(())
        }
        Denoted::Missing(_, _) | Denoted::Private(_, _) => {
            found.is_missing = true;
            Ok(())
        }
        Denoted::Free => Ok(()),
    }
}

fn reach<'a>(
    alloc: Global,
    linking: &Linking<'a>,
    symbol: Symbol<'a>,
    held: &mut HeldNames,
    reached: &mut Vec<Symbol<'a>>,
) -> Result<(), AllocError>
    ensures sound { IsReached linking.now symbol.entry → IsSound linking.now held.old reached.old.items → OnOk result (IsSound linking.now held.new reached.new.items) }
    ensures moves { OnOk result ((asked : ReferenceTarget → Bool) (missing : Bool) → Moves (stage held.old asked missing reached.old.items) (stage held.new asked missing reached.new.items)) }
    ensures held { OnOk result (IsSome (held_at held.new (string_bytes symbol.entry.«module».now.printed_path) symbol.entry.place)) }
    ensures named { IsPlaced linking.now.modules.now symbol.entry → NamesAll linking.now held.old → OnOk result (NamesAll linking.now held.new) }
{
    if is_held(held, symbol) {
        return Ok(());
    }
    let name = printed_name(alloc, linking.root, symbol)?;
    hold(alloc, held, symbol, name)?;
    reached.push(symbol)?;
    Ok(())
}

/// Whether a symbol is held.
pub fn is_held(held: &HeldNames, symbol: Symbol<'_>) -> bool
    ensures { result ≡ is_some (held_at held.now (string_bytes symbol.entry.«module».now.printed_path) symbol.entry.place) }
{
    match held.get(symbol.module.printed_path.as_str()) {
        None => false,
        Some(places) => places.contains_key(&symbol.place),
    }
}

fn hold(
    alloc: Global,
    held: &mut HeldNames,
    symbol: Symbol<'_>,
    name: Text,
) -> Result<(), AllocError>
    ensures { OnOk result (Holds held.old (string_bytes symbol.entry.«module».now.printed_path) symbol.entry.place name held.new) }
{
    hold_at(
        alloc,
        held,
        symbol.module.printed_path.as_str(),
        symbol.place,
        name,
    )
}

fn hold_at(
    alloc: Global,
    held: &mut HeldNames,
    text: &str,
    place: usize,
    name: Text,
) -> Result<(), AllocError>
    ensures { OnOk result (Holds held.old text.now place name held.new) }
{
    let mut places = take_places(alloc, held, text);
    places.insert(place, name)?;
    held.insert(String::from_str(alloc, text)?, places)?;
    Ok(())
}

/// Takes the held places of a module.
fn take_places(alloc: Global, held: &mut HeldNames, text: &str) -> BTreeMap<usize, Text>
    ensures places { (place : ℕ) → get nat_cmp result place ≡ held_at held.old text.now place }
    ensures others { (m : Path) → get_by_text held.new m ≡ (if bytes_eq text.now m then None else get_by_text held.old m) }
{
    match held.remove(text) {
        Some(places) => places,
        None => BTreeMap::new(alloc),
    }
}

/// The name of a symbol in the linked unit: the root's names stay.
fn printed_name(alloc: Global, root: &str, symbol: Symbol<'_>) -> Result<Text, AllocError>
    ensures { IfOk result (NamesPlace root.now symbol.entry) }
{
    let Some(declaration) = symbol.declaration() else {
        return Ok(Text::new(alloc));
    };
    let name = declaration.declared_name();
    if symbol.module.printed_path.as_str() == root {
        return Text::from_str(alloc, name);
    }
    EscapeMangler.mangle(alloc, &symbol.module.path, name)
}

fn ask(alloc: Global, asked: &mut Asked, target: &Target) -> Result<(), AllocError>
    ensures by_name { AreAskedByName asked.old → OnOk result (AreAskedByName asked.new) }
    ensures by_import { (ms : LoadedModules) → IsNamedInTable ms target.now.path → AreAskedByImport ms asked.old → OnOk result (AreAskedByImport ms asked.new) }
    ensures asks { OnOk result ((s : ReferenceTarget) → asks asked.new s ≡ asks_too (string_bytes target.now.printed_path) target.now.item asked.old s) }
{
    let key = target.printed_path.clone()?;
    let item = String::from_str(alloc, target.item.as_str())?;
    let mut module = take_asked(alloc, asked, target)?;
    module.names.insert(item)?;
    drop(asked.insert(key, module)?);
    Ok(())
}

/// Takes what is asked of a target's module.
fn take_asked(alloc: Global, asked: &mut Asked, target: &Target) -> Result<AskedModule, AllocError>
    ensures names { IfOk result (λ m. (x : spec.Name) → name_asked (Some m) x ≡ asks asked.old (record { home = string_bytes target.now.printed_path; name = x })) }
    ensures paths { AreAskedByName asked.old → IfOk result (λ m. path_text m.path ≡ string_bytes target.now.printed_path) }
    ensures by_import { (ms : LoadedModules) → IsNamedInTable ms target.now.path → AreAskedByImport ms asked.old → IfOk result (λ m. IsNamedInTable ms m.path) }
    ensures others { OnOk result ((m : Path) → get_by_text asked.new m ≡ (if bytes_eq (string_bytes target.now.printed_path) m then None else get_by_text asked.old m)) }
{
    match asked.remove(target.printed_path.as_str()) {
        Some(module) => Ok(module),
        None => Ok(AskedModule {
            path: target.path.clone_in(alloc)?,
            names: BTreeSet::new(alloc),
        }),
    }
}
