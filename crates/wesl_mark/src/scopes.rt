//! What a name stands for: the last declaration of it in the scopes that are open.

ghost use Rattle.std.specs.Prelude.{◌≡◌, ◌<◌, ◌^◌, ◌++◌, ◌∷◌, [], ℕ, None, OnOk, length, get_or};
ghost use Rattle.wesl_mark.specs.Trail.{nearest, AreKept, IsTable, Leaves};
ghost use Rattle.wesl_mark.specs.declared.scopes.Entry.TheVariants.{Start, Bound};

use std::alloc::{AllocError, Global};

/// A declaration that is in scope, or the start of a scope.
#[derive(Clone, Copy)]
pub enum Entry {
    Start,
    Bound(Shadowing),
}

/// A declaration of a name, by number; its value; and the value of the name before it.
#[derive(Clone, Copy)]
pub struct Shadowing {
    pub name: u32,
    pub value: u32,
    pub before: Option<u32>,
}

/// What each name stands for: a value of the caller's own, say the number of the mark that declares it. It starts with no scope open; what
/// is declared then stays to the end.
#[derive(Drop)]
pub struct Scopes {
    values: Vec<Option<u32>>,
    trail: Vec<Entry>,
    ghost table: { IsTable values.items trail.items },
    ghost kept: { AreKept trail.items },
}

impl Scopes {
    /// No declarations.
    pub fn new(alloc: Global) -> Scopes
        ensures { result.trail.items ≡ [] }
    {
        Scopes {
            values: Vec::new(alloc),
            trail: Vec::new(alloc),
        }
    }

    /// Starts a scope.
    pub fn enter(&mut self) -> Result<(), AllocError>
        ensures { OnOk result (self.new.trail.items ≡ self.old.trail.items ++ Start ∷ []) }
    {
        let Scopes { values, trail } = self;
        open(values, trail)
    }

    /// Declares a name in the innermost scope.
    pub fn declare(&mut self, name: u32, value: u32) -> Result<(), AllocError>
        ensures { OnOk result (self.new.trail.items ≡ self.old.trail.items ++ Bound (record { name = name; value = value; before = nearest name self.old.trail.items }) ∷ []) }
    {
        let Scopes { values, trail } = self;
        extend(values, name as usize)?;
        bind(values, trail, name, value)
    }

    /// What a name stands for: the value of its innermost and last declaration.
    pub fn find(&self, name: u32) -> Option<u32>
        ensures { result ≡ nearest name self.now.trail.items }
    {
        found(self.values.as_slice(), name as usize)
    }

    /// Leaves the innermost scope, with its declarations.
    pub fn leave(&mut self)
        ensures { Leaves self.old.trail.items self.new.trail.items }
    {
        let Scopes { values, trail } = self;
        close(values, trail);
    }
}

/// The value of a name, where there is one.
fn found(values: &[Option<u32>], name: usize) -> Option<u32>
    ensures { result ≡ get_or values.now name None }
{
    if name < values.len() {
        values[name]
    } else {
        None
    }
}

/// Makes room for a name.
fn extend(values: &mut Vec<Option<u32>>, name: usize) -> Result<(), AllocError>
    requires small { name < 2 ^ 32 }
    ensures within { OnOk result (name < length values.new.items) }
    ensures same { (n : ℕ) → get_or values.new.items n None ≡ get_or values.old.items n None }
{
    while values.len() <= name {
        values.push(None)?;
    }
    Ok(())
}

/// Starts a scope.
#[tactic(auto, using(crate::proofs::Steps::table_start, crate::proofs::Steps::kept_start))]
fn open(values: &mut Vec<Option<u32>>, trail: &mut Vec<Entry>) -> Result<(), AllocError>
    requires table { IsTable values.old.items trail.old.items }
    requires kept { AreKept trail.old.items }
    ensures started { OnOk result (trail.new.items ≡ trail.old.items ++ Start ∷ []) }
    ensures table { IsTable values.new.items trail.new.items }
    ensures kept { AreKept trail.new.items }
{
    trail.push(Entry::Start)?;
    Ok(())
}

/// Declares a name.
#[tactic(auto, using(crate::proofs::Steps::table_bound, crate::proofs::Steps::kept_bound))]
fn bind(
    values: &mut Vec<Option<u32>>,
    trail: &mut Vec<Entry>,
    name: u32,
    value: u32,
) -> Result<(), AllocError>
    requires within { name < length values.old.items }
    requires table { IsTable values.old.items trail.old.items }
    requires kept { AreKept trail.old.items }
    ensures declared { OnOk result (trail.new.items ≡ trail.old.items ++ Bound (record { name = name; value = value; before = nearest name trail.old.items }) ∷ []) }
    ensures table { IsTable values.new.items trail.new.items }
    ensures kept { AreKept trail.new.items }
{
    let before = values[name as usize];
    trail.push(Entry::Bound(Shadowing {
        name,
        value,
        before,
    }))?;
    values[name as usize] = Some(value);
    Ok(())
}

/// Takes off the declarations behind the last start, and that.
#[tactic(auto, using(crate::proofs::Steps::table_undone, crate::proofs::Steps::kept_shorter))]
fn close(values: &mut Vec<Option<u32>>, trail: &mut Vec<Entry>)
    requires table { IsTable values.old.items trail.old.items }
    requires kept { AreKept trail.old.items }
    ensures left { Leaves trail.old.items trail.new.items }
    ensures table { IsTable values.new.items trail.new.items }
    ensures kept { AreKept trail.new.items }
{
    while let Some(entry) = trail.pop() {
        match entry {
            Entry::Start => return,
            Entry::Bound(b) => restore(values, trail.as_slice(), b),
        }
    }
}

/// Gives a name the value that it had before a declaration.
#[tactic(auto, using(crate::proofs::Steps::table_undone))]
fn restore(values: &mut Vec<Option<u32>>, trail: &[Entry], b: Shadowing)
    requires table { IsTable values.old.items (trail.now ++ Bound b ∷ []) }
    requires kept { AreKept (trail.now ++ Bound b ∷ []) }
    ensures { IsTable values.new.items trail.now }
{
    if (b.name as usize) < values.len() {
        values[b.name as usize] = b.before;
    }
}
