//! Memory: a list of values, and what references of it read and write (WGSL, "Memory Access").

ghost use Rattle.std.specs.Prelude.{◌≡◌, ◌⊎◌, ◌++◌, ◌∷◌, [], ◌-◌, Ok, Err, length, take, unwrap_or, OnOk, OnErr, IfOk, IfErr};
ghost use Rattle.std.specs.Option.{is_some};
ghost use Rattle.wgsl_instance.specs.Answer.{Answers};
ghost use Rattle.wgsl_memory.specs.Places as spec;

use crate::place::{put_part, read_part};
use std::alloc::{AllocError, Global};
use std::marker::Model;
use wgsl_base::Items;
use wgsl_instance::{Instance, RefInstance};
use wgsl_shader_type::Error;
use wgsl_words::AccessMode;

/// Cells, each of which holds a value. Contracts see their values, in the order of the cells' numbers.
#[derive(Debug, Drop)]
pub struct Memory {
    cells: Items<Instance>,
}

impl Model for Memory {
    ghost use Rattle.std.specs.Prelude.{List};
    ghost use Rattle.std.specs.Coded.{codes};
    ghost use Rattle.wgsl_instance.specs.declared.tree.Instance.{Instance};
    ghost use Rattle.wgsl_instance.specs.contracts.tree.Instance as instance;

    ghost Value = { List Instance };

    ghost coded = { Prim.hlevel (codes, instance.the_row.coded) };

    ghost view = { λ memory. memory.cells };
}

fn is_read(access: AccessMode) -> bool
    ensures { result ≡ spec.is_read access }
{
    !matches!(access, AccessMode::Write)
}

fn is_write(access: AccessMode) -> bool
    ensures { result ≡ spec.is_write access }
{
    !matches!(access, AccessMode::Read)
}

/// The refusal of a reference whose place isn't there.
pub(crate) fn no_place<T: Drop>(
    alloc: Global,
    cells: &[Instance],
    reference: &RefInstance,
) -> Result<T, Error>
    ensures { Answers (Err (spec.no_place cells.now reference.now)) result }
{
    let ty = reference.ty.clone(alloc)?;
    let cell = i64::try_from(reference.cell).unwrap_or(i64::MAX);
    Err(Error::OutOfBounds(cell, ty, cells.len()))
}

/// The refusal of a value of another type than the reference's.
fn write_mismatch(alloc: Global, reference: &RefInstance, value: &Instance) -> Result<(), Error>
    ensures { Answers (Err (spec.type_fault reference.now value.now)) result }
{
    let from = value.ty(alloc)?;
    let to = reference.ty.clone(alloc)?;
    Err(Error::WriteRefType(from, to))
}

/// Whether a value has the type that a reference stores.
fn has_stored_type(
    alloc: Global,
    reference: &RefInstance,
    value: &Instance,
) -> Result<bool, AllocError>
    ensures { IfOk result (λ has. has ≡ spec.has_stored_type reference.now value.now) }
{
    let own = value.ty(alloc)?;
    let has = own == reference.ty;
    drop(own);
    Ok(has)
}

fn read_cells(alloc: Global, cells: &[Instance], reference: &RefInstance) -> Result<Instance, Error>
    ensures { Answers (spec.read_value cells.now reference.now) result }
{
    if !is_read(reference.access) {
        return Err(Error::NotRead);
    }
    match read_part(alloc, cells, reference.cell, reference.path.as_slice())? {
        Some(value) => Ok(value),
        None => no_place(alloc, cells, reference),
    }
}

/// Drops the last cell, if there is one.
fn drop_last(cells: &mut Items<Instance>)
    ensures { cells.new ≡ take (length cells.old - 1) cells.old }
{
    drop(cells.pop());
}

fn truncate_cells(cells: &mut Items<Instance>, len: usize)
    ensures { cells.new ≡ take len cells.old }
{
    while cells.len() > len {
        drop_last(cells);
    }
}

impl Memory {
    /// No cells. It needs no memory.
    pub fn new(alloc: Global) -> Memory
        ensures { result ≡ [] }
    {
        Memory {
            cells: Items::new(alloc),
        }
    }

    /// How many cells there are.
    pub fn len(&self) -> usize
        ensures { result ≡ length self.now }
    {
        self.cells.len()
    }

    /// The values of the cells.
    pub fn as_slice(&self) -> &[Instance]
        ensures { result.now ≡ self.now }
    {
        self.cells.as_slice()
    }

    /// A new cell with this value, and its number. Refused for want of memory alone, and then nothing is changed.
    pub fn allocate(&mut self, value: Instance) -> Result<usize, AllocError>
        ensures ok { OnOk result (self.new ≡ self.old ++ value ∷ []) }
        ensures number { IfOk result (λ cell. cell ≡ length self.old) }
        ensures err { OnErr result (self.new ≡ self.old) }
    {
        let cell = self.cells.len();
        self.cells.push(value)?;
        Ok(cell)
    }

    /// Takes off the cells from this number on.
    pub fn truncate(&mut self, len: usize)
        ensures { self.new ≡ take len self.old }
    {
        truncate_cells(&mut self.cells, len);
    }

    /// The value at the place of a reference. Without read access it is `NotRead`. A place that isn't there, which never
    /// happens to a reference of this memory, is `OutOfBounds` with the cell's number, the reference's stored type and the
    /// number of cells.
    pub fn read(&self, alloc: Global, reference: &RefInstance) -> Result<Instance, Error>
        ensures { Answers (spec.read_value self.now reference.now) result }
    {
        read_cells(alloc, self.cells.as_slice(), reference)
    }

    /// What an expression's value is where it is used: of a reference, what it refers to; of anything else, itself.
    pub fn loaded(&self, alloc: Global, value: Instance) -> Result<Instance, Error>
        ensures { Answers (spec.loaded self.now value) result }
    {
        match value {
            Instance::Ref(reference) => {
                let read = read_cells(alloc, self.cells.as_slice(), &reference);
                drop(reference);
                read
            }
            other => Ok(other),
        }
    }

    /// Writes a value at the place of a reference. Without write access it is `NotWrite`, before anything else; a value of
    /// another type than the one stored there is `WriteRefType`, with the value's type first; a place that isn't there is
    /// `OutOfBounds` as for `read`. A refused write changes nothing.
    pub fn write(
        &mut self,
        alloc: Global,
        reference: &RefInstance,
        value: Instance,
    ) -> Result<(), Error>
        ensures ok { OnOk result (spec.written self.old reference.now value ≡ Ok self.new) }
        ensures err { IfErr result (λ error. (error ≡ Error.OutOfMemory) ⊎ (spec.written self.old reference.now value ≡ Err error)) }
        ensures unchanged { OnErr result (self.new ≡ self.old) }
    {
        if !is_write(reference.access) {
            drop(value);
            return Err(Error::NotWrite);
        }
        match has_stored_type(alloc, reference, &value) {
            Ok(true) => {
                if self.put(reference, value) {
                    Ok(())
                } else {
                    no_place(alloc, self.cells.as_slice(), reference)
                }
            }
            Ok(false) => {
                let refused = write_mismatch(alloc, reference, &value);
                drop(value);
                refused
            }
            Err(error) => {
                drop(value);
                Err(Error::from(error))
            }
        }
    }

    /// Puts a value at the place of a reference. It answers whether the place is there.
    fn put(&mut self, reference: &RefInstance, value: Instance) -> bool
        ensures there { result ≡ is_some (spec.put_place self.old reference.now value) }
        ensures value { self.new ≡ unwrap_or (spec.put_place self.old reference.now value) self.old }
    {
        put_part(
            &mut self.cells,
            reference.cell,
            reference.path.as_slice(),
            value,
        )
    }
}
