//! The loaded modules.

ghost use Rattle.std.specs.Prelude.{◌≡◌, ◌≤◌, ◌∷◌, [], ◌++◌, ◌<◌, ℕ, List, length, Some, None, slice_get, string_bytes, if◌then◌else◌, OnOk, OnErr};
ghost use Rattle.std.specs.Str.{bytes_eq};
ghost use Rattle.std.specs.Option.{option_copied};
ghost use Rattle.std.specs.BTreeMap.{get_by_text};
ghost use Rattle.wesl_module_index.specs.Counts.{item_total, home_in, AreKeyed};

use crate::module::Module;
use std::alloc::{AllocError, Global};
use std::collections::BTreeMap;

/// A declaration, assertion or directive of a loaded module: the module's number and the place there.
#[derive(Clone, Copy)]
pub struct DeclarationId {
    pub module: usize,
    pub place: usize,
}

/// The loaded modules, each with a number in the order of loading. The root has number 0.
#[derive(Drop)]
pub struct Modules {
    list: Vec<Module>,
    numbers: BTreeMap<String, usize>,
    item_count: usize,
    pub ghost counted: { item_total list.items ≤ item_count },
    pub ghost keyed: { AreKeyed numbers list.items },
}

impl Modules {
    pub fn new(alloc: Global) -> Modules
        ensures none { result.list.items ≡ [] }
        ensures empty { (p : List ℕ) → get_by_text result.numbers p ≡ None }
    {
        Modules {
            list: Vec::new(alloc),
            numbers: BTreeMap::new(alloc),
            item_count: 0,
        }
    }

    /// How many modules are loaded; their numbers are those below it.
    pub fn len(&self) -> usize
        ensures { result ≡ length self.now.list.items }
    {
        self.list.len()
    }

    pub fn is_empty(&self) -> bool {
        self.list.is_empty()
    }

    /// How many items the imports of all modules have.
    pub fn item_count(&self) -> usize
        ensures { item_total self.now.list.items ≤ result }
    {
        self.item_count
    }

    /// The module of this number.
    pub fn get(&self, number: usize) -> Option<&Module>
        ensures { option_copied result ≡ slice_get self.now.list.items number }
    {
        self.list.get(number)
    }

    /// The number of the module at a printed path.
    pub fn number_of(&self, printed_path: &str) -> Option<usize>
        ensures { result ≡ get_by_text self.now.numbers printed_path.now }
    {
        match self.numbers.get(printed_path) {
            Some(number) => Some(*number),
            None => None,
        }
    }

    /// Adds a module, with the next number.
    #[tactic(auto, using(crate::proofs::Pushed::total_more, crate::proofs::Pushed::keyed_pushed, crate::proofs::Pushed::keyed_same))]
    pub fn push(&mut self, alloc: Global, module: Module) -> Result<(), AllocError>
        ensures list { OnOk result (self.new.list.items ≡ self.old.list.items ++ «module» ∷ []) }
        ensures numbers { OnOk result ((p : List ℕ) → get_by_text self.new.numbers p ≡ if bytes_eq (string_bytes «module».target.printed_path) p then Some (length self.old.list.items) else get_by_text self.old.numbers p) }
    {
        let text = String::from_str(alloc, module.target.printed_path.as_str())?;
        let Some(count) = self.item_count.checked_add(module.items.len()) else {
            return Err(AllocError);
        };
        let number = self.list.len();
        self.item_count = count;
        self.list.push(module)?;
        note(&mut self.numbers, text, number)
    }

    /// The numbers of the modules in byte order of their printed paths.
    pub fn in_path_order(&self, alloc: Global) -> Result<Vec<usize>, AllocError> {
        let mut numbers = Vec::new(alloc);
        for number in self.numbers.values() {
            numbers.push(*number)?;
        }
        Ok(numbers)
    }

    /// The numbers of the modules in the order of the linked unit: the root's, then those of the others in byte order of their printed
    /// paths.
    pub fn in_linked_order(&self, alloc: Global) -> Result<Vec<usize>, AllocError> {
        let mut numbers = Vec::new(alloc);
        numbers.push(0)?;
        for number in self.numbers.values() {
            if *number != 0 {
                numbers.push(*number)?;
            }
        }
        Ok(numbers)
    }
}

/// Notes the number of the module at a printed path. Where memory is refused nothing changes.
fn note(
    numbers: &mut BTreeMap<String, usize>,
    printed_path: String,
    number: usize,
) -> Result<(), AllocError>
    ensures noted { OnOk result ((p : List ℕ) → get_by_text numbers.new p ≡ if bytes_eq (string_bytes printed_path) p then Some number else get_by_text numbers.old p) }
    ensures same { OnErr result ((p : List ℕ) → get_by_text numbers.new p ≡ get_by_text numbers.old p) }
{
    numbers.insert(printed_path, number)?;
    Ok(())
}
