//! The faults of a module.

use crate::reader::Reader;
use std::alloc::{AllocError, Global};
use wesl_cycles::first_on_ring;
use wesl_name_steps::{Found, NameFault, NameProblem, StepList, StepPlace, Type, type_name};

/// How often the types of a module's declarations are looked up. A type that comes by a longer chain of names, each declared behind the one
/// before it, is not told.
const ROUNDS: usize = 4;

impl Reader {
    /// Notes the names of the module's declarations. Of two of one name it is the first.
    fn note_globals(&mut self, list: &StepList) {
        for (number, place) in list.places().iter().enumerate() {
            if let Some(name) = place.name {
                self.note_global(name as usize, number);
            }
        }
    }

    fn note_global(&mut self, name: usize, place: usize) {
        if name < self.globals.len() && self.globals[name].is_none() {
            self.globals[name] = Some(place);
        }
    }

    /// Reads what stands outside of the bodies of functions, for the types.
    fn read_heads(&mut self, list: &StepList) -> Result<(), AllocError> {
        for (number, place) in list.places().iter().enumerate() {
            self.read(list, number, place.start, place.body)?;
        }
        Ok(())
    }

    /// Tells a declaration whose name another one before it has.
    fn tell_repeated(&mut self, number: usize, place: &StepPlace) -> Result<(), AllocError> {
        let Some(name) = place.name else {
            return Ok(());
        };
        match self.globals.get(name as usize).copied() {
            Some(Some(first)) if first < number => {
                self.place = number;
                self.span = place.span;
                self.tell(NameProblem::Duplicate, name)
            }
            _ => Ok(()),
        }
    }

    /// Reads all, for the faults.
    fn read_all(&mut self, list: &StepList) -> Result<(), AllocError> {
        self.is_telling = true;
        for (number, place) in list.places().iter().enumerate() {
            self.tell_repeated(number, place)?;
            self.read(list, number, place.start, place.end)?;
        }
        Ok(())
    }

    /// Tells the first declaration that leads back to itself.
    fn read_rings(&mut self, list: &StepList) -> Result<(), AllocError> {
        let Some(number) = first_on_ring(self.alloc, self.rows.as_slice())? else {
            return Ok(());
        };
        if let Some(place) = list.places().get(number)
            && let Some(name) = place.name
        {
            self.found.push(Found {
                problem: NameProblem::Cycle,
                place: number,
                span: place.span,
                name: Some(name),
                owner: Type::Unknown,
                needed: Type::Unknown,
            })?;
        }
        Ok(())
    }
}

/// How a type is called.
fn owner_name(list: &StepList, ty: Type) -> &str {
    let Type::Struct(place) = ty else {
        return type_name(ty);
    };
    match list.places().get(place) {
        Some(place) => match place.name {
            Some(name) => list.name(name),
            None => "",
        },
        None => "",
    }
}

/// The faults of a module without imports, in the order of its text, and behind them a ring of declarations.
pub fn faults_of(alloc: Global, list: &StepList) -> Result<Vec<NameFault>, AllocError> {
    let mut reader = Reader::new(alloc, list)?;
    reader.note_globals(list);
    for _round in 0..ROUNDS {
        reader.read_heads(list)?;
    }
    reader.read_all(list)?;
    reader.read_rings(list)?;
    let mut faults = Vec::new(alloc);
    for found in reader.found.as_slice() {
        let name = match found.name {
            Some(name) => list.name(name),
            None => owner_name(list, found.needed),
        };
        faults.push(NameFault::new(alloc, *found, name, owner_name(list, found.owner))?)?;
    }
    Ok(faults)
}
