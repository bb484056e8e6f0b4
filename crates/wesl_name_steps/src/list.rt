//! Steps in the order of a module's text, with the table of their names.

use crate::step::{Role, Step};
use indexmap::IndexSet;
use std::alloc::{AllocError, Global};
use wesl_mark::Kind;
use wgsl_builtin_names::{WORD_COUNT, WordKind, word_at};
use wgsl_path::Span;

/// A directive or a declaration of a module.
#[derive(Clone, Copy)]
pub struct StepPlace {
    pub kind: Kind,
    /// The number of its name, where it has one.
    pub name: Option<u32>,
    /// Its steps are those of the list from `start` on, up to `end`, which is not among them.
    pub start: usize,
    /// Where the body of a function starts; else the end.
    pub body: usize,
    pub end: usize,
    pub span: Span,
}

/// Steps, each with the place in the text of the innermost node that has one. The names of WGSL's own have the first numbers.
#[derive(Drop)]
pub struct StepList {
    alloc: Global,
    names: IndexSet<String>,
    steps: Vec<Step>,
    spans: Vec<Span>,
    places: Vec<StepPlace>,
}

/// A number as a `u32`. One that does not fit is out of memory.
pub fn numbered(at: usize) -> Result<u32, AllocError> {
    match u32::try_from(at) {
        Ok(number) => Ok(number),
        Err(_) => Err(AllocError),
    }
}

impl StepList {
    /// No steps, and the names of WGSL's own.
    pub fn new(alloc: Global) -> Result<StepList, AllocError> {
        let mut names = IndexSet::new(alloc);
        for number in 0..WORD_COUNT {
            if let Some(word) = word_at(number) {
                let _ = names.insert_full(String::from_str(alloc, word.name)?)?;
            }
        }
        Ok(StepList {
            alloc,
            names,
            steps: Vec::new(alloc),
            spans: Vec::new(alloc),
            places: Vec::new(alloc),
        })
    }

    /// The number of a name, which is added where it is not there yet.
    pub fn number(&mut self, name: &str) -> Result<u32, AllocError> {
        let (at, _) = self.names.insert_full(String::from_str(self.alloc, name)?)?;
        numbered(at)
    }

    /// The text of a name, which is empty where no name has this number.
    pub fn name(&self, number: u32) -> &str {
        match self.names.get_index(number as usize) {
            Some(name) => name.as_str(),
            None => "",
        }
    }

    /// How many names there are; their numbers are those below it.
    pub fn name_count(&self) -> usize {
        self.names.len()
    }

    /// Adds a step, with its place in the text.
    pub fn push(&mut self, step: Step, span: Span) -> Result<(), AllocError> {
        self.steps.push(step)?;
        self.spans.push(span)?;
        Ok(())
    }

    /// A name is used.
    pub fn mention(
        &mut self,
        name: &str,
        role: Role,
        is_templated: bool,
        span: Span,
    ) -> Result<u32, AllocError> {
        let name = self.number(name)?;
        self.push(
            Step::Mention {
                name,
                role,
                is_templated,
            },
            span,
        )?;
        Ok(name)
    }

    /// Adds a place, whose steps are there.
    pub fn push_place(&mut self, place: StepPlace) -> Result<(), AllocError> {
        self.places.push(place)?;
        Ok(())
    }

    /// How many steps there are.
    pub fn len(&self) -> usize {
        self.steps.len()
    }

    /// Whether there are no steps.
    pub fn is_empty(&self) -> bool {
        self.steps.is_empty()
    }

    /// The places, in the order of the text.
    pub fn places(&self) -> &[StepPlace] {
        self.places.as_slice()
    }

    /// The step of this number, and its place in the text.
    pub fn step(&self, at: usize) -> Option<(Step, Span)> {
        let step = self.steps.get(at).copied()?;
        let span = self.spans.get(at).copied()?;
        Some((step, span))
    }
}

/// What a name of WGSL's own is.
pub fn word_kind(name: u32) -> Option<WordKind> {
    Some(word_at(name as usize)?.kind)
}
