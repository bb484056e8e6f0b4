//! What goes over the steps of a module.

use indexmap::IndexMap;
use std::alloc::{AllocError, Global};
use wesl_mark::Scopes;
use wesl_name_steps::{Found, NameProblem, Step, StepList, Type, are_alike, word_kind};
use wgsl_builtin_names::{WordKind, is_attribute, is_extension, is_feature};
use wgsl_path::{Items, Span};

/// A member or parameter: the place of its structure or function, and the number of its name, or its own.
#[derive(Clone, Copy, PartialEq, Eq, Hash)]
pub(crate) struct MemberKey {
    pub place: usize,
    pub number: u32,
}

/// What a name denotes.
#[derive(Clone, Copy)]
pub(crate) enum Meaning {
    /// The local declaration of this number.
    Local(usize),
    /// The declaration of the module at this place.
    Global(usize),
    /// A name of WGSL's own.
    Word(WordKind),
    /// A name that nothing declares.
    Free,
}

/// What is known of a module's names while its steps are read.
#[derive(Drop)]
pub(crate) struct Reader {
    pub alloc: Global,
    /// For each name, the place of its declaration in the module.
    pub globals: Vec<Option<usize>>,
    /// For each place, the type of its value, of what its function returns, or that it names.
    pub place_types: Vec<Type>,
    /// What arrays and pointers hold, by number.
    pub elements: Vec<Type>,
    /// The types of members, by their names.
    pub members: IndexMap<MemberKey, Type>,
    /// The types of members and parameters, by their numbers.
    pub parts: IndexMap<MemberKey, Type>,
    /// For each name, in which reading of a place it was a member last.
    pub member_stamps: Vec<usize>,
    /// The names of locals, which stand for the numbers of their types.
    pub scopes: Scopes,
    pub local_types: Vec<Type>,
    /// The numbers of the first locals of the open scopes.
    pub starts: Vec<usize>,
    pub stack: Vec<Type>,
    /// For each place those that it mentions.
    pub rows: Vec<Items<usize>>,
    pub found: Vec<Found>,
    /// Whether faults are told: the types of all places are known by then.
    pub is_telling: bool,
    /// How many readings of places there were, with this one.
    pub reading: usize,
    /// Where the reader is.
    pub place: usize,
    pub span: Span,
}

impl Reader {
    /// A reader of a module before its first step.
    pub(crate) fn new(alloc: Global, list: &StepList) -> Result<Reader, AllocError> {
        let places = list.places().len();
        let mut rows = Vec::new(alloc);
        for _place in 0..places {
            rows.push(Items::new(alloc))?;
        }
        Ok(Reader {
            alloc,
            globals: vec![in alloc; None; list.name_count()]?,
            place_types: vec![in alloc; Type::Unknown; places]?,
            elements: Vec::new(alloc),
            members: IndexMap::new(alloc),
            parts: IndexMap::new(alloc),
            member_stamps: vec![in alloc; 0; list.name_count()]?,
            scopes: Scopes::new(alloc),
            local_types: Vec::new(alloc),
            starts: Vec::new(alloc),
            stack: Vec::new(alloc),
            rows,
            found: Vec::new(alloc),
            is_telling: false,
            reading: 0,
            place: 0,
            span: Span { start: 0, end: 0 },
        })
    }

    /// What a name denotes here.
    pub(crate) fn meaning(&self, name: u32) -> Meaning {
        if let Some(local) = self.scopes.find(name) {
            return Meaning::Local(local as usize);
        }
        if let Some(Some(place)) = self.globals.get(name as usize) {
            return Meaning::Global(*place);
        }
        match word_kind(name) {
            Some(kind) => Meaning::Word(kind),
            None => Meaning::Free,
        }
    }

    /// Tells a fault of a name here.
    pub(crate) fn tell(&mut self, problem: NameProblem, name: u32) -> Result<(), AllocError> {
        self.tell_of(problem, Some(name), Type::Unknown, Type::Unknown)
    }

    /// Tells a fault here, with the types concerned.
    pub(crate) fn tell_of(
        &mut self,
        problem: NameProblem,
        name: Option<u32>,
        owner: Type,
        needed: Type,
    ) -> Result<(), AllocError> {
        if self.is_telling {
            self.found.push(Found {
                problem,
                place: self.place,
                span: self.span,
                name,
                owner,
                needed,
            })?;
        }
        Ok(())
    }

    /// Tells that a value stands where one of another type is needed.
    pub(crate) fn tell_mismatch(&mut self, given: Type, needed: Type) -> Result<(), AllocError> {
        self.tell_of(NameProblem::TypeMismatch, None, given, needed)
    }

    /// Tells a value that is not of the type that is needed.
    pub(crate) fn expect(&mut self, given: Type, needed: Type) -> Result<(), AllocError> {
        if are_alike(given, needed) {
            Ok(())
        } else {
            self.tell_mismatch(given, needed)
        }
    }

    /// The type of a place.
    pub(crate) fn place_type(&self, place: usize) -> Type {
        match self.place_types.get(place) {
            Some(ty) => *ty,
            None => Type::Unknown,
        }
    }

    /// The type of what an array or a pointer holds.
    pub(crate) fn element(&self, number: usize) -> Type {
        match self.elements.get(number) {
            Some(ty) => *ty,
            None => Type::Unknown,
        }
    }

    /// The number of what an array or a pointer holds.
    pub(crate) fn hold(&mut self, ty: Type) -> Result<usize, AllocError> {
        let number = self.elements.len();
        self.elements.push(ty)?;
        Ok(number)
    }

    /// The type that so many others stand above on the stack.
    pub(crate) fn below(&self, above: usize) -> Type {
        let Some(at) = self.stack.len().checked_sub(above) else {
            return Type::Unknown;
        };
        match at.checked_sub(1) {
            Some(at) => match self.stack.get(at) {
                Some(ty) => *ty,
                None => Type::Unknown,
            },
            None => Type::Unknown,
        }
    }

    /// A scope starts.
    fn enter(&mut self) -> Result<(), AllocError> {
        self.starts.push(self.local_types.len())?;
        self.scopes.enter()
    }

    /// The innermost scope ends.
    fn leave(&mut self) {
        let _start = self.starts.pop();
        self.scopes.leave();
    }

    /// Tells an attribute that is not known.
    fn check_attribute(&mut self, list: &StepList, name: u32) -> Result<(), AllocError> {
        if is_attribute(list.name(name)) {
            Ok(())
        } else {
            self.tell(NameProblem::UnknownAttribute, name)
        }
    }

    /// Tells what `enable` or `requires` names and is not known.
    fn check_extension(
        &mut self,
        list: &StepList,
        name: u32,
        is_required: bool,
    ) -> Result<(), AllocError> {
        let text = list.name(name);
        let is_known = if is_required {
            is_feature(text)
        } else {
            is_extension(text)
        };
        if is_known {
            Ok(())
        } else {
            self.tell(NameProblem::UnknownExtension, name)
        }
    }

    /// Reads a step.
    fn step(&mut self, list: &StepList, step: Step) -> Result<(), AllocError> {
        match step {
            Step::Enter => self.enter(),
            Step::Leave => {
                self.leave();
                Ok(())
            }
            Step::Clear => {
                self.stack.clear();
                Ok(())
            }
            Step::Mention {
                name,
                role,
                is_templated,
            } => self.mention(list, name, role, is_templated),
            Step::Value(step) => self.value(list, step),
            Step::Declare(step) => self.declare(step),
            Step::Attribute(name) => self.check_attribute(list, name),
            Step::Extension(name) => self.check_extension(list, name, false),
            Step::Feature(name) => self.check_extension(list, name, true),
        }
    }

    /// Reads the steps of these numbers, which stand at a place.
    pub(crate) fn read(
        &mut self,
        list: &StepList,
        place: usize,
        start: usize,
        end: usize,
    ) -> Result<(), AllocError> {
        self.reading = self.reading.saturating_add(1);
        self.place = place;
        self.stack.clear();
        for at in start..end {
            let Some((step, span)) = list.step(at) else {
                return Ok(());
            };
            self.span = span;
            self.step(list, step)?;
        }
        Ok(())
    }
}
