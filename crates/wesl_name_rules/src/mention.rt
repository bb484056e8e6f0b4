//! Whether a name may stand where it does.

use crate::reader::{Meaning, Reader};
use std::alloc::AllocError;
use wesl_mark::Kind;
use wesl_name_steps::{NameProblem, Role, StepList, constructor_counts};
use wgsl_builtin_names::{Choice, Counts, WordKind};

/// The fault of a call with so many arguments of what takes others, or can't be called.
fn count_fault(taken: Option<Counts>, given: u32) -> Option<NameProblem> {
    match taken {
        None => Some(NameProblem::NotCallable),
        Some(taken) if taken.contains(given) => None,
        Some(taken) => Some(NameProblem::ParamCount { given, taken }),
    }
}

/// How many arguments a call of a name of WGSL's own takes, where it may be called.
fn word_counts(kind: WordKind) -> Option<Counts> {
    match kind {
        WordKind::Function(counts, _) => Some(counts),
        WordKind::Scalar => Some(Counts::Between(0, 1)),
        WordKind::Vector { size, .. } => Some(Counts::Between(0, size)),
        WordKind::Matrix { columns, rows, .. } => Some(Counts::Matrix { columns, rows }),
        WordKind::Array | WordKind::Other => Some(Counts::Any),
        _ => None,
    }
}

/// Whether a type of WGSL's own can't stand without template arguments.
fn needs_template(kind: WordKind) -> bool {
    match kind {
        WordKind::Vector { is_generator, .. }
        | WordKind::Matrix { is_generator, .. }
        | WordKind::Texture { is_generator, .. } => is_generator,
        WordKind::Array | WordKind::Pointer | WordKind::Atomic | WordKind::StorageTexture(_) =>
            true,
        _ => false,
    }
}

/// The fault of a name of WGSL's own that stands for a type.
fn word_type_fault(kind: WordKind, is_templated: bool) -> Option<NameProblem> {
    match kind {
        WordKind::Function(..) | WordKind::Enumerant(_) => Some(NameProblem::NotAType),
        _ if !is_templated && needs_template(kind) => Some(NameProblem::NoTemplate),
        _ => None,
    }
}

/// The fault of a name that stands for an enumerant.
fn enumerant_fault(choice: Choice, meaning: Meaning) -> Option<NameProblem> {
    match meaning {
        Meaning::Word(WordKind::Enumerant(found)) if found == choice => None,
        Meaning::Local(_) | Meaning::Global(_) => None,
        _ => Some(NameProblem::UnknownEnumerant(choice)),
    }
}

impl Reader {
    /// How many arguments a call of a declaration takes, where it may be called.
    fn declaration_counts(&self, list: &StepList, place: usize) -> Option<Counts> {
        match list.places().get(place)?.kind {
            Kind::Function { parameters, .. } => Some(Counts::Between(parameters, parameters)),
            Kind::Struct { members } => Some(Counts::NoneOr(members)),
            Kind::Alias => {
                let ty = self.place_type(place);
                constructor_counts(ty, self.member_count(list, ty))
            }
            _ => None,
        }
    }

    /// The fault of a call.
    fn callee_fault(&self, list: &StepList, meaning: Meaning, given: u32) -> Option<NameProblem> {
        match meaning {
            Meaning::Local(_) => Some(NameProblem::NotCallable),
            Meaning::Global(place) => count_fault(self.declaration_counts(list, place), given),
            Meaning::Word(kind) => count_fault(word_counts(kind), given),
            Meaning::Free => Some(NameProblem::UndefinedSymbol),
        }
    }

    /// The fault of a name that stands for a value, or for a type.
    fn plain_fault(
        &self,
        list: &StepList,
        meaning: Meaning,
        is_type: bool,
        is_templated: bool,
    ) -> Option<NameProblem> {
        match meaning {
            Meaning::Free => Some(NameProblem::UndefinedSymbol),
            Meaning::Word(kind) if is_type => word_type_fault(kind, is_templated),
            Meaning::Word(_) => Some(NameProblem::NotAValue),
            Meaning::Local(_) if is_type => Some(NameProblem::NotAType),
            Meaning::Local(_) => None,
            Meaning::Global(place) => declaration_fault(list.places().get(place)?.kind, is_type),
        }
    }

    fn fault_of(
        &self,
        list: &StepList,
        meaning: Meaning,
        role: Role,
        is_templated: bool,
    ) -> Option<NameProblem> {
        match role {
            Role::Value => self.plain_fault(list, meaning, false, is_templated),
            Role::Type => self.plain_fault(list, meaning, true, is_templated),
            Role::Callee(given) => self.callee_fault(list, meaning, given),
            Role::Enumerant(choice) => enumerant_fault(choice, meaning),
            Role::Template => match meaning {
                Meaning::Free => Some(NameProblem::UndefinedSymbol),
                _ => None,
            },
        }
    }

    /// Notes that the place that is read mentions another one.
    fn add_mention(&mut self, mentioned: usize) -> Result<(), AllocError> {
        if self.place < self.rows.len() {
            self.rows[self.place].push(mentioned)?;
        }
        Ok(())
    }

    /// Reads a name that is used.
    pub(crate) fn mention(
        &mut self,
        list: &StepList,
        name: u32,
        role: Role,
        is_templated: bool,
    ) -> Result<(), AllocError> {
        if !self.is_telling {
            return Ok(());
        }
        let meaning = self.meaning(name);
        if let Meaning::Global(place) = meaning {
            self.add_mention(place)?;
        }
        match self.fault_of(list, meaning, role, is_templated) {
            None => Ok(()),
            Some(problem) => self.tell(problem, name),
        }
    }
}

/// The fault of a declaration of the module that stands for a value, or for a type.
fn declaration_fault(kind: Kind, is_type: bool) -> Option<NameProblem> {
    match (kind, is_type) {
        (Kind::Variable, false) | (Kind::Alias, true) | (Kind::Struct { .. }, true) => None,
        (_, true) => Some(NameProblem::NotAType),
        (_, false) => Some(NameProblem::NotAValue),
    }
}
