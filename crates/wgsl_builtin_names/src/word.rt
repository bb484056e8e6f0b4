//! Functions, types, type generators and enumerants, by their numbers.

use crate::counts::Counts;
use crate::functions::FUNCTIONS;
use crate::types::TYPES;

/// What a value of an enumeration chooses.
#[derive(Clone, Copy, PartialEq, Eq)]
pub enum Choice {
    AddressSpace,
    AccessMode,
    TexelFormat,
}

/// The type of what a function returns, as far as that matters for members.
#[derive(Clone, Copy)]
pub enum Gives {
    /// No value, or one of a type that is not told.
    Nothing,
    /// The type of its first argument.
    Same,
    /// The type of its arguments, which are alike. A third one may be a scalar.
    Alike,
    /// A scalar of two arguments that are alike.
    Product,
    Scalar,
    /// A vector of so many components.
    Vector(u32),
    /// The matrix that is handed in, with columns and rows exchanged.
    Transposed,
    /// What the pointer that is handed in leads to.
    Pointee,
    /// The type that is its template argument.
    Template,
    /// A component of a depth texture; else a vector of four.
    Texel,
    /// A scalar for a texture of one dimension; else a vector.
    Dimensions,
    /// A structure of WGSL's own.
    Parts,
}

/// What kind of thing a name of WGSL's own is. `is_generator` is said of those that take template arguments.
#[derive(Clone, Copy)]
pub enum WordKind {
    Function(Counts, Gives),
    Scalar,
    Vector {
        size: u32,
        is_generator: bool,
    },
    Matrix {
        columns: u32,
        rows: u32,
        is_generator: bool,
    },
    Array,
    Pointer,
    Atomic,
    Sampler,
    Texture {
        dimensions: u32,
        is_depth: bool,
        is_generator: bool,
    },
    /// A texture generator that takes a texel format and an access mode.
    StorageTexture(u32),
    /// A type of an extension.
    Other,
    Enumerant(Choice),
}

/// A name of WGSL's own, and what it is.
#[derive(Clone, Copy)]
pub struct Word {
    pub name: &'static str,
    pub kind: WordKind,
}

/// How many words there are. Their numbers are those below it.
pub const WORD_COUNT: usize = TYPE_COUNT + FUNCTION_COUNT;

pub(crate) const TYPE_COUNT: usize = 145;

pub(crate) const FUNCTION_COUNT: usize = 166;

/// The word of this number.
pub fn word_at(number: usize) -> Option<Word> {
    match number.checked_sub(TYPE_COUNT) {
        None => TYPES.get(number).copied(),
        Some(at) => {
            let (name, counts, gives) = FUNCTIONS.get(at).copied()?;
            Some(Word {
                name,
                kind: WordKind::Function(counts, gives),
            })
        }
    }
}

/// How many arguments a function of WGSL's own takes, where there is one of this name.
pub fn function_counts(name: &str) -> Option<Counts> {
    for (function, counts, _) in &FUNCTIONS[..] {
        if *function == name {
            return Some(*counts);
        }
    }
    None
}
