//! The kinds of refusals, in groups of those that say the like.

/// A refusal that says no more than its kind.
#[derive(Clone, Copy, Debug)]
pub enum PlainFault {
    /// A negation that doesn't fit.
    NegOverflow,
    /// An override at the const stage.
    OverrideInConst,
    /// An `override` in a function.
    OverrideInFn,
    /// A `let` in a module.
    LetInMod,
    /// A declaration with neither a type nor an initializer.
    UntypedDecl,
    /// A resource without `@group` or `@binding`.
    MissingBindAttr,
    /// `@compute` without `@workgroup_size`.
    MissingWorkgroupSize,
    /// `++` of the largest value.
    IncrOverflow,
    /// `--` of the least value.
    DecrOverflow,
    /// `discard`, which no evaluation takes.
    DiscardInConst,
    /// More steps than the limit.
    StepLimit,
    /// `break`, `continue` or `return` out of `continuing`.
    FlowInContinuing,
    /// `break` or `continue` out of a function.
    FlowInFunction,
    /// `break`, `continue` or `return` out of a module.
    FlowInModule,
    /// A place that is no reference.
    NotRef,
    /// A `const_assert` that is false.
    ConstAssertFailure,
    /// A type that nests deeper than is taken.
    TypeTooDeep,
    /// A type or a value with more parts than is taken, or more of them than are taken at once.
    TooManyParts,
}

impl PlainFault {
    /// The word of the kind.
    pub fn kind(&self) -> &'static str {
        match self {
            PlainFault::NegOverflow => "NegOverflow",
            PlainFault::OverrideInConst => "OverrideInConst",
            PlainFault::OverrideInFn => "OverrideInFn",
            PlainFault::LetInMod => "LetInMod",
            PlainFault::UntypedDecl => "UntypedDecl",
            PlainFault::MissingBindAttr => "MissingBindAttr",
            PlainFault::MissingWorkgroupSize => "MissingWorkgroupSize",
            PlainFault::IncrOverflow => "IncrOverflow",
            PlainFault::DecrOverflow => "DecrOverflow",
            PlainFault::DiscardInConst => "DiscardInConst",
            PlainFault::StepLimit => "StepLimit",
            PlainFault::FlowInContinuing => "FlowInContinuing",
            PlainFault::FlowInFunction => "FlowInFunction",
            PlainFault::FlowInModule => "FlowInModule",
            PlainFault::NotRef => "NotRef",
            PlainFault::ConstAssertFailure => "ConstAssertFailure",
            PlainFault::TypeTooDeep => "TypeTooDeep",
            PlainFault::TooManyParts => "TooManyParts",
        }
    }
}

/// A refusal that concerns a name.
#[derive(Clone, Copy, Debug)]
pub enum NameFault {
    /// A name that stands for no type.
    NotType,
    /// A structure that isn't declared.
    UnknownStruct,
    /// A name that is no list of components.
    Swizzle,
    /// A callee that isn't declared.
    UnknownFunction,
    /// A callee that is no function, structure or type.
    NotCallable,
    /// A function that isn't const, called at the const stage.
    NotConst,
    /// A call without a value where a value is asked for.
    Void,
    /// A value that has to be used.
    MustUse,
    /// A function of no shader stage.
    NotEntrypoint,
    /// A parameter of an entry point without `@builtin` and `@location`.
    InvalidEntrypointParam,
    /// A name that stands for no value here.
    UnknownDecl,
    /// A `const` without an initializer.
    UninitConst,
    /// A `let` without an initializer.
    UninitLet,
    /// An `override` without a value.
    UninitOverride,
    /// A name that is declared twice.
    DuplicateDecl,
    /// A declaration that needs itself.
    CyclicDecl,
}

impl NameFault {
    /// The word of the kind.
    pub fn kind(&self) -> &'static str {
        match self {
            NameFault::NotType => "NotType",
            NameFault::UnknownStruct => "UnknownStruct",
            NameFault::Swizzle => "Swizzle",
            NameFault::UnknownFunction => "UnknownFunction",
            NameFault::NotCallable => "NotCallable",
            NameFault::NotConst => "NotConst",
            NameFault::Void => "Void",
            NameFault::MustUse => "MustUse",
            NameFault::NotEntrypoint => "NotEntrypoint",
            NameFault::InvalidEntrypointParam => "InvalidEntrypointParam",
            NameFault::UnknownDecl => "UnknownDecl",
            NameFault::UninitConst => "UninitConst",
            NameFault::UninitLet => "UninitLet",
            NameFault::UninitOverride => "UninitOverride",
            NameFault::DuplicateDecl => "DuplicateDecl",
            NameFault::CyclicDecl => "CyclicDecl",
        }
    }
}

/// A refusal of a type.
#[derive(Clone, Copy, Debug)]
pub enum TypeFault {
    /// An index that is no integer.
    Index,
    /// `++` of another type than `i32` and `u32`.
    IncrType,
    /// `--` of another type than `i32` and `u32`.
    DecrType,
}

impl TypeFault {
    /// The word of the kind.
    pub fn kind(&self) -> &'static str {
        match self {
            TypeFault::Index => "Index",
            TypeFault::IncrType => "IncrType",
            TypeFault::DecrType => "DecrType",
        }
    }
}

/// A refusal of a type where another stands: the given one, then the one that was asked for.
#[derive(Clone, Copy, Debug)]
pub enum PairFault {
    /// A value of another type.
    WrongType,
    /// A reference to another type.
    RefType,
    /// A value that doesn't convert to its place.
    AssignType,
}

impl PairFault {
    /// The word of the kind.
    pub fn kind(&self) -> &'static str {
        match self {
            PairFault::WrongType => "WrongType",
            PairFault::RefType => "RefType",
            PairFault::AssignType => "AssignType",
        }
    }
}

/// A refusal of what a function of a name returned, with the type that it returns.
#[derive(Clone, Copy, Debug)]
pub enum ReturnFault {
    /// A function that returned nothing.
    NoReturn,
    /// A function that returned a value and has no type.
    UnexpectedReturn,
}

impl ReturnFault {
    /// The word of the kind.
    pub fn kind(&self) -> &'static str {
        match self {
            ReturnFault::NoReturn => "NoReturn",
            ReturnFault::UnexpectedReturn => "UnexpectedReturn",
        }
    }
}

/// A refusal of a built-in value as an input or an output.
#[derive(Clone, Copy, Debug)]
pub enum BuiltinFault {
    /// A built-in output among the inputs.
    OutputBuiltin,
    /// A built-in input among the outputs.
    InputBuiltin,
}

impl BuiltinFault {
    /// The word of the kind.
    pub fn kind(&self) -> &'static str {
        match self {
            BuiltinFault::OutputBuiltin => "OutputBuiltin",
            BuiltinFault::InputBuiltin => "InputBuiltin",
        }
    }
}

/// A refusal of a binding, by its group and its number.
#[derive(Clone, Copy, Debug)]
pub enum ResourceFault {
    /// No binding of these numbers.
    MissingResource,
    /// A binding in another address space.
    AddressSpace,
    /// A binding with another access mode.
    AccessMode,
}

impl ResourceFault {
    /// The word of the kind.
    pub fn kind(&self) -> &'static str {
        match self {
            ResourceFault::MissingResource => "MissingResource",
            ResourceFault::AddressSpace => "AddressSpace",
            ResourceFault::AccessMode => "AccessMode",
        }
    }
}
