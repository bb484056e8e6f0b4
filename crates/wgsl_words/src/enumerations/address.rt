//! Address spaces and access modes.

ghost use Rattle.std.specs.Prelude.{◌≡◌, ◌≢◌, ◌↔◌, IsTrue};
ghost use Rattle.wgsl_words.specs.Texts.{default_access};

use std::fmt;
use std::fmt::Display;
use std::str::FromStr;

/// An address space (WGSL, "Address spaces").
#[derive(Clone, Copy, Debug, PartialEq, Eq)]
pub enum AddressSpace {
    /// `function`
    Function,
    /// `private`
    Private,
    /// `workgroup`
    Workgroup,
    /// `uniform`
    Uniform,
    /// `storage`
    Storage,
    /// `handle`, which no text names.
    Handle,
}

impl fmt::Display for AddressSpace {
    ghost use Rattle.std.specs.Prelude.{Some};
    ghost use Rattle.wgsl_words.specs.Texts.{address_space_text};

    ghost output = { λ word. Some (address_space_text word) };

    fn fmt<W: fmt::Write>(&self, f: &mut fmt::Formatter<W>) -> fmt::Result {
        f.write_str(match self {
            AddressSpace::Function => "function",
            AddressSpace::Private => "private",
            AddressSpace::Workgroup => "workgroup",
            AddressSpace::Uniform => "uniform",
            AddressSpace::Storage => "storage",
            AddressSpace::Handle => "handle",
        })
    }
}

impl FromStr for AddressSpace {
    ghost use Rattle.wgsl_words.specs.Texts.{ParsesExactly, address_space_spelled};

    type Err = ();

    ghost from_str_gives = { ParsesExactly address_space_spelled };

    fn from_str(text: &str) -> Result<AddressSpace, ()> {
        match text {
            "function" => Ok(AddressSpace::Function),
            "private" => Ok(AddressSpace::Private),
            "workgroup" => Ok(AddressSpace::Workgroup),
            "uniform" => Ok(AddressSpace::Uniform),
            "storage" => Ok(AddressSpace::Storage),
            _ => Err(()),
        }
    }
}

/// An access mode (WGSL, "Memory access mode").
#[derive(Clone, Copy, Debug, PartialEq, Eq)]
pub enum AccessMode {
    /// `read`
    Read,
    /// `write`
    Write,
    /// `read_write`
    ReadWrite,
}

impl fmt::Display for AccessMode {
    ghost use Rattle.std.specs.Prelude.{Some};
    ghost use Rattle.wgsl_words.specs.Texts.{access_mode_text};

    ghost output = { λ word. Some (access_mode_text word) };

    fn fmt<W: fmt::Write>(&self, f: &mut fmt::Formatter<W>) -> fmt::Result {
        f.write_str(match self {
            AccessMode::Read => "read",
            AccessMode::Write => "write",
            AccessMode::ReadWrite => "read_write",
        })
    }
}

impl FromStr for AccessMode {
    ghost use Rattle.wgsl_words.specs.Texts.{ParsesExactly, access_mode_spelled};

    type Err = ();

    ghost from_str_gives = { ParsesExactly access_mode_spelled };

    fn from_str(text: &str) -> Result<AccessMode, ()> {
        match text {
            "read" => Ok(AccessMode::Read),
            "write" => Ok(AccessMode::Write),
            "read_write" => Ok(AccessMode::ReadWrite),
            _ => Err(()),
        }
    }
}

impl AddressSpace {
    /// The access mode of a variable whose declaration names none (WGSL, "Address spaces").
    pub fn default_access_mode(&self) -> AccessMode
        ensures { result ≡ default_access self.now }
    {
        match self {
            AddressSpace::Function | AddressSpace::Private | AddressSpace::Workgroup =>
                AccessMode::ReadWrite,
            AddressSpace::Uniform | AddressSpace::Storage | AddressSpace::Handle =>
                AccessMode::Read,
        }
    }
}

impl AccessMode {
    /// Whether memory may be read through it.
    pub fn is_read(&self) -> bool
        ensures { IsTrue result ↔ (self.now ≢ AccessMode.Write) }
    {
        match self {
            AccessMode::Read | AccessMode::ReadWrite => true,
            AccessMode::Write => false,
        }
    }

    /// Whether memory may be written through it.
    pub fn is_write(&self) -> bool
        ensures { IsTrue result ↔ (self.now ≢ AccessMode.Read) }
    {
        match self {
            AccessMode::Write | AccessMode::ReadWrite => true,
            AccessMode::Read => false,
        }
    }
}

/// A predeclared word that stands for a choice and no value (WGSL, "Predeclared enumerants").
#[derive(Clone, Copy, Debug, PartialEq, Eq)]
pub enum Enumerant {
    AccessMode(AccessMode),
    AddressSpace(AddressSpace),
}

impl fmt::Display for Enumerant {
    ghost use Rattle.std.specs.Prelude.{Some};
    ghost use Rattle.wgsl_words.specs.Texts.{enumerant_text};

    ghost output = { λ word. Some (enumerant_text word) };

    fn fmt<W: fmt::Write>(&self, f: &mut fmt::Formatter<W>) -> fmt::Result {
        match self {
            Enumerant::AccessMode(mode) => mode.fmt(f),
            Enumerant::AddressSpace(space) => space.fmt(f),
        }
    }
}

impl FromStr for Enumerant {
    ghost use Rattle.wgsl_words.specs.Texts.{ParsesExactly, enumerant_spelled};

    type Err = ();

    ghost from_str_gives = { ParsesExactly enumerant_spelled };

    fn from_str(text: &str) -> Result<Enumerant, ()> {
        if let Ok(mode) = AccessMode::from_str(text) {
            return Ok(Enumerant::AccessMode(mode));
        }
        match AddressSpace::from_str(text) {
            Ok(space) => Ok(Enumerant::AddressSpace(space)),
            Err(()) => Err(()),
        }
    }
}
