//! A text that contracts see as its bytes.

ghost use Rattle.std.specs.Prelude.{◌≡◌, [], ◌++◌, length, IfOk, IfSome, OnOk, OnErr, string_bytes, encode_utf8};
ghost use Rattle.wgsl_base.specs.Texts.{storage_bytes};

use crate::items::copies::CloneIn;
use arrayvec::ArrayString;
use std::alloc::{AllocError, Global};
use std::fmt;
use std::marker::Model;

/// Where a text stands: in place, with the memory in which it may grow, or on the heap.
#[derive(Debug, Drop)]
enum Storage {
    Short(ArrayString<16>, Global),
    Long(String),
}

/// A text, as UTF-8. Up to 16 bytes stand in place and need no memory.
#[derive(Debug, Drop)]
pub struct Text {
    inner: Storage,
}

impl Model for Text {
    ghost use Rattle.std.specs.Prelude.{List, ℕ};
    ghost use Rattle.wgsl_base.specs.Texts.{storage_bytes};

    ghost Value = { List ℕ };

    ghost view = { λ t. storage_bytes t.inner };
}

impl Text {
    /// The empty text. It needs no memory.
    pub fn new(alloc: Global) -> Text
        ensures { result ≡ [] }
    {
        Text {
            inner: Storage::Short(ArrayString::new(), alloc),
        }
    }

    pub fn from_str(alloc: Global, text: &str) -> Result<Text, AllocError>
        ensures { IfOk result (λ t. t ≡ text.now) }
    {
        let inner = match ArrayString::from(text) {
            Ok(short) => Storage::Short(short, alloc),
            Err(_) => Storage::Long(String::from_str(alloc, text)?),
        };
        Ok(Text { inner })
    }

    /// The text of a `String`. It needs no memory.
    pub fn from_string(inner: String) -> Text
        ensures { result ≡ string_bytes inner }
    {
        Text {
            inner: Storage::Long(inner),
        }
    }

    pub fn as_str(&self) -> &str
        ensures { result.now ≡ self.now }
    {
        match &self.inner {
            Storage::Short(short, _) => short.as_str(),
            Storage::Long(long) => long.as_str(),
        }
    }

    /// How many bytes it has.
    pub fn len(&self) -> usize
        ensures { result ≡ length self.now }
    {
        self.as_str().len()
    }

    /// Adds a text at the end. Where memory is refused this one is unchanged.
    pub fn push_str(&mut self, more: &str) -> Result<(), AllocError>
        ensures ok { OnOk result (self.new ≡ self.old ++ more.now) }
        ensures err { OnErr result (self.new ≡ self.old) }
    {
        let grown = match &mut self.inner {
            Storage::Long(long) => return long.push_str(more),
            Storage::Short(short, alloc) => match short.try_push_str(more) {
                Ok(()) => return Ok(()),
                Err(_) => joined(*alloc, short.as_str(), more)?,
            },
        };
        self.inner = Storage::Long(grown);
        Ok(())
    }

    /// Adds a character at the end. Where memory is refused this one is unchanged.
    pub fn push(&mut self, character: char) -> Result<(), AllocError>
        ensures ok { OnOk result (self.new ≡ self.old ++ encode_utf8 character) }
        ensures err { OnErr result (self.new ≡ self.old) }
    {
        let grown = match &mut self.inner {
            Storage::Long(long) => return long.push(character),
            Storage::Short(short, alloc) => match short.try_push(character) {
                Ok(()) => return Ok(()),
                Err(_) => extended(*alloc, short.as_str(), character)?,
            },
        };
        self.inner = Storage::Long(grown);
        Ok(())
    }
}

/// Two texts, one behind the other, on the heap.
fn joined(alloc: Global, text: &str, more: &str) -> Result<String, AllocError>
    ensures { IfOk result (λ joined. string_bytes joined ≡ text.now ++ more.now) }
{
    let mut joined = String::from_str(alloc, text)?;
    joined.push_str(more)?;
    Ok(joined)
}

/// A text and a character behind it, on the heap.
fn extended(alloc: Global, text: &str, character: char) -> Result<String, AllocError>
    ensures { IfOk result (λ extended. string_bytes extended ≡ text.now ++ encode_utf8 character) }
{
    let mut extended = String::from_str(alloc, text)?;
    extended.push(character)?;
    Ok(extended)
}

impl CloneIn for Text {
    fn clone_in(&self, alloc: Global) -> Result<Text, AllocError> {
        Text::from_str(alloc, self.as_str())
    }
}

impl fmt::Display for Text {
    ghost use Rattle.std.specs.Prelude.{Some};

    ghost output = { λ t. Some t };

    fn fmt<W: fmt::Write>(&self, f: &mut fmt::Formatter<W>) -> fmt::Result {
        f.write_str(self.as_str())
    }
}

impl PartialEq for Text {
    ghost use Rattle.std.specs.Str.{bytes_eq};
    ghost use Rattle.std.specs.Cmp as Cmp;
    ghost use Rattle.std.specs.Cmp.Lexicographic.{nat_list_eq_equiv};

    ghost eq = { bytes_eq };

    ghost laws = { Cmp.partial_equiv_from_equiv nat_list_eq_equiv };

    fn eq(&self, other: &Text) -> bool {
        self.as_str() == other.as_str()
    }
}

impl Eq for Text {
    ghost use Rattle.std.specs.Cmp.Lexicographic.{nat_list_eq_equiv};

    ghost laws = { nat_list_eq_equiv };
}
