//! The names of attributes.

ghost use Rattle.std.specs.Prelude.{◌≡◌};
ghost use Rattle.wgsl_attribute_words.specs.Words.{word_named};

use std::str::FromStr;

/// The name of an attribute that is not custom.
#[derive(Clone, Copy)]
pub enum AttributeWord {
    /// `align`
    Align,
    /// `binding`
    Binding,
    /// `blend_src`
    BlendSrc,
    /// `builtin`
    Builtin,
    /// `const`
    Const,
    /// `diagnostic`
    Diagnostic,
    /// `group`
    Group,
    /// `id`
    Id,
    /// `interpolate`
    Interpolate,
    /// `invariant`
    Invariant,
    /// `location`
    Location,
    /// `must_use`
    MustUse,
    /// `size`
    Size,
    /// `workgroup_size`
    WorkgroupSize,
    /// `vertex`
    Vertex,
    /// `fragment`
    Fragment,
    /// `compute`
    Compute,
    /// `publish`
    Publish,
    /// `if`
    If,
    /// `elif`
    Elif,
    /// `else`
    Else,
}

impl FromStr for AttributeWord {
    ghost use Rattle.wgsl_words.specs.Texts.{ParsesExactly};
    ghost use Rattle.wgsl_attribute_words.specs.Words.{word_spelled};

    type Err = ();

    ghost from_str_gives = { ParsesExactly word_spelled };

    fn from_str(text: &str) -> Result<AttributeWord, ()> {
        match text {
            "align" => Ok(AttributeWord::Align),
            "binding" => Ok(AttributeWord::Binding),
            "blend_src" => Ok(AttributeWord::BlendSrc),
            "builtin" => Ok(AttributeWord::Builtin),
            "const" => Ok(AttributeWord::Const),
            "diagnostic" => Ok(AttributeWord::Diagnostic),
            "group" => Ok(AttributeWord::Group),
            "id" => Ok(AttributeWord::Id),
            "interpolate" => Ok(AttributeWord::Interpolate),
            "invariant" => Ok(AttributeWord::Invariant),
            "location" => Ok(AttributeWord::Location),
            "must_use" => Ok(AttributeWord::MustUse),
            "size" => Ok(AttributeWord::Size),
            "workgroup_size" => Ok(AttributeWord::WorkgroupSize),
            "vertex" => Ok(AttributeWord::Vertex),
            "fragment" => Ok(AttributeWord::Fragment),
            "compute" => Ok(AttributeWord::Compute),
            "publish" => Ok(AttributeWord::Publish),
            "if" => Ok(AttributeWord::If),
            "elif" => Ok(AttributeWord::Elif),
            "else" => Ok(AttributeWord::Else),
            _ => Err(()),
        }
    }
}

/// The name of an attribute that a word is, if it is one.
pub fn word_named(word: &str) -> Option<AttributeWord>
    ensures { result ≡ word_named word.now }
{
    match AttributeWord::from_str(word) {
        Ok(value) => Some(value),
        Err(()) => None,
    }
}
