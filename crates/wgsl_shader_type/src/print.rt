//! Types as text.

ghost use Rattle.std.specs.Prelude.{◌++◌, codes};
ghost use Rattle.std.specs.Fmt.{WritesOnOk, decimal};
ghost use Rattle.wgsl_words.specs.Texts.{access_mode_text, address_space_text};
ghost use Rattle.wgsl_shader_type.specs.Text.{type_text, count_text, pointer_access_text};

use crate::tree::ShaderType;
use std::fmt;
use std::fmt::Display;
use wgsl_words::{AccessMode, AddressSpace};

impl fmt::Display for ShaderType {
    ghost use Rattle.std.specs.Prelude.{Some};

    ghost output = { λ ty. Some (type_text ty) };

    #[cycle(text)]
    fn fmt<W: fmt::Write>(&self, f: &mut fmt::Formatter<W>) -> fmt::Result {
        match self {
            ShaderType::Bool => f.write_str("bool"),
            ShaderType::AbstractInt => f.write_str("AbstractInt"),
            ShaderType::AbstractFloat => f.write_str("AbstractFloat"),
            ShaderType::I32 => f.write_str("i32"),
            ShaderType::U32 => f.write_str("u32"),
            ShaderType::F32 => f.write_str("f32"),
            ShaderType::F16 => f.write_str("f16"),
            ShaderType::Struct(x) => f.write_str(x.get().name.as_str()),
            ShaderType::Array(element, count) => write_array(f, element.get(), *count),
            ShaderType::Vec(count, component) => write_vector(f, *count, component.get()),
            ShaderType::Ptr(space, stored, access) => write_pointer(
                f,
                *space,
                stored.get(),
                *access,
            ),
            ShaderType::Ref(space, stored, access) => write_reference(
                f,
                *space,
                stored.get(),
                *access,
            ),
        }
    }
}

/// Writes an access mode as the last of a list.
fn write_access<W: fmt::Write>(f: &mut fmt::Formatter<W>, access: AccessMode) -> fmt::Result
    ensures { WritesOnOk W.write_str_gives f.old result (codes ", " ++ access_mode_text access) f.new }
{
    f.write_str(", ")?;
    access.fmt(f)
}

/// Writes a number of elements as the last of a list, where it is fixed.
fn write_count<W: fmt::Write>(f: &mut fmt::Formatter<W>, count: Option<usize>) -> fmt::Result
    ensures { WritesOnOk W.write_str_gives f.old result (count_text count) f.new }
{
    match count {
        None => Ok(()),
        Some(count) => {
            f.write_str(", ")?;
            count.fmt(f)
        }
    }
}

/// Writes the access mode of a pointer, in the storage space alone.
fn write_pointer_access<W: fmt::Write>(
    f: &mut fmt::Formatter<W>,
    space: AddressSpace,
    access: AccessMode,
) -> fmt::Result
    ensures { WritesOnOk W.write_str_gives f.old result (pointer_access_text space access) f.new }
{
    match space {
        AddressSpace::Storage => write_access(f, access),
        _ => Ok(()),
    }
}

/// Writes how a pointer or a reference begins, up to the type of what it leads to.
fn write_space<W: fmt::Write>(
    f: &mut fmt::Formatter<W>,
    start: &str,
    space: AddressSpace,
) -> fmt::Result
    ensures { WritesOnOk W.write_str_gives f.old result (start.now ++ address_space_text space ++ codes ", ") f.new }
{
    f.write_str(start)?;
    space.fmt(f)?;
    f.write_str(", ")
}

#[cycle(text)]
fn write_array<W: fmt::Write>(
    f: &mut fmt::Formatter<W>,
    element: &ShaderType,
    count: Option<usize>,
) -> fmt::Result
    ensures { WritesOnOk W.write_str_gives f.old result (codes "array<" ++ type_text element.now ++ count_text count ++ codes ">") f.new }
{
    f.write_str("array<")?;
    element.fmt(f)?;
    write_count(f, count)?;
    f.write_str(">")
}

#[cycle(text)]
fn write_vector<W: fmt::Write>(
    f: &mut fmt::Formatter<W>,
    count: u8,
    component: &ShaderType,
) -> fmt::Result
    ensures { WritesOnOk W.write_str_gives f.old result (codes "vec" ++ decimal count ++ codes "<" ++ type_text component.now ++ codes ">") f.new }
{
    f.write_str("vec")?;
    count.fmt(f)?;
    f.write_str("<")?;
    component.fmt(f)?;
    f.write_str(">")
}

#[cycle(text)]
fn write_pointer<W: fmt::Write>(
    f: &mut fmt::Formatter<W>,
    space: AddressSpace,
    stored: &ShaderType,
    access: AccessMode,
) -> fmt::Result
    ensures { WritesOnOk W.write_str_gives f.old result (codes "ptr<" ++ address_space_text space ++ codes ", " ++ type_text stored.now ++ pointer_access_text space access ++ codes ">") f.new }
{
    write_space(f, "ptr<", space)?;
    stored.fmt(f)?;
    write_pointer_access(f, space, access)?;
    f.write_str(">")
}

#[cycle(text)]
fn write_reference<W: fmt::Write>(
    f: &mut fmt::Formatter<W>,
    space: AddressSpace,
    stored: &ShaderType,
    access: AccessMode,
) -> fmt::Result
    ensures { WritesOnOk W.write_str_gives f.old result (codes "ref<" ++ address_space_text space ++ codes ", " ++ type_text stored.now ++ codes ", " ++ access_mode_text access ++ codes ">") f.new }
{
    write_space(f, "ref<", space)?;
    stored.fmt(f)?;
    write_access(f, access)?;
    f.write_str(">")
}
