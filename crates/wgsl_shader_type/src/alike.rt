//! Equality of types.

ghost use Rattle.std.specs.Prelude.{◌≡◌};
ghost use Rattle.std.specs.Cmp.Lexicographic.{pointwise};
ghost use Rattle.wgsl_shader_type.specs.Alike.{same, same_struct, same_member};

use crate::tree::{ShaderType, StructMemberType, StructType};

/// Whether two types are equal.
#[cycle(alike)]
#[tactic(auto, using(crate::specs::Equality::same_of_struct))]
fn are_alike(a: &ShaderType, b: &ShaderType) -> bool
    ensures { result ≡ same a.now b.now }
{
    match a {
        ShaderType::Bool => matches!(b, ShaderType::Bool),
        ShaderType::AbstractInt => matches!(b, ShaderType::AbstractInt),
        ShaderType::AbstractFloat => matches!(b, ShaderType::AbstractFloat),
        ShaderType::I32 => matches!(b, ShaderType::I32),
        ShaderType::U32 => matches!(b, ShaderType::U32),
        ShaderType::F32 => matches!(b, ShaderType::F32),
        ShaderType::F16 => matches!(b, ShaderType::F16),
        ShaderType::Struct(x) => match b {
            ShaderType::Struct(y) => are_structs_alike(x.get(), y.get()),
            _ => false,
        },
        ShaderType::Array(x, n) => match b {
            ShaderType::Array(y, m) => *n == *m && are_alike(x.get(), y.get()),
            _ => false,
        },
        ShaderType::Vec(n, x) => match b {
            ShaderType::Vec(m, y) => *n == *m && are_alike(x.get(), y.get()),
            _ => false,
        },
        ShaderType::Ptr(space, x, access) => match b {
            ShaderType::Ptr(space_b, y, access_b) => {
                *space == *space_b && *access == *access_b && are_alike(x.get(), y.get())
            }
            _ => false,
        },
        ShaderType::Ref(space, x, access) => match b {
            ShaderType::Ref(space_b, y, access_b) => {
                *space == *space_b && *access == *access_b && are_alike(x.get(), y.get())
            }
            _ => false,
        },
    }
}

#[cycle(alike)]
fn are_structs_alike(a: &StructType, b: &StructType) -> bool
    ensures { result ≡ same_struct same a.now b.now }
{
    a.name == b.name && are_members_alike(a.members.as_slice(), b.members.as_slice())
}

#[cycle(alike)]
fn are_members_alike(a: &[StructMemberType], b: &[StructMemberType]) -> bool
    ensures { result ≡ pointwise (same_member same) a.now b.now }
{
    if a.len() != b.len() {
        return false;
    }
    for i in 0..a.len() {
        if !is_member_alike(&a[i], &b[i]) {
            return false;
        }
    }
    true
}

#[cycle(alike)]
fn is_member_alike(a: &StructMemberType, b: &StructMemberType) -> bool
    ensures { result ≡ same_member same a.now b.now }
{
    a.name == b.name && are_alike(&a.ty, &b.ty) && a.size == b.size && a.align == b.align
}

impl PartialEq for ShaderType {
    ghost use Rattle.std.specs.Cmp as Cmp;
    ghost use Rattle.wgsl_shader_type.specs.Equality.{same_equiv};

    ghost eq = { same };

    ghost laws = { Cmp.partial_equiv_from_equiv same_equiv };

    fn eq(&self, other: &ShaderType) -> bool {
        are_alike(self, other)
    }
}

impl Eq for ShaderType {
    ghost use Rattle.wgsl_shader_type.specs.Equality.{same_equiv};

    ghost laws = { same_equiv };
}
