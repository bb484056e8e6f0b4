//! How types lie in memory: alignments and sizes, in bytes.

ghost use Rattle.std.specs.Prelude.{◌≡◌, ◌<◌, Some, None, MatchOption, IfSome};
ghost use Rattle.wgsl_shader_type.specs.LayoutOf as plain;
ghost use Rattle.wgsl_shader_type.specs.LayoutOf.{IsSmall};
ghost use Rattle.wgsl_shader_type.specs.Layout.{IsAlignment, HasNoAlignment, IsSize, HasNoSize};

use crate::tree::{ShaderType, StructMemberType};

/// The size of a scalar that has one.
fn scalar_size(ty: &ShaderType) -> Option<u32>
    ensures value { result ≡ plain.scalar_size ty.now }
    ensures small { IfSome result IsSmall }
{
    match ty {
        ShaderType::Bool | ShaderType::I32 | ShaderType::U32 | ShaderType::F32 => Some(4),
        ShaderType::F16 => Some(2),
        _ => None,
    }
}

/// As how many scalars a vector is aligned.
fn vector_scalars(components: u8) -> Option<u32>
    ensures { result ≡ plain.vector_scalars components }
{
    match components {
        2 => Some(2),
        3 => Some(4),
        4 => Some(4),
        _ => None,
    }
}

/// The least multiple of an alignment at or past a place, where it fits.
fn rounded_up(align: u32, place: u32) -> Option<u32>
    requires { 0 < align }
    ensures { result ≡ plain.rounded align place }
{
    let wide = u64::from(align);
    let steps = (u64::from(place) + wide - 1) / wide;
    u32::try_from(steps * wide).ok()
}

/// The alignment of a type, variant by variant.
#[cycle(align)]
#[tactic(auto, using(crate::proofs::LayoutSteps::aligns))]
fn alignment(ty: &ShaderType) -> Option<u32>
    ensures value { result ≡ plain.align_of ty.now }
    ensures positive { IfSome result (λ align. 0 < align) }
{
    match ty {
        ShaderType::Bool | ShaderType::I32 | ShaderType::U32 | ShaderType::F32 => Some(4),
        ShaderType::F16 => Some(2),
        ShaderType::Array(element, _) => alignment(element.get()),
        ShaderType::Vec(components, component) => vector_align(
            scalar_size(component.get()),
            *components,
        ),
        ShaderType::Struct(x) => {
            let largest = largest_align(x.get().members.as_slice())?;
            if largest > 0 { Some(largest) } else { None }
        }
        ShaderType::AbstractInt
        | ShaderType::AbstractFloat
        | ShaderType::Ptr(_, _, _)
        | ShaderType::Ref(_, _, _) => None,
    }
}

fn vector_align(scalar: Option<u32>, components: u8) -> Option<u32>
    requires { IfSome scalar IsSmall }
    ensures value { result ≡ plain.vector_align scalar components }
    ensures positive { IfSome result (λ align. 0 < align) }
{
    let size = scalar?;
    let scalars = vector_scalars(components)?;
    Some(scalars * size)
}

/// The largest alignment of the members, or 0 where there are none.
#[cycle(align)]
fn largest_align(members: &[StructMemberType]) -> Option<u32>
    ensures { result ≡ plain.largest_after plain.align_of 0 members.now }
{
    let mut largest = 0;
    for member in members {
        largest = largest.max(member_align(member)?);
    }
    Some(largest)
}

/// The alignment that a member's attribute gives, or else its type's.
#[cycle(align)]
fn member_align(member: &StructMemberType) -> Option<u32>
    ensures value { result ≡ plain.own_align plain.align_of member.now }
    ensures positive { IfSome result (λ align. 0 < align) }
{
    let natural = alignment(&member.ty)?;
    let own = member.align.unwrap_or(natural);
    if own > 0 { Some(own) } else { None }
}

/// The size of a type, where an array without a length counts as having so many elements.
#[cycle(size)]
#[tactic(auto, using(crate::proofs::LayoutSteps::sizes))]
fn size_counting(ty: &ShaderType, unsized_count: Option<usize>) -> Option<u32>
    ensures { result ≡ plain.size_of unsized_count ty.now }
{
    match ty {
        ShaderType::Bool | ShaderType::I32 | ShaderType::U32 | ShaderType::F32 => Some(4),
        ShaderType::F16 => Some(2),
        ShaderType::Array(element, count) => {
            let align = alignment(element.get());
            let size = size_counting(element.get(), unsized_count);
            array_size(align, size, count.or(unsized_count))
        }
        ShaderType::Vec(components, component) => vector_size(
            scalar_size(component.get()),
            *components,
        ),
        ShaderType::Struct(x) => {
            let align = alignment(ty)?;
            let end = members_end(x.get().members.as_slice(), unsized_count)?;
            rounded_up(align, end)
        }
        ShaderType::AbstractInt
        | ShaderType::AbstractFloat
        | ShaderType::Ptr(_, _, _)
        | ShaderType::Ref(_, _, _) => None,
    }
}

fn vector_size(scalar: Option<u32>, components: u8) -> Option<u32>
    requires { IfSome scalar IsSmall }
    ensures { result ≡ plain.vector_size scalar components }
{
    let size = scalar?;
    vector_scalars(components)?;
    Some(u32::from(components) * size)
}

/// The size of so many elements at their stride.
fn array_size(align: Option<u32>, size: Option<u32>, count: Option<usize>) -> Option<u32>
    requires { IfSome align (λ align. 0 < align) }
    ensures { result ≡ plain.array_size align size count }
{
    let stride = rounded_up(align?, size?)?;
    let total = (count? as u64).checked_mul(u64::from(stride))?;
    u32::try_from(total).ok()
}

/// Where the last of the members ends, each placed in order at a multiple of its alignment.
#[cycle(size)]
fn members_end(members: &[StructMemberType], unsized_count: Option<usize>) -> Option<u32>
    ensures { result ≡ plain.end_after plain.align_of (plain.size_of unsized_count) 0 members.now }
{
    let mut end = 0;
    for member in members {
        end = member_end(member, end, unsized_count)?;
    }
    Some(end)
}

#[cycle(size)]
fn member_end(member: &StructMemberType, from: u32, unsized_count: Option<usize>) -> Option<u32>
    ensures { result ≡ plain.member_end plain.align_of (plain.size_of unsized_count) from member.now }
{
    let align = member_align(member)?;
    let natural = size_counting(&member.ty, unsized_count)?;
    let at = rounded_up(align, from)?;
    at.checked_add(member.size.unwrap_or(natural))
}

impl ShaderType {
    /// The alignment, in bytes, or nothing where the type has none: abstract types, pointers, references and what holds one (WGSL, "Alignment and Size").
    #[tactic(auto, using(crate::proofs::Layouts::alignment_is))]
    pub fn align_of(&self) -> Option<u32>
        ensures { MatchOption result (HasNoAlignment self.now) (IsAlignment self.now) }
    {
        alignment(self)
    }

    /// The size, in bytes, or nothing where the type has none within a `u32`.
    #[tactic(auto, using(crate::proofs::Layouts::size_found))]
    pub fn size_of(&self) -> Option<u32>
        ensures { MatchOption result (HasNoSize None self.now) (IsSize None self.now) }
    {
        size_counting(self, None)
    }

    /// The size, in bytes, where an array without a length counts as having one element.
    #[tactic(auto, using(crate::proofs::Layouts::size_found))]
    pub fn min_size_of(&self) -> Option<u32>
        ensures { MatchOption result (HasNoSize (Some 1) self.now) (IsSize (Some 1) self.now) }
    {
        size_counting(self, Some(1))
    }
}
