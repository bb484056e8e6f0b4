//! Implicit conversions between types.

ghost use Rattle.std.specs.Prelude.{◌≡◌, ◌↔◌, [], ◌∷◌, IsTrue, MatchOption};
ghost use Rattle.std.specs.Option.{option_copied};
ghost use Rattle.wgsl_shader_type.specs.Rank.{rank_of, converts, common_of};
ghost use Rattle.wgsl_shader_type.specs.Conversion.{Converts, IsRank, IsCommonType, HasNoCommonType, IsOnlyCandidate};

use crate::tree::ShaderType;

/// The rank, variant by variant.
#[tactic(auto, using(crate::proofs::Ranks::rank_out, crate::proofs::Ranks::rank_of_arrays, crate::proofs::Ranks::rank_of_vectors))]
fn rank_between(from: &ShaderType, to: &ShaderType) -> Option<u32>
    ensures { result ≡ rank_of from.now to.now }
{
    match from {
        ShaderType::AbstractInt => match to {
            ShaderType::AbstractInt => Some(0),
            ShaderType::I32 => Some(3),
            ShaderType::U32 => Some(4),
            ShaderType::AbstractFloat => Some(5),
            ShaderType::F32 => Some(6),
            ShaderType::F16 => Some(7),
            _ => None,
        },
        ShaderType::AbstractFloat => match to {
            ShaderType::AbstractFloat => Some(0),
            ShaderType::F32 => Some(1),
            ShaderType::F16 => Some(2),
            _ => None,
        },
        ShaderType::Array(element, count) => match to {
            ShaderType::Array(element_to, count_to) => {
                if *count == *count_to {
                    rank_between(element.get(), element_to.get())
                } else {
                    None
                }
            }
            _ => None,
        },
        ShaderType::Vec(count, component) => match to {
            ShaderType::Vec(count_to, component_to) => {
                if *count == *count_to {
                    rank_between(component.get(), component_to.get())
                } else {
                    None
                }
            }
            _ => None,
        },
        _ => { if *from == *to { Some(0) } else { None } }
    }
}

/// The rank of the implicit conversion of one type to another, or nothing where there is none (WGSL, "Conversion rank").
#[tactic(auto, using(crate::proofs::Ranks::rank_is_least))]
pub fn conversion_rank(from: &ShaderType, to: &ShaderType) -> Option<u32>
    ensures least { MatchOption result (¬ Converts from.now to.now) (IsRank from.now to.now) }
    ensures value { result ≡ rank_of from.now to.now }
{
    rank_between(from, to)
}

impl ShaderType {
    /// Whether it converts to another type implicitly.
    pub fn is_convertible_to(&self, other: &ShaderType) -> bool
        ensures by_path { IsTrue result ↔ Converts self.now other.now }
        ensures value { result ≡ converts self.now other.now }
    {
        conversion_rank(self, other).is_some()
    }
}

/// The common type of two types: the one to which the other converts.
#[tactic(auto, using(crate::proofs::Commons::common_first, crate::proofs::Commons::common_second))]
pub fn convert_ty<'a>(first: &'a ShaderType, second: &'a ShaderType) -> Option<&'a ShaderType>
    ensures common { MatchOption result
        (HasNoCommonType (first.now ∷ second.now ∷ []))
        (λ common. IsCommonType (first.now ∷ second.now ∷ []) common.now) }
    ensures value { option_copied result ≡ common_of first.now second.now }
{
    if first.is_convertible_to(second) {
        Some(second)
    } else if second.is_convertible_to(first) {
        Some(first)
    } else {
        None
    }
}

/// The common type of a list: its member to which every member converts.
pub fn convert_all_ty(types: &[ShaderType]) -> Option<&ShaderType>
    ensures { MatchOption result (HasNoCommonType types.now) (λ common. IsCommonType types.now common.now) }
{
    let candidate = last_reached(types)?;
    for ty in types {
        if !ty.is_convertible_to(candidate) {
            return None;
        }
    }
    Some(candidate)
}

/// A member of the list, which is its common type where there is one.
fn last_reached(types: &[ShaderType]) -> Option<&ShaderType>
    ensures { MatchOption result (types.now ≡ []) (λ reached. IsOnlyCandidate types.now reached.now) }
{
    let mut reached = types.first()?;
    for ty in types {
        if !ty.is_convertible_to(reached) {
            reached = ty;
        }
    }
    Some(reached)
}
