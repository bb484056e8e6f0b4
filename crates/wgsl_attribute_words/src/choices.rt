//! The values of fixed choice that words name, as functions of the word.

ghost use Rattle.std.specs.Prelude.{◌≡◌};
ghost use Rattle.wgsl_attribute_words.specs.Choices.{severity_of, interpolation_type_of, interpolation_sampling_of, builtin_value_of, address_space_of, access_mode_of};

use std::str::FromStr;
use wgsl_words::{
    AccessMode, AddressSpace, BuiltinValue, DiagnosticSeverity, InterpolationSampling,
    InterpolationType,
};

/// The severity of a diagnostic that a word names.
#[tactic(auto, using(crate::proofs::ChoicesLemmas::severity_found))]
pub fn severity(word: &str) -> Option<DiagnosticSeverity>
    ensures { result ≡ severity_of word.now }
{
    match DiagnosticSeverity::from_str(word) {
        Ok(value) => Some(value),
        Err(()) => None,
    }
}

/// The type of interpolation that a word names.
#[tactic(auto, using(crate::proofs::ChoicesLemmas::interpolation_type_found))]
pub fn interpolation_type(word: &str) -> Option<InterpolationType>
    ensures { result ≡ interpolation_type_of word.now }
{
    match InterpolationType::from_str(word) {
        Ok(value) => Some(value),
        Err(()) => None,
    }
}

/// The sampling of interpolation that a word names.
#[tactic(auto, using(crate::proofs::ChoicesLemmas::interpolation_sampling_found))]
pub fn interpolation_sampling(word: &str) -> Option<InterpolationSampling>
    ensures { result ≡ interpolation_sampling_of word.now }
{
    match InterpolationSampling::from_str(word) {
        Ok(value) => Some(value),
        Err(()) => None,
    }
}

/// The built-in value that a word names.
#[tactic(auto, using(crate::proofs::ChoicesLemmas::builtin_value_found))]
pub fn builtin_value(word: &str) -> Option<BuiltinValue>
    ensures { result ≡ builtin_value_of word.now }
{
    match BuiltinValue::from_str(word) {
        Ok(value) => Some(value),
        Err(()) => None,
    }
}

/// The address space that a word names.
#[tactic(auto, using(crate::proofs::ChoicesLemmas::address_space_found))]
pub fn address_space(word: &str) -> Option<AddressSpace>
    ensures { result ≡ address_space_of word.now }
{
    match AddressSpace::from_str(word) {
        Ok(value) => Some(value),
        Err(()) => None,
    }
}

/// The access mode that a word names.
#[tactic(auto, using(crate::proofs::ChoicesLemmas::access_mode_found))]
pub fn access_mode(word: &str) -> Option<AccessMode>
    ensures { result ≡ access_mode_of word.now }
{
    match AccessMode::from_str(word) {
        Ok(value) => Some(value),
        Err(()) => None,
    }
}
