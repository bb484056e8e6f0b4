//! What is in scope at the const stage.

use core_meaning::ScalarType;
use core_syntax::GlobalDeclaration;
use std::collections::HashMap;
use wgsl_base::Text;
use wgsl_shader_type::LiteralInstance;

/// The declarations of a module, each under its name: of equal names the first.
pub type Declarations<'a> = HashMap<&'a str, &'a GlobalDeclaration>;

/// The values of consts, each under its name.
pub type Values<'a> = HashMap<&'a str, LiteralInstance>;

/// What is in scope at the const stage: the declarations of the module, the values that its consts have by now, and the
/// parameters of the function.
#[derive(Drop)]
pub struct Scope<'a> {
    pub declarations: &'a Declarations<'a>,
    pub consts: &'a Values<'a>,
    pub parameters: &'a [(Text, ScalarType)],
}
