//! Conditions (WESL, "Conditional Translation"): feature flags fixed ahead in a whole module.
#![tactic(auto)]

mod check;
mod list;
mod settle;
mod statements;
mod unit;

pub use unit::run;
pub use wesl_conditions::{CondCompError, Feature, Features};
pub use wesl_visits::{
    Visit, VisitAttributes, VisitEach, VisitEachMut, VisitExpressions, VisitStatements, VisitTypes,
};
