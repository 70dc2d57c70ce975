// The rows of a token table, the token that each stands for, and the table rules, with one test that is their conjunction.
// It rests on `lists`, and on `utf8` for the rule on the body.
#![tactic(auto)]

pub mod kinds;
pub mod limit;
pub mod numbers;
pub mod patterns;
mod places;
pub mod rows;
mod rules;

pub use crate::kinds::Kind;
pub use crate::numbers::{Row, Span};
pub use crate::patterns::Pattern;
pub use crate::rows::{ReadableRows, RuledRows, Table, ValidTable};
pub use crate::rules::last_lt;
