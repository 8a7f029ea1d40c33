//! The rules that a program keeps before it is run.
//!
//! In comes a program that the parser gave, out goes the same program as `Checked`, or the lowest rule that it breaks
//! and the lowest line that breaks it.
#![tactic(auto)]

mod arrays;
mod changed_bounds;
mod checked;
mod checking;
mod copies;
mod entries;
mod expressions;
mod first_names;
mod items;
mod judge;
mod law;
mod named;
mod parts;
mod refused;
mod tables;

pub use checked::Checked;
pub use checking::{check, one_judgement};
pub use law::turns_stay_inside;
pub use refused::CheckRefused;
