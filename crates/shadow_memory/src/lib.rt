//! The shadow memory: which iteration of each worker claimed a word last, and so what an iteration has to wait for.
//!
//! In come the claims of iterations, one after another, and out comes what the next one needs: of each other worker the
//! greatest iteration noted whose claims conflict with its own. To a caller a shadow is what was noted since it was made
//! or cleared.
#![tactic(auto)]

mod access;
mod last;
mod law;
mod shadow;

pub use law::needs_are_greatest;
pub use shadow::Shadow;
