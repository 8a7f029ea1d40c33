//! One thread that drives any machine to its end.
//!
//! In come a machine, a schedule and a history. Out go the machine, finished, and the history with the steps that were
//! made: those of the schedule that were enabled, and then the rotation. `strict_run` wants every step of the schedule to
//! be enabled.
#![tactic(auto)]

mod lone;
mod refused;
mod strict;

pub use lone::lone_run;
pub use refused::StepRefused;
pub use strict::strict_run;
