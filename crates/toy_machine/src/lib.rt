//! A small machine that hands out tokens. No program uses it: it shows that the trait can be met, and the tests of the
//! driver run over it.
#![tactic(auto)]

mod relay;

pub use relay::Relay;
