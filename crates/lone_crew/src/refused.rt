use nest_syntax::NoMemory;
use thiserror::Error;

/// Why a run of given steps ended early.
#[derive(Clone, Copy, Debug, PartialEq, Eq, Error)]
pub enum StepRefused {
    /// The number, from 0, of the first step that names no actor, or whose actor has no enabled row.
    #[error("a step that isn't enabled")]
    Step(u64),
    #[error("out of memory")]
    NoMemory,
}

impl From<NoMemory> for StepRefused {
    ghost use Rattle.std.specs.Prelude.{◌≡◌};
    ghost use Rattle.lone_crew.specs.declared.refused.StepRefused.TheVariants.{NoMemory};

    ghost from_gives = { λ _ e. e ≡ NoMemory };

    fn from(_error: NoMemory) -> StepRefused {
        StepRefused::NoMemory
    }
}
