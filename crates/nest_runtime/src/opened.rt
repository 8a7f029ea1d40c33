ghost use Rattle.std.specs.Prelude.{IfOk, IfErr};
ghost use Rattle.progress_board.specs.Options.{IsInRange};
ghost use Rattle.nest_runtime.specs.Opened.{IsSpeculative, IsOpenedOn, IsRunFrom, IsRotationOf, AreEnabled, AreRefusedBy};

use crate::ran::Ran;
use crate::runs::{drive_alone, drive_crew, drive_strict};
use cross_crew::Gate;
use domore_core::Domore;
use lone_crew::StepRefused;
use nest_mean::Job;
use nest_syntax::NoMemory;
use progress_board::{Engine, Options, Sign};
use range_sign::{ExactSign, RangeSign};
use spec_core::Spec;
use std::alloc::Global;
use std::sync::Wait;
use std::thread::Threads;

/// A machine on a job, of the engine that its options name.
#[derive(Drop)]
pub enum Opened {
    Domore(Domore),
    Exact(Spec<ExactSign>),
    Range(Spec<RangeSign>),
}

impl Opened {
    /// The machine of these options in its opening state.
    pub(crate) fn open(alloc: Global, job: Job, options: Options) -> Result<Opened, NoMemory>
        requires { IsInRange options }
        ensures { IfOk result (λ opened. IsOpenedOn job options opened) }
    {
        match options.engine {
            Engine::Domore => Ok(Opened::Domore(Domore::open(alloc, job, options)?)),
            Engine::Speccross => Opened::open_spec(alloc, job, options),
            Engine::Barrier => Opened::open_spec(alloc, job, options),
        }
    }

    /// The same of an engine that passes barriers speculatively.
    fn open_spec(alloc: Global, job: Job, options: Options) -> Result<Opened, NoMemory>
        requires allowed { IsInRange options }
        requires engine { IsSpeculative options.engine }
        ensures { IfOk result (λ opened. IsOpenedOn job options opened) }
    {
        match options.sign {
            Sign::Exact => Ok(Opened::Exact(Spec::open(alloc, job, options)?)),
            Sign::Range => Ok(Opened::Range(Spec::open(alloc, job, options)?)),
        }
    }

    /// `drive_alone` of it.
    pub(crate) fn alone(self, alloc: Global, schedule: &[u8]) -> Result<Ran, NoMemory>
        ensures run { IfOk result (λ ran. IsRunFrom self ran.outcome ran.facts ran.history.items) }
        ensures rotation { IfOk result (λ ran. IsRotationOf self schedule.now ran.history.items) }
    {
        match self {
            Opened::Domore(machine) => drive_alone(alloc, machine, schedule),
            Opened::Exact(machine) => drive_alone(alloc, machine, schedule),
            Opened::Range(machine) => drive_alone(alloc, machine, schedule),
        }
    }

    /// `drive_strict` of it.
    pub(crate) fn strict(self, alloc: Global, steps: &[u8]) -> Result<Ran, StepRefused>
        ensures run { IfOk result (λ ran. IsRunFrom self ran.outcome ran.facts ran.history.items) }
        ensures enabled { IfOk result (λ ran. AreEnabled self steps.now) }
        ensures rotation { IfOk result (λ ran. IsRotationOf self steps.now ran.history.items) }
        ensures refused { IfErr result (AreRefusedBy self steps.now) }
    {
        match self {
            Opened::Domore(machine) => drive_strict(alloc, machine, steps),
            Opened::Exact(machine) => drive_strict(alloc, machine, steps),
            Opened::Range(machine) => drive_strict(alloc, machine, steps),
        }
    }

    /// `drive_crew` of it.
    pub(crate) fn crew<R: Threads + Wait + Sync, G: Gate>(
        self,
        rt: &R,
        alloc: Global,
        gate: &G,
    ) -> Result<Ran, NoMemory>
        ensures { IfOk result (λ ran. IsRunFrom self ran.outcome ran.facts ran.history.items) }
    {
        match self {
            Opened::Domore(machine) => drive_crew(rt, alloc, machine, gate),
            Opened::Exact(machine) => drive_crew(rt, alloc, machine, gate),
            Opened::Range(machine) => drive_crew(rt, alloc, machine, gate),
        }
    }
}
