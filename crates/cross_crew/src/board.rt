ghost use Rattle.std.specs.Prelude.{◌≡◌, nat_lt, Option, Some, None, [], ◌∷◌, ◌++◌, vec_len, vec_capacity, IfOk, IfErr, OnErr};
ghost use Rattle.std.specs.Coded.{Coded-set, coded_option};
ghost use Rattle.progress_board.specs.declared.actors.Ask.TheVariants.{Ready};
ghost use Rattle.progress_board.specs.Actors.{actors_of, work_of};
ghost use Rattle.cross_crew.specs.Boards.{led, answer_to, IsCause};

use crate::refused::GiveRefused;
use progress_board::{Ask, Given, Machine, Made};
use std::alloc::Global;
use std::marker::{Brand, PhantomData};

/// The machine that a board was opened with. It stands in proofs alone: a type parameter with this bound names the
/// machine, so that what lies under a lock can be tied to it.
pub trait Origin<M> {
    ghost first: { Option M };
}

impl<M> Origin<M> for Brand {
    ghost first = { None };
}

/// A machine, and beside it the steps that were made of it. The history is legal, and leads from the machine that the
/// board was opened with to the one that stands here.
#[derive(Drop)]
pub struct Board<M: Machine, B: Origin<M>> {
    machine: M,
    history: Vec<u8>,
    of: PhantomData<B>,
    ghost folded: { led M.step B.first history.items ≡ Some machine } by { Coded-set (coded_option M.code) (led M.step B.first history.items) (Some machine) },
}

impl<M: Machine, B: Origin<M>> Board<M, B> {
    /// A board without a step.
    pub fn open(alloc: Global, machine: M) -> Board<M, B>
        requires { B.first ≡ Some machine }
    {
        Board {
            machine,
            history: Vec::new(alloc),
            of: PhantomData,
        }
    }

    /// What the actor has to do. A number that is no actor's has ended its part.
    pub fn ask(&self, actor: u8) -> Ask
        ensures { result ≡ answer_to (M.options_of self.now.machine) (M.asked self.now.machine) actor }
    {
        if !self.has_actor(actor) {
            return Ask::Ended;
        }
        self.machine.ask(actor)
    }

    /// Makes the actor's step, where what is given is the work that it is asked for, and appends its number to the
    /// history. The room for it is taken first, and memory runs out only where the history is full. Where it is refused,
    /// nothing has changed.
    pub fn give(&mut self, actor: u8, given: Given) -> Result<Made, GiveRefused>
        ensures asked { IfOk result (λ made. answer_to (M.options_of self.old.machine) (M.asked self.old.machine) actor ≡ Ready (work_of given)) }
        ensures made { IfOk result (λ made. (M.step self.old.machine actor ≡ Some self.new.machine) × (made ≡ M.made_by self.old.machine actor)) }
        ensures history { IfOk result (λ made. self.new.history.items ≡ self.old.history.items ++ actor ∷ []) }
        ensures cause { IfErr result (IsCause (answer_to (M.options_of self.old.machine) (M.asked self.old.machine) actor) (work_of given) (vec_capacity self.old.history) (vec_len self.old.history)) }
        ensures same { OnErr result ((self.new.machine ≡ self.old.machine) × (self.new.history.items ≡ self.old.history.items)) }
    {
        if !self.has_actor(actor) {
            return Err(GiveRefused::Stale(Ask::Ended));
        }
        if self.history.reserve(1).is_err() {
            return Err(GiveRefused::NoMemory);
        }
        match self.machine.give(actor, given) {
            Ok(made) => {
                self.history.push(actor).unwrap();
                Ok(made)
            }
            Err(answer) => Err(GiveRefused::Stale(answer)),
        }
    }

    /// The machine and the history that leads to it.
    pub fn into_parts(self) -> (M, Vec<u8>)
        ensures { led M.step B.first result.1.items ≡ Some result.0 }
    {
        let Board {
            machine,
            history,
            of: _,
        } = self;
        (machine, history)
    }

    fn has_actor(&self, actor: u8) -> bool
        ensures { result ≡ nat_lt actor (actors_of (M.options_of self.now.machine)) }
    {
        actor < self.machine.options().workers + 2
    }
}
