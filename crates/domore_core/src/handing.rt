//! What the scheduler does on its desk.
ghost use Rattle.std.specs.Prelude.{◌≡◌, ◌<◌, ◌≤◌, ◌%◌, ◌^◌, ℕ, suc, true, Some, sum, length};
ghost use Rattle.nest_syntax.specs.Arrays.{arrays_of};
ghost use Rattle.settle_law.specs.Courses as courses;
ghost use Rattle.settle_law.specs.Courses.{iteration_at, nest_of};
ghost use Rattle.sched_cursor.specs.declared.event.Iteration.{Iteration as Handed};
ghost use Rattle.sched_cursor.specs.Cursor.{Cursor as Course};
ghost use Rattle.sched_cursor.specs.Events.{is_iterating, handed_at};
ghost use Rattle.sched_cursor.specs.Handed.{what_of};
ghost use Rattle.sched_cursor.specs.Laws.{IsCursorOf};
ghost use Rattle.addr_slice.specs.Claims.{Claimed, words_of, clashes};
ghost use Rattle.shadow_memory.specs.Accesses.{IsNoted};
ghost use Rattle.domore_machine.specs.Machine as machine;
ghost use Rattle.domore_machine.specs.Waits.{waits_of};
ghost use Rattle.domore_machine.specs.Facts.{iterated};
ghost use Rattle.domore_core.specs.Claims.{claims_of};
ghost use Rattle.domore_core.specs.Tickets.{ticket_of, waits_in};
ghost use Rattle.domore_core.specs.Tables.{setup_by, sizes_by, notes_below, IsPlan, IsDeskBy};
ghost use Rattle.domore_core.specs.Ahead.{HasFew};

use crate::desk::Desk;
use crate::plan::Plan;
use crate::wait::listed_waits;
use addr_slice::{Claims, claims};
use nest_mean::Scalars;
use sched_cursor::{Cursor, Iteration};
use shadow_memory::Shadow;
use wait_queue::Ticket;

impl Desk {
    /// The ticket of the next iteration, whose claims are noted. The cursor goes behind it.
    pub(crate) fn hand_out(&mut self, plan: &Plan) -> Ticket
        requires plan { IsPlan plan.now }
        requires desk { IsDeskBy plan.now self.old }
        requires iterates { is_iterating self.old.cursor.at ≡ true }
        requires next { (b : Handed) (rest : Course) → (setup_by plan.now).event self.old.cursor ≡ courses.Iterate b rest
            → iteration_at (nest_of plan.now.job.program plan.now.job.opening.words) self.old.cursor.next ≡ Some (what_of plan.now.job.program b) }
        requires few { HasFew self.old.tally.facts }
        ensures number { result.number ≡ self.old.cursor.next }
        ensures ticket { (b : Handed) (rest : Course) → (setup_by plan.now).event self.old.cursor ≡ courses.Iterate b rest
            → ticket_of result ≡ record { number = self.old.cursor.next; body = b; waits = machine.waits (setup_by plan.now) self.old.cursor.next } }
        ensures goes { (b : Handed) (rest : Course) → (setup_by plan.now).event self.old.cursor ≡ courses.Iterate b rest
            → (self.new.cursor ≡ rest) × (rest.next ≡ suc self.old.cursor.next)
            × (self.new.tally.facts ≡ iterated self.old.cursor.next (machine.waits (setup_by plan.now) self.old.cursor.next) self.old.tally.facts) }
        ensures desk { IsDeskBy plan.now self.new }
    {
        let number = self.cursor.next();
        let iteration = self.cursor.iteration();
        claim(
            plan,
            &self.cursor,
            &iteration,
            &mut self.scalars,
            &mut self.claims,
        );
        let waits = wait_and_note(&mut self.shadow, &self.claims, plan.options.workers, number);
        self.tally.hand_out(number, listed_waits(&waits).as_slice());
        pass_iteration(&mut self.cursor, plan);
        ticket_for(number, iteration, waits)
    }
}

fn ticket_for(number: u64, iteration: Iteration, waits: [Option<u64>; 8]) -> Ticket
    ensures number { result.number ≡ number }
    ensures ticket { ticket_of result ≡ record { number = number; body = iteration; waits = waits_in waits } }
{
    let Iteration { body, value, env } = iteration;
    Ticket {
        number,
        body,
        value,
        env,
        waits,
    }
}

// The claims of the iteration that the cursor hands out, in place of those of the one before.
fn claim(
    plan: &Plan,
    cursor: &Cursor,
    iteration: &Iteration,
    scalars: &mut Scalars,
    into: &mut Claims,
)
    requires plan { IsPlan plan.now }
    requires cursor { IsCursorOf plan.now.job.program cursor.now }
    requires iterates { is_iterating cursor.now.at ≡ true }
    requires handed { iteration.now ≡ handed_at cursor.now cursor.now.at }
    requires names { length scalars.old ≡ length plan.now.job.program.names }
    requires room { words_of into.old ≡ sum (sizes_by plan.now) }
    ensures claims { into.new ≡ claims_of plan.now.job.program plan.now.job.opening.words (what_of plan.now.job.program iteration.now) }
    ensures room { words_of into.new ≡ sum (sizes_by plan.now) }
    ensures names { length scalars.new ≡ length scalars.old }
{
    cursor.put_scalars(scalars);
    claims(
        &plan.split,
        plan.job.checked(),
        iteration.body,
        scalars,
        plan.job.words(),
        into,
    );
}

// What the iteration with these claims waits for, by worker. It is noted.
fn wait_and_note(shadow: &mut Shadow, claims: &Claims, workers: u8, number: u64) -> [Option<u64>; 8]
    requires some { 0 < workers }
    requires few { workers ≤ 8 }
    requires words { words_of claims.now ≡ shadow.old.words }
    requires workers { shadow.old.workers ≡ workers }
    requires number { number ≤ 2 ^ 60 }
    ensures waits { (each : ℕ → Claimed) → IsNoted shadow.old (notes_below each workers number) → claims.now ≡ each number
        → waits_in result ≡ waits_of (clashes each) workers number }
    ensures noted { (each : ℕ → Claimed) → IsNoted shadow.old (notes_below each workers number) → claims.now ≡ each number
        → IsNoted shadow.new (notes_below each workers (suc number)) }
    ensures words { shadow.new.words ≡ shadow.old.words }
    ensures workers { shadow.new.workers ≡ shadow.old.workers }
{
    let worker = worker_of(number, workers);
    let waits = shadow.need(claims, worker);
    shadow.note(claims, worker, number);
    waits
}

// The worker of an iteration by its number.
#[tactic(auto, using(std::proofs::lemmas::Nat::mod_below))]
fn worker_of(number: u64, workers: u8) -> u8
    requires { 0 < workers }
    ensures number { result ≡ number % workers }
    ensures below { result < workers }
{
    (number % workers as u64) as u8
}

// The cursor goes behind the next iteration.
fn pass_iteration(cursor: &mut Cursor, plan: &Plan)
    requires cursor { IsCursorOf plan.now.job.program cursor.old }
    requires iterates { is_iterating cursor.old.at ≡ true }
    ensures event { (setup_by plan.now).event cursor.old ≡ courses.Iterate (handed_at cursor.old cursor.old.at) cursor.new }
    ensures cursor { IsCursorOf plan.now.job.program cursor.new }
    ensures next { cursor.new.next ≡ suc cursor.old.next }
{
    let _ = cursor.advance(plan.job.checked(), plan.job.words());
}
