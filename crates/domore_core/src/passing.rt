//! The scheduler goes on, at events that are no iterations.
ghost use Rattle.std.specs.Prelude.{◌≡◌, ◌<◌, ◌^◌, false, None, IfSome};
ghost use Rattle.nest_syntax.specs.Arrays.{arrays_of};
ghost use Rattle.word_store.specs.Memory.{HasLayout};
ghost use Rattle.sched_cursor.specs.Events.{is_inside, is_iterating, purpose_at};
ghost use Rattle.sched_cursor.specs.Laws.{IsCursorOf, SameConst};
ghost use Rattle.nest_setup.specs.Laws.{IsAnswered};
ghost use Rattle.domore_core.specs.Tables.{setup_by, counted_by, next_past, purpose_behind, IsPlan, IsDeskBy};

use crate::desk::Desk;
use crate::plan::Plan;
use nest_syntax::Place;
use sched_cursor::{Cursor, Event};
use word_store::Words;

impl Desk {
    /// Goes behind an event that is no iteration, carried out on these words, and counts it where it is a header. A place
    /// comes exactly where it traps.
    pub(crate) fn pass(&mut self, plan: &Plan, words: &Words) -> Option<Place>
        requires plan { IsPlan plan.now }
        requires desk { IsDeskBy plan.now self.old }
        requires sizes { HasLayout words.now plan.now.job.program.decls }
        requires fixed { SameConst (arrays_of plan.now.job.program.decls) words.now.words plan.now.job.opening.words }
        requires other { is_iterating self.old.cursor.at ≡ false }
        requires few { self.old.tally.facts.invocations < 2 ^ 63 }
        ensures answered { IsAnswered self.old.cursor words.now.words result self.new.cursor ((setup_by plan.now).event self.old.cursor) }
        ensures kept { IfSome result (λ place. self.new.cursor ≡ self.old.cursor) }
        ensures next { self.new.cursor.next ≡ self.old.cursor.next }
        ensures counted { self.new.tally.facts ≡ counted_by result self.old.cursor.next (purpose_at self.old.cursor self.old.cursor.at) self.old.tally.facts }
        ensures desk { IsDeskBy plan.now self.new }
    {
        let next = self.cursor.next();
        let trap = go_behind(&mut self.cursor, plan, words);
        let stands_inside = is_inside(&self.cursor);
        self.tally.begin_if(trap.is_none(), stands_inside, next);
        trap
    }
}

// Goes behind an event that is carried out on these words.
fn go_behind(cursor: &mut Cursor, plan: &Plan, words: &Words) -> Option<Place>
    requires of { IsCursorOf plan.now.job.program cursor.old }
    requires sizes { HasLayout words.now plan.now.job.program.decls }
    requires fixed { SameConst (arrays_of plan.now.job.program.decls) words.now.words plan.now.job.opening.words }
    ensures of { IsCursorOf plan.now.job.program cursor.new }
    ensures answered { IsAnswered cursor.old words.now.words result cursor.new ((setup_by plan.now).event cursor.old) }
    ensures kept { IfSome result (λ place. cursor.new ≡ cursor.old) }
    ensures next { cursor.new.next ≡ next_past result cursor.old }
    ensures headed { result ≡ None → is_iterating cursor.old.at ≡ false → purpose_at cursor.old cursor.old.at ≡ purpose_behind (is_inside cursor.new.at) }
{
    cursor.advance(plan.job.checked(), words)
}

// Whether the cursor stands in an invocation.
fn is_inside(cursor: &Cursor) -> bool
    ensures { result ≡ is_inside cursor.now.at }
{
    matches!(cursor.peek(), Event::Iterate | Event::Close)
}
