ghost use Rattle.std.specs.Prelude.{◌≡◌, true, Some, IfSome, IfErr, slice_get};
ghost use Rattle.nest_syntax.specs.Arrays.{arrays_of};
ghost use Rattle.word_store.specs.Memory.{HasLayout};
ghost use Rattle.sched_cursor.specs.Events.{stepped, after_turn, after_at, after_event, after_found, placed, as_answer, as_passed, is_inside, behind_invocation};
ghost use Rattle.sched_cursor.specs.Laws.{IsCursorOf};

use crate::cursor::Cursor;
use crate::node::{At, Next};
use crate::step::Step;
use nest_check::Checked;
use nest_syntax::{Cause, Line, Place};
use word_store::Words;

impl Cursor {
    /// Goes behind the event at which the cursor stands, computed on these words. Only a drain reads words that are not
    /// `const`. The place of a trap comes exactly where the event traps; the cursor is then as it was. At the end of
    /// the program nothing happens.
    pub fn advance(&mut self, checked: &Checked, words: &Words) -> Option<Place>
        requires of { IsCursorOf checked.now self.old }
        requires sizes { HasLayout words.now checked.now.decls }
        ensures of { IsCursorOf checked.now self.new }
        ensures moved { as_answer result self.new ≡ placed self.old.next (after_event (arrays_of checked.now.decls) self.old words.now.words) }
        ensures kept { IfSome result (λ place. self.new ≡ self.old) }
    {
        self.go(checked, words)
    }

    fn go(&mut self, checked: &Checked, words: &Words) -> Option<Place>
        requires of { IsCursorOf checked.now self.old }
        requires sizes { HasLayout words.now checked.now.decls }
        ensures moved { as_answer result self.new ≡ placed self.old.next (after_event (arrays_of checked.now.decls) self.old words.now.words) }
        ensures kept { IfSome result (λ place. self.new ≡ self.old) }
    {
        match self.pass(checked, words) {
            Ok(()) => None,
            Err((cause, line)) => Some(Place {
                cause,
                line,
                number: self.next,
                by_scheduler: true,
            }),
        }
    }

    fn pass(&mut self, checked: &Checked, words: &Words) -> Result<(), (Cause, Line)>
        requires of { IsCursorOf checked.now self.old }
        requires sizes { HasLayout words.now checked.now.decls }
        ensures moved { as_passed result self.new ≡ after_event (arrays_of checked.now.decls) self.old words.now.words }
        ensures kept { IfErr result (λ trap. self.new ≡ self.old) }
    {
        match &mut self.at {
            At::Before(Next::Node(number)) => {
                let number = *number;
                self.pass_node(number, checked, words)
            }
            At::Before(Next::Turn) => {
                self.pass_turn();
                Ok(())
            }
            At::Before(Next::End) => Ok(()),
            At::Inside(invocation) => {
                if invocation.turning.has_turn() {
                    invocation.turning.pass();
                    self.next += 1;
                } else {
                    self.at = At::Before(invocation.next);
                }
                Ok(())
            }
        }
    }

    fn pass_node(
        &mut self,
        number: usize,
        checked: &Checked,
        words: &Words,
    ) -> Result<(), (Cause, Line)>
        requires sizes { HasLayout words.now checked.now.decls }
        ensures moved { as_passed result self.new ≡ after_found (arrays_of checked.now.decls) self.old words.now.words (slice_get self.old.nodes number) }
        ensures kept { IfErr result (λ trap. self.new ≡ self.old) }
    {
        let Some(node) = self.nodes.get(number) else {
            return Ok(());
        };
        match node.step(&self.scalars, words, checked) {
            Ok(step) => {
                self.take(step);
                Ok(())
            }
            Err(cause) => Err((cause, node.line())),
        }
    }

    fn take(&mut self, step: Step)
        ensures { self.new ≡ stepped self.old step }
    {
        match step {
            Step::Enter(region) => {
                self.region = region;
                self.at = At::Before(Next::Turn);
            }
            Step::Change { name, value, next } => {
                self.scalars.set(name, value);
                self.at = At::Before(next);
            }
            Step::Go(next) => self.at = At::Before(next),
            Step::Invoke(invocation) => self.at = At::Inside(invocation),
        }
    }

    fn pass_turn(&mut self)
        ensures { self.new ≡ after_turn self.old self.old.region }
    {
        if self.region.turning.has_turn() {
            self.scalars
                .set(self.region.name, self.region.turning.variable());
            self.region.turning.pass();
            self.at = At::Before(self.region.items);
        } else {
            self.at = At::Before(self.region.leave);
        }
    }

    /// Goes behind the end of the invocation that was entered, and counts the iterations that were left. The event is
    /// `Iterate` or `Close`.
    pub fn pass_all(&mut self, checked: &Checked)
        requires of { IsCursorOf checked.now self.old }
        requires inside { is_inside self.old.at ≡ true }
        ensures of { IsCursorOf checked.now self.new }
        ensures passed { self.new ≡ behind_invocation self.old self.old.at }
    {
        self.pass_turns(checked);
    }

    fn pass_turns(&mut self, checked: &Checked)
        requires of { IsCursorOf checked.now self.old }
        requires inside { is_inside self.old.at ≡ true }
        ensures { self.new ≡ behind_invocation self.old self.old.at }
    {
        let At::Inside(invocation) = &self.at else {
            unreachable!()
        };
        let left = invocation.turning.trips() - invocation.turning.turn();
        let next = invocation.next;
        self.next += left;
        self.at = At::Before(next);
    }
}
