ghost use Rattle.std.specs.Prelude.{◌≡◌, ◌<◌, ◌≤◌, ◌^◌, true, Some, map, length};
ghost use Rattle.nest_syntax.specs.declared.tree.Program.{Program};
ghost use Rattle.nest_syntax.specs.Words.{most_turns};
ghost use Rattle.nest_syntax.specs.Arrays.{arrays_of};
ghost use Rattle.nest_syntax.specs.Shape.{bodies_of};
ghost use Rattle.sched_cursor.specs.Turning.{Reaches};
ghost use Rattle.sched_cursor.specs.Events.{kind_of, here_at, is_inside, is_iterating, is_of_invocation, is_iteration, handed_at, env_of, value_of};
ghost use Rattle.sched_cursor.specs.Given.{with_given, given_named, given_at};
ghost use Rattle.sched_cursor.specs.Laws.{IsCursorOf};

use crate::event::{Event, Here, Iteration};
use crate::node::{At, Next, Node, Region};
use nest_mean::Scalars;
use std::marker::Model;

/// Where the scheduler stands in the course of a program.
#[derive(Debug, Drop)]
pub struct Cursor {
    /// The events that stand in the text, found once at the start.
    pub(crate) nodes: Vec<Node>,
    /// Of each of them whether it is a drain.
    pub(crate) drains: Vec<bool>,
    /// Where the course begins.
    pub(crate) entry: Next,
    pub(crate) at: At,
    /// The region that was entered last.
    pub(crate) region: Region,
    pub(crate) scalars: Scalars,
    /// By their numbers, the names of the scheduler's scalars.
    pub(crate) names: [Option<u32>; 32],
    /// How many iterations were passed.
    pub(crate) next: u64,
}

impl Model for Cursor {
    ghost use Rattle.sched_cursor.specs.Cursor.{Cursor as State};
    ghost use Rattle.nest_syntax.specs.contracts.tree.Expr as expr;
    ghost use Rattle.std.specs.Coded.{codes};

    ghost Value = { State };

    ghost coded = { Prim.hlevel (codes, expr.the_row.coded) };

    ghost view = { λ c. record { nodes = c.nodes.items; drains = c.drains.items; entry = c.entry; at = c.at; region = c.region; scalars = c.scalars; names = c.names; next = c.next } };
}

impl Cursor {
    /// The event at which the cursor stands.
    #[tactic(auto, using(crate::proofs::Cursors::kind_looked_up))]
    pub fn peek(&self) -> Event
        ensures kind { (program : Program) → IsCursorOf program self.now → result ≡ kind_of (arrays_of program.decls) self.now }
        ensures inside { is_inside self.now.at ≡ is_of_invocation result }
        ensures iterates { is_iterating self.now.at ≡ is_iteration result }
    {
        match &self.at {
            At::Before(Next::Node(number)) => match self.drains.get(*number) {
                Some(true) => Event::Drain,
                Some(false) => Event::Scalar,
                None => Event::End,
            },
            At::Before(Next::Turn) => Event::Scalar,
            At::Before(Next::End) => Event::End,
            At::Inside(invocation) => {
                if invocation.turning.has_turn() {
                    Event::Iterate
                } else {
                    Event::Close
                }
            }
        }
    }

    /// The invocation that was entered. The event is `Iterate` or `Close`.
    pub fn here(&self) -> Here
        requires { is_inside self.now.at ≡ true }
        ensures there { Some result ≡ here_at self.now.at }
        ensures reach { Reaches result.low result.step result.trips }
        ensures few { (program : Program) → IsCursorOf program self.now → (result.turn ≤ result.trips) × (result.trips ≤ most_turns) × (result.body < length (bodies_of program)) }
    {
        let At::Inside(invocation) = &self.at else {
            unreachable!()
        };
        Here {
            body: invocation.body,
            low: invocation.turning.low(),
            step: invocation.turning.step(),
            trips: invocation.turning.trips(),
            turn: invocation.turning.turn(),
        }
    }

    /// What the next iteration is handed out with. The event is `Iterate`.
    pub fn iteration(&self) -> Iteration
        requires { is_iterating self.now.at ≡ true }
        ensures { result ≡ handed_at self.now self.now.at }
    {
        let At::Inside(invocation) = &self.at else {
            unreachable!()
        };
        Iteration {
            body: invocation.body,
            value: invocation.turning.variable(),
            env: self.env(),
        }
    }

    /// Gives the scheduler's scalars, and the variable of the invocation that was entered, the values that they have in the
    /// next iteration. The event is `Iterate`.
    pub fn put_scalars(&self, into: &mut Scalars)
        requires { is_iterating self.now.at ≡ true }
        ensures given { into.new ≡ given_at self.now self.now.at into.old }
        ensures names { length into.new ≡ length into.old }
    {
        let At::Inside(invocation) = &self.at else {
            unreachable!()
        };
        put_named(&self.names, &self.scalars, into);
        put(invocation.name, invocation.turning.variable(), into);
    }

    /// The scalars of the scheduler by their numbers, 0 where no scalar has the number.
    pub fn env(&self) -> [i64; 32]
        ensures { result ≡ env_of self.now }
    {
        values_of(&self.names, &self.scalars)
    }

    /// The scalars, one for each name of the program.
    pub fn scalars(&self) -> &Scalars
        ensures { result.now ≡ self.now.scalars }
    {
        &self.scalars
    }

    /// How many iterations were passed: the number of the next one.
    pub fn next(&self) -> u64
        ensures same { result ≡ self.now.next }
        ensures few { (program : Program) → IsCursorOf program self.now → self.now.next ≤ 2 ^ 60 }
    {
        self.next
    }
}

// The values of the scalars with these names.
fn values_of(names: &[Option<u32>; 32], scalars: &Scalars) -> [i64; 32]
    ensures { result ≡ map (value_of scalars.now) names.now }
{
    let mut values = [0; 32];
    for number in 0..32 {
        values[number] = value_of(names[number], scalars);
    }
    values
}

// The value of the scalar with this name, 0 where there is none.
fn value_of(name: Option<u32>, scalars: &Scalars) -> i64
    ensures { result ≡ value_of scalars.now name }
{
    match name {
        Some(name) => scalars.get(name),
        None => 0,
    }
}

// Gives the scalars with these names the values that they have among others.
fn put_named(names: &[Option<u32>], others: &Scalars, into: &mut Scalars)
    ensures { into.new ≡ given_named others.now names.now into.old }
{
    for name in names {
        put(*name, value_of(*name, others), into);
    }
}

// Gives a name's scalar a value, where there is a name.
fn put(name: Option<u32>, value: i64, into: &mut Scalars)
    ensures { into.new ≡ with_given into.old name value }
{
    if let Some(name) = name {
        into.set(name, value);
    }
}
