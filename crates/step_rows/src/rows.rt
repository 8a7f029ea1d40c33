ghost use Rattle.std.specs.Prelude.{◌≡◌, ◌<◌};
ghost use Rattle.progress_board.specs.Actors.{actors_of};

use domore_core::Domore;
use progress_board::{Ask, Given, Machine, Row, Work};
use std::fmt::Write;
use task_frame::{Piece, work};

/// Appends the rows, each with what comes of it.
pub fn add_rows(machine: &mut Domore, rows: &str, text: &mut String) -> Option<()> {
    let mut kept = None;
    for row in rows.lines() {
        let (actor, word) = row.split_once(' ')?;
        let actor: u8 = actor.parse().ok()?;
        if actor >= actors(machine) {
            return None;
        }
        write!(text, "{row}:").ok()?;
        if word == "keep" {
            kept = asked_piece(machine, actor);
        } else {
            let given = given_of(machine, actor, word, &kept)?;
            add_made(machine, actor, given, text)?;
        }
        add_asked(machine, text)?;
    }
    Some(())
}

/// How many actors there are.
fn actors(machine: &Domore) -> u8
    ensures { result ≡ actors_of machine.now.options }
{
    machine.options().workers + 2
}

/// The piece that an actor is asked to work on.
fn asked_piece(machine: &Domore, actor: u8) -> Option<Piece>
    requires { actor < actors_of machine.now.options }
{
    match machine.ask(actor) {
        Ask::Ready(Work::Hop(piece)) => Some(piece),
        _ => None,
    }
}

/// What the word of a row says that an actor has done.
fn given_of(machine: &Domore, actor: u8, word: &str, kept: &Option<Piece>) -> Option<Given>
    requires { actor < actors_of machine.now.options }
{
    match word {
        "piece" => Some(Given::Hop(work(asked_piece(machine, actor)?))),
        "kept" => Some(Given::Hop(work(kept.as_ref()?.copy()))),
        _ => Some(Given::Turn(row_of(word)?)),
    }
}

/// The row of a name.
fn row_of(name: &str) -> Option<Row> {
    match name {
        "Scalar" => Some(Row::Scalar),
        "Dispatch" => Some(Row::Dispatch),
        "Drain" => Some(Row::Drain),
        "Halt" => Some(Row::Halt),
        "Take" => Some(Row::Take),
        "Pass" => Some(Row::Pass),
        "Hop" => Some(Row::Hop),
        "Finish" => Some(Row::Finish),
        "Trap" => Some(Row::Trap),
        "Drop" => Some(Row::Drop),
        "End" => Some(Row::End),
        "Check" => Some(Row::Check),
        _ => None,
    }
}

/// Gives what an actor has done, and appends what comes of it.
fn add_made(machine: &mut Domore, actor: u8, given: Given, text: &mut String) -> Option<()>
    requires { actor < actors_of machine.old.options }
{
    match machine.give(actor, given) {
        Ok(made) => write!(text, " {:?} {}", made.row, made.number).ok(),
        Err(answer) => {
            write!(text, " stale").ok()?;
            add_answer(&answer, text)
        }
    }
}

/// Appends what each actor is asked for.
fn add_asked(machine: &Domore, text: &mut String) -> Option<()> {
    write!(text, ";").ok()?;
    for actor in 0..actors(machine) {
        add_answer(&machine.ask(actor), text)?;
    }
    writeln!(text).ok()
}

fn add_answer(answer: &Ask, text: &mut String) -> Option<()> {
    match answer {
        Ask::Ready(Work::Turn(row)) => write!(text, " {row:?}").ok(),
        Ask::Ready(Work::Hop(_)) => write!(text, " piece").ok(),
        Ask::NotYet => write!(text, " -").ok(),
        Ask::Ended => write!(text, " .").ok(),
    }
}
