//! The events of nests, found by hand.
ghost use Rattle.std.specs.Prelude.{◌≡◌, true, IfOk};
ghost use Rattle.word_store.specs.Memory.{HasLayout};
ghost use Rattle.sched_cursor.specs.Events.{is_inside, is_iterating, is_of_invocation, is_iteration};
ghost use Rattle.sched_cursor.specs.Laws.{IsCursorOf};

use nest_check::Checked;
use nest_input::{read_nest, read_words};
use nest_syntax::{Cause, Place};
use sched_cursor::{Cursor, Event};
use std::alloc::{AllocError, Global};
use std::fmt::Write;
use std::process::Abort;
use std::test::Fail;
use word_store::Words;

/// The event at which a cursor stands, with the number of iterations before it and the scalars.
fn show_event(text: &mut String, cursor: &Cursor, checked: &Checked) -> Result<Event, AllocError>
    ensures { IfOk result (λ event. (is_inside cursor.now.at ≡ is_of_invocation event) × (is_iterating cursor.now.at ≡ is_iteration event)) }
{
    let event = cursor.peek();
    let letter = match event {
        Event::Scalar => "S",
        Event::Drain => "D",
        Event::Iterate => "I",
        Event::Close => "C",
        Event::End => "E",
    };
    let next = cursor.next();
    write!(text, "{letter}{next}")?;
    for name in 0..checked.program().names.len() {
        let value = cursor.scalars().get(name as u32);
        write!(text, " {value}")?;
    }
    text.push_str(";")?;
    Ok(event)
}

/// What an iteration is handed out with: body, variable, and the first two scalars by their numbers.
fn show_iteration(text: &mut String, cursor: &Cursor) -> Result<(), AllocError>
    requires { is_iterating cursor.now.at ≡ true }
{
    let handed = cursor.iteration();
    let (body, value) = (handed.body, handed.value);
    let (first, second) = (handed.env[0], handed.env[1]);
    write!(text, "<{body} {value} {first} {second}>")
}

fn show_trap(text: &mut String, place: &Place) -> Result<(), AllocError> {
    let cause = match place.cause {
        Cause::Divide => "divide",
        Cause::Index => "index",
        Cause::Loop => "loop",
    };
    let (line, number) = (place.line.0, place.number);
    write!(text, "!{cause} {line} {number};")
}

/// Shows an event, goes behind it, and tells whether more come. At a trap the event is shown again behind it. Invocations
/// are passed as a whole where `whole` says so.
fn go_on(
    text: &mut String,
    cursor: &mut Cursor,
    checked: &Checked,
    words: &Words,
    whole: bool,
) -> Result<bool, AllocError>
    requires of { IsCursorOf checked.now cursor.old }
    requires sizes { HasLayout words.now checked.now.decls }
    ensures { IfOk result (λ more. IsCursorOf checked.now cursor.new) }
{
    match show_event(text, cursor, checked)? {
        Event::End => return Ok(false),
        Event::Iterate => {
            if whole {
                cursor.pass_all(checked);
                return Ok(true);
            }
            show_iteration(text, cursor)?;
        }
        Event::Close => {
            if whole {
                cursor.pass_all(checked);
                return Ok(true);
            }
        }
        Event::Scalar | Event::Drain => {}
    }
    let Some(place) = cursor.advance(checked, words) else {
        return Ok(true);
    };
    show_trap(text, &place)?;
    show_event(text, cursor, checked)?;
    Ok(false)
}

/// The events up to the end or the first trap, 60 at most.
fn show_events(
    text: &mut String,
    cursor: &mut Cursor,
    checked: &Checked,
    words: &Words,
    whole: bool,
) -> Result<(), AllocError>
    requires of { IsCursorOf checked.now cursor.old }
    requires sizes { HasLayout words.now checked.now.decls }
{
    for event in 0..60 {
        if !go_on(text, cursor, checked, words, whole)? {
            break;
        }
    }
    Ok(())
}

fn course(rt: &impl Abort, alloc: Global, input: &str, whole: bool) -> Result<String, Fail> {
    assert!(rt; input.len() <= 1000);
    let checked = read_nest(alloc, input.as_bytes())?;
    let words = read_words(alloc, input.as_bytes(), &checked)?;
    let mut cursor = Cursor::start(alloc, &checked)?;
    let mut text = String::new(alloc);
    show_events(&mut text, &mut cursor, &checked, &words, whole)?;
    Ok(text)
}

// A nest, and its events: a letter, the iterations before, the scalars; of an iteration its body, its variable, and two
// scalars of the scheduler.
#[test]
fn events_of_nests(rt: HostRuntime) -> Result<(), Fail> {
    for (input, wanted) in [
        (
            "for (long t = 0; t < 2; t++) {}",
            "S0 0;S0 0;S0 0;S0 1;E0 1;",
        ),
        (
            "for (long t = 3; t < 3; t++) {} for (long u = 1; u <= 1; u++) {}",
            "S0 0 0;S0 0 0;S0 0 0;S0 0 0;S0 0 1;E0 0 1;",
        ),
        (
            "long z = 1;
for (long t = 0; t < 2; t++) {
  if (t) { z = 5; } else if (z - 1) { z = 6; } else { z += 2; }
  z = z + 10;
}",
            "S0 1 0;S0 1 0;S0 1 0;S0 1 0;S0 1 0;S0 3 0;S0 13 0;S0 13 1;S0 13 1;S0 5 1;S0 15 1;E0 15 1;",
        ),
        (
            "long z = 0;
for (long t = 0; t < 1; t++) {
  if (z) { z = 9; }
}",
            "S0 0 0;S0 0 0;S0 0 0;S0 0 0;E0 0 0;",
        ),
        (
            "long a[2];
for (long t = 0; t < 2; t++) {
  a[t] = 7;
}",
            "S0 0 0;S0 0 0;S0 0 0;I0 0 0;<0 0 0 0>C1 0 0;S1 0 0;S1 0 1;I1 0 1;<0 0 1 0>C2 0 1;S2 0 1;E2 0 1;",
        ),
        (
            "long a[1];
for (long t = 0; t < 1; t++) {
  for (long i = 4; i <= 3; i += 2) {
    a[0] = 1;
  }
}",
            "S0 0 0 0;S0 0 0 0;S0 0 0 0;C0 0 0 0;S0 0 0 0;E0 0 0 0;",
        ),
        (
            "long z = 2;
for (long t = 5; t < 6; t++) {
  for (long i = 1; i <= 5; i += 2) {}
}",
            "S0 2 0 0;S0 2 0 0;S0 2 5 0;I0 2 5 0;<0 1 2 5>I1 2 5 0;<0 3 2 5>I2 2 5 0;<0 5 2 5>C3 2 5 0;S3 2 5 0;E3 2 5 0;",
        ),
        (
            "long n[1];
for (long t = 0; t < n[0]; t++) {}
data
n 1",
            "D0 0 0;S0 0 0;S0 0 0;E0 0 0;",
        ),
        (
            "long n[1];
long z = 0;
for (long t = 0; t < 1; t++) {
  if (n[0] == 2) { z = 1; }
  z += n[0];
}
data
n 2",
            "S0 0 0 0;S0 0 0 0;D0 0 0 0;S0 0 0 0;D0 0 1 0;S0 0 3 0;E0 0 3 0;",
        ),
        (
            "long n[1];
long b[1];
for (long t = 0; t < 1; t++) {
  for (long i = 0; i < n[0]; i++) { b[0] = 9; }
}
data
n 2",
            "S0 0 0 0 0;S0 0 0 0 0;D0 0 0 0 0;I0 0 0 0 0;<0 0 0 0>I1 0 0 0 0;<0 1 0 0>C2 0 0 0 0;S2 0 0 0 0;E2 0 0 0 0;",
        ),
        (
            "long a[2];
long z = 3;
for (long t = 0; t < 1; t++) {
  a[0] = 1;
}
for (long u = 7; u < 8; u++) {
  if (z == 4) {
    a[1] = 2;
  } else {
    for (long i = 1; i < 2; i++) {
      a[i] = z;
    }
  }
  a[0] = 4;
}",
            "S0 0 3 0 0 0;S0 0 3 0 0 0;S0 0 3 0 0 0;I0 0 3 0 0 0;<0 0 3 0>C1 0 3 0 0 0;S1 0 3 0 0 0;\
             S1 0 3 0 0 0;S1 0 3 0 0 0;S1 0 3 0 7 0;S1 0 3 0 7 0;I1 0 3 0 7 0;<2 1 3 0>C2 0 3 0 7 0;\
             S2 0 3 0 7 0;I2 0 3 0 7 0;<3 0 3 0>C3 0 3 0 7 0;S3 0 3 0 7 0;E3 0 3 0 7 0;",
        ),
    ] {
        assert_eq!(rt; course(&rt, rt.alloc(), input, false)?.as_str(), wanted);
    }
    Ok(())
}

// A nest whose scheduler traps, and its events to the trap: cause, line, iterations before. The cursor stays.
#[test]
fn events_to_a_trap(rt: HostRuntime) -> Result<(), Fail> {
    for (input, wanted) in [
        (
            "long z = 0;
for (long t = 1 / z; t < 2; t++) {}",
            "S0 0 0;!divide 2 0;S0 0 0;",
        ),
        (
            "long a[1];
long z = 0;
for (long t = 0; t < 1; t++) {
  a[0] = 1;
  z = 1 % z;
}",
            "S0 0 0 0;S0 0 0 0;S0 0 0 0;I0 0 0 0;<0 0 0 0>C1 0 0 0;S1 0 0 0;!divide 5 1;S1 0 0 0;",
        ),
        (
            "const long c[1];
for (long t = 0; t < 1; t++) {
  if (t) {
  } else if (c[1]) {
  }
}",
            "S0 0 0;S0 0 0;S0 0 0;S0 0 0;!index 4 0;S0 0 0;",
        ),
        (
            "long n[1];
for (long t = 0; t < 1; t++) {
  for (long i = 0;
       i < n[1 - t]; i++) {}
}",
            "S0 0 0 0;S0 0 0 0;D0 0 0 0;!index 3 0;D0 0 0 0;",
        ),
        (
            "for (long t = 0; t < 1; t++) {
  for (long i = 0; i < 16777217; i++) {}
}",
            "S0 0 0;S0 0 0;S0 0 0;!loop 2 0;S0 0 0;",
        ),
    ] {
        assert_eq!(rt; course(&rt, rt.alloc(), input, false)?.as_str(), wanted);
    }
    Ok(())
}

// The same of a nest whose invocations are passed as a whole.
#[test]
fn whole_invocations(rt: HostRuntime) -> Result<(), Fail> {
    let input = "long a[4];
for (long t = 0; t < 2; t++) {
  for (long i = 0; i < 3 * t; i++) {
    a[i] = 1;
  }
  a[3] = t;
}";
    let wanted = "S0 0 0 0;S0 0 0 0;S0 0 0 0;C0 0 0 0;S0 0 0 0;I0 0 0 0;S1 0 0 0;\
                  S1 0 1 0;I1 0 1 0;S4 0 1 0;I4 0 1 0;S5 0 1 0;E5 0 1 0;";
    assert_eq!(rt; course(&rt, rt.alloc(), input, true)?.as_str(), wanted);
    Ok(())
}
