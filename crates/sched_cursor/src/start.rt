ghost use Rattle.std.specs.Prelude.{◌≡◌, ◌<◌, ◌^◌, IfOk, length, replicate, pos};
ghost use Rattle.nest_syntax.specs.Course.{declared_scalars, opening_scalars};
ghost use Rattle.sched_cursor.specs.Laws.{IsCursorOf, no_region, before_entry, restarted};
ghost use Rattle.sched_cursor.specs.Handed.{NumbersNames};

use crate::cursor::Cursor;
use crate::drains::drains_of;
use crate::node::{At, Next, Region};
use crate::script::Script;
use crate::turning::Turning;
use nest_check::Checked;
use nest_mean::Scalars;
use nest_syntax::{Decl, NoMemory, Program};
use std::alloc::Global;

impl Cursor {
    /// A cursor before the first event of the program.
    pub fn start(alloc: Global, checked: &Checked) -> Result<Cursor, NoMemory>
        ensures { IfOk result (λ c. IsCursorOf checked.now c × (c ≡ restarted checked.now c)) }
    {
        let program = checked.program();
        let mut script = Script {
            nodes: Vec::new(alloc),
            first: checked.data_locals().len() as u32,
        };
        let entry = script.regions(alloc, program.regions.as_slice())?;
        let drains = drains_of(alloc, checked, script.nodes.as_slice())?;
        let scalars = opening_scalars(alloc, program)?;
        let names = scalar_names(checked);
        Ok(Cursor::before_entry(script, drains, entry, scalars, names))
    }

    // With this script, before the event at which it is entered.
    fn before_entry(
        script: Script,
        drains: Vec<bool>,
        entry: Next,
        scalars: Scalars,
        names: [Option<u32>; 32],
    ) -> Cursor
        ensures { result ≡ before_entry script.nodes.items drains.items entry scalars names }
    {
        Cursor {
            nodes: script.nodes,
            drains,
            entry,
            at: At::Before(entry),
            region: no_region(),
            scalars,
            names,
            next: 0,
        }
    }
}

impl Cursor {
    /// Makes the cursor what `start` gives. It takes no memory.
    pub fn restart(&mut self, checked: &Checked)
        requires { IsCursorOf checked.now self.old }
        ensures of { IsCursorOf checked.now self.new }
        ensures start { self.new ≡ restarted checked.now self.old }
    {
        self.begin_anew(checked);
    }

    fn begin_anew(&mut self, checked: &Checked)
        requires { IsCursorOf checked.now self.old }
        ensures { self.new ≡ restarted checked.now self.old }
    {
        let program = checked.program();
        clear_scalars(program.names.len(), &mut self.scalars);
        declare_scalars(program.decls.as_slice(), &mut self.scalars);
        self.at = At::Before(self.entry);
        self.region = no_region();
        self.next = 0;
    }
}

// By their numbers, the names of the scheduler's scalars.
fn scalar_names(checked: &Checked) -> [Option<u32>; 32]
    ensures { NumbersNames checked.now result }
{
    let mut names = [None; 32];
    for name in 0..checked.program().names.len() {
        if let Some(number) = checked.scalar_of(name as u32) {
            names[number as usize] = Some(name as u32);
        }
    }
    names
}

// Makes the scalars of the first names 0.
fn clear_scalars(names: usize, scalars: &mut Scalars)
    requires few { names < 2 ^ 32 }
    requires all { length scalars.old ≡ names }
    ensures { scalars.new ≡ replicate names (pos 0) }
{
    for name in 0..names {
        scalars.set(name as u32, 0);
    }
}

// Before the first region is entered.
fn no_region() -> Region
    ensures { result ≡ no_region }
{
    Region {
        name: 0,
        turning: Turning::begin(0, 1, 0),
        items: Next::Turn,
        leave: Next::End,
    }
}

fn opening_scalars(alloc: Global, program: &Program) -> Result<Scalars, NoMemory>
    ensures { IfOk result (λ made. made ≡ opening_scalars program.now) }
{
    let mut scalars = Scalars::zeros(alloc, program.names.len())?;
    declare_scalars(program.decls.as_slice(), &mut scalars);
    Ok(scalars)
}

fn declare_scalars(decls: &[Decl], scalars: &mut Scalars)
    ensures { scalars.new ≡ declared_scalars decls.now scalars.old }
{
    for decl in decls {
        match decl {
            Decl::Scalar { name, value, .. } => scalars.set(*name, *value),
            Decl::Array { .. } => {}
        }
    }
}
