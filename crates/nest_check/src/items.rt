ghost use Rattle.std.specs.Prelude.{◌≡◌, OnOk, IfOk, map, take};
ghost use Rattle.std.specs.List.{flat_map};
ghost use Rattle.nest_syntax.specs.Lowest.{lowest};
ghost use Rattle.nest_check.specs.Through.{through};
ghost use Rattle.nest_check.specs.Declarations.{first_of_each};
ghost use Rattle.nest_syntax.specs.Shape.{Plain, Declares, Invokes, body_of_loop, items, items_of, items_in_arm};
ghost use Rattle.nest_check.specs.Entries.{scalars_in, scheduler_scalars};
ghost use Rattle.nest_check.specs.Rules.{large_regions, large_bodies};
ghost use Rattle.nest_check.specs.Noted.{added, passed, region_begun, region_ended, region_passed};

use crate::entries::{Tally, is_large_body};
use crate::first_names::FirstNames;
use nest_syntax::{Arm, Decl, Line, Loop, Lowest, NoMemory, Program, Stmt};
use std::alloc::Global;

const MOST_ITEMS: u32 = 64;

/// How many scheduler scalars a program may have.
pub(crate) const MOST_SCALARS: usize = 32;

/// What the items of regions gave so far: the room left in this region, the scheduler scalars declared, and the lowest
/// lines of bodies and of regions that are too large.
#[derive(Debug, Drop)]
pub(crate) struct Sizes {
    pub tally: Tally,
    pub bodies: Lowest,
    pub regions: Lowest,
}

impl Sizes {
    fn count(&mut self)
        ensures { self.new ≡ passed self.old Plain }
    {
        self.tally.count();
    }

    fn declare(&mut self, name: u32, line: Line) -> Result<(), NoMemory>
        ensures { OnOk result (self.new ≡ passed self.old (Declares (name, line))) }
    {
        self.tally.declare(MOST_SCALARS + 1, name, line)
    }

    fn invoke(&mut self, alloc: Global, invoked: &Loop) -> Result<(), NoMemory>
        ensures { OnOk result (self.new ≡ passed self.old (Invokes (body_of_loop invoked.now))) }
    {
        self.tally.count();
        if is_large_body(alloc, invoked)? {
            self.bodies.note(invoked.line);
        }
        Ok(())
    }

    fn begin(&mut self, region: &Loop) -> Result<(), NoMemory>
        ensures { OnOk result (self.new ≡ region_begun self.old region.now) }
    {
        self.tally.room = MOST_ITEMS + 1;
        self.tally
            .names
            .note(MOST_SCALARS + 1, region.name, region.line)
    }

    fn end(&mut self, region: &Loop)
        ensures { self.new ≡ region_ended self.old region.now }
    {
        if self.tally.room == 0 {
            self.regions.note(region.line);
        }
    }
}

/// The sizes of a program's regions and bodies, and its scheduler scalars up to the 33rd.
pub(crate) fn sizes_of(alloc: Global, program: &Program) -> Result<Sizes, NoMemory>
    ensures bodies { IfOk result (λ s. s.bodies ≡ lowest (large_bodies program.now)) }
    ensures regions { IfOk result (λ s. s.regions ≡ lowest (large_regions program.now)) }
    ensures scalars { IfOk result (λ s. s.tally.names ≡ take 33 (first_of_each (scheduler_scalars program.now))) }
{
    let mut sizes = Sizes {
        tally: Tally {
            room: MOST_ITEMS + 1,
            names: FirstNames::new(alloc),
        },
        bodies: Lowest::new(),
        regions: Lowest::new(),
    };
    declare_scalars(program.decls.as_slice(), &mut sizes.tally.names)?;
    pass_regions(alloc, program.regions.as_slice(), &mut sizes)?;
    Ok(sizes)
}

fn declare_scalars(decls: &[Decl], names: &mut FirstNames) -> Result<(), NoMemory>
    ensures { OnOk result (names.new ≡ through (added 33) names.old (scalars_in decls.now)) }
{
    for decl in decls {
        match decl {
            Decl::Array { .. } => {}
            Decl::Scalar { line, name, .. } => names.note(MOST_SCALARS + 1, *name, *line)?,
        }
    }
    Ok(())
}

fn pass_regions(alloc: Global, regions: &[Loop], sizes: &mut Sizes) -> Result<(), NoMemory>
    ensures { OnOk result (sizes.new ≡ through region_passed sizes.old regions.now) }
{
    for region in regions {
        pass_region(alloc, region, sizes)?;
    }
    Ok(())
}

fn pass_region(alloc: Global, region: &Loop, sizes: &mut Sizes) -> Result<(), NoMemory>
    ensures { OnOk result (sizes.new ≡ region_passed sizes.old region.now) }
{
    sizes.begin(region)?;
    pass_items(alloc, region.body.as_slice(), sizes)?;
    sizes.end(region);
    Ok(())
}

#[cycle(pass)]
fn pass_items(alloc: Global, stmts: &[Stmt], sizes: &mut Sizes) -> Result<(), NoMemory>
    ensures { OnOk result (sizes.new ≡ through passed sizes.old (items_of stmts.now)) }
{
    for stmt in stmts {
        pass_item(alloc, stmt, sizes)?;
    }
    Ok(())
}

#[cycle(pass)]
fn pass_item(alloc: Global, stmt: &Stmt, sizes: &mut Sizes) -> Result<(), NoMemory>
    ensures { OnOk result (sizes.new ≡ through passed sizes.old (items stmt.now)) }
{
    match stmt {
        Stmt::Declare { line, name, .. } => sizes.declare(*name, *line),
        Stmt::Assign { .. } => {
            sizes.count();
            Ok(())
        }
        Stmt::Write { .. } => {
            sizes.count();
            Ok(())
        }
        Stmt::If { arms, other } => {
            sizes.count();
            pass_arms(alloc, arms.as_slice(), sizes)?;
            pass_items(alloc, other.as_slice(), sizes)
        }
        Stmt::Loop(invoked) => sizes.invoke(alloc, invoked),
    }
}

#[cycle(pass)]
fn pass_arms(alloc: Global, arms: &[Arm], sizes: &mut Sizes) -> Result<(), NoMemory>
    ensures { OnOk result (sizes.new ≡ through passed sizes.old (flat_map items_in_arm arms.now)) }
{
    for arm in arms {
        pass_items(alloc, arm.body.as_slice(), sizes)?;
    }
    Ok(())
}
