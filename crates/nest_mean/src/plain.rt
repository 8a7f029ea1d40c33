ghost use Rattle.std.specs.Prelude.{◌≡◌, ◌*◌, IfOk, map, length};
ghost use Rattle.nest_syntax.specs.Course.{in_order, region_of};
ghost use Rattle.nest_mean.specs.Bound.{most_iterations};
ghost use Rattle.nest_mean.specs.CourseParts.{IsReady, Passes, setting_in};
ghost use Rattle.nest_mean.specs.Outcomes.{outcome};

use crate::courses::run_region;
use crate::jobs::Job;
use crate::outcomes::Outcome;
use crate::run::Run;
use nest_syntax::{Loop, NoMemory, Place};
use std::alloc::Global;

/// Runs a job in textual order, to its final words or its first trap.
pub fn run_plain(alloc: Global, job: &Job) -> Result<Outcome, NoMemory>
    ensures { IfOk result (λ r. r ≡ outcome job.now) }
{
    let mut run = Run::begin(alloc, job)?;
    match run_regions(job.checked().program().regions.as_slice(), &mut run, job) {
        Ok(()) => Ok(Outcome::Done(run.words)),
        Err(place) => Ok(Outcome::Trapped(place)),
    }
}

fn run_regions(regions: &[Loop], run: &mut Run, job: &Job) -> Result<(), Place>
    requires { IsReady job.now (most_iterations * length (in_order (map (region_of (setting_in job.now)) regions.now)).bodies) run.old }
    ensures { Passes (setting_in job.now) (in_order (map (region_of (setting_in job.now)) regions.now)) most_iterations result run.old run.new }
{
    for region in regions {
        run_region(region, run, job)?;
    }
    Ok(())
}
