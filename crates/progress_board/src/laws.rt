ghost use Rattle.std.specs.Prelude.{◌≡◌, ℕ, ◌≤◌, Some, true, List, [], ◌++◌, length};
ghost use Rattle.nest_mean.specs.declared.jobs.Job.{Job};
ghost use Rattle.nest_mean.specs.Nest.{CanRun};
ghost use Rattle.progress_board.specs.declared.options.Options.{Options};
ghost use Rattle.progress_board.specs.Options.{IsInRange};
ghost use Rattle.progress_board.specs.Actors.{actors_of};
ghost use Rattle.progress_board.specs.Rotation.{rotation};
ghost use Rattle.settle_law.specs.Runs.{run, IsComplete};

use crate::machine::Machine;

/// No legal history is longer than the measure of the opening state.
pub fn is_bounded<M: Machine>()
    ensures { (job : Job) (options : Options) (first last : M) (history : List ℕ) → CanRun job → IsInRange options → M.opens job options first → run M.step first history ≡ Some last → length history ≤ M.measure first }
{}

/// The rotation is a complete history, whatever schedule it begins with.
pub fn rotation_completes<M: Machine>()
    ensures { (job : Job) (options : Options) (first : M) (schedule : List ℕ) → CanRun job → IsInRange options → M.opens job options first → IsComplete M.step M.is_finished first (rotation M.step M.measure first (actors_of options) schedule) }
{}

/// A history that finishes the machine can't be extended.
pub fn is_over<M: Machine>()
    ensures { (job : Job) (options : Options) (first last : M) (history more : List ℕ) → CanRun job → IsInRange options → M.opens job options first → IsComplete M.step M.is_finished first history → run M.step first (history ++ more) ≡ Some last → more ≡ [] }
{}
