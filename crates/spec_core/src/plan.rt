use nest_mean::Job;
use progress_board::Options;
use task_code::TaskCode;

/// What stays the same in a run: the job, the options, the code of the job's bodies, of each body whether the turns of its
/// invocations are shared out, and of each array whether it is `const`.
#[derive(Drop)]
pub(crate) struct Plan {
    pub(crate) job: Job,
    pub(crate) options: Options,
    pub(crate) code: TaskCode,
    pub(crate) shared: Vec<bool>,
    pub(crate) consts: Vec<bool>,
}
