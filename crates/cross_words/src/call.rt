use progress_board::Options;

/// What the program is to do.
#[derive(Clone, Copy, Debug, PartialEq, Eq)]
pub enum Action {
    Plain,
    Check,
    Deps,
    Alone,
    Replay,
    Profile,
    Gen,
    Big,
    Run,
}

/// What words say: an action, and all options, with their defaults where none is given. Each number is in its range.
#[derive(Clone, Copy, Debug, PartialEq, Eq)]
pub struct Call {
    pub action: Action,
    pub options: Options,
    /// 0 to 2,147,483,647.
    pub seed: u32,
    /// 1 to 262,144.
    pub size: u32,
    /// Whether the steps are printed too.
    pub with_steps: bool,
}
