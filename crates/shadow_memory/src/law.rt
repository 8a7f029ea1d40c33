ghost use Rattle.shadow_memory.specs.Laws.{NeedsAreGreatest};

/// A law: what an iteration needs of another worker is the greatest of its iterations noted whose claims conflict with
/// those of the iteration, and nothing exactly where none conflicts.
pub fn needs_are_greatest()
    ensures { NeedsAreGreatest }
{}
