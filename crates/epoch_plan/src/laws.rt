ghost use Rattle.epoch_plan.specs.Blocks.{BlocksPartTurns};

/// A law: the blocks of an epoch are disjoint, in the order of the workers, and together all its turns.
pub fn blocks_part_turns()
    ensures { BlocksPartTurns }
{}
