use nest_syntax::Place;
use word_store::Words;

/// How a run ends: with the final words of all arrays, or at its first trap.
#[derive(Debug, Drop)]
pub enum Outcome {
    Done(Words),
    Trapped(Place),
}
