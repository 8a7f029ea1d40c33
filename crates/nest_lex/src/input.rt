//! The parts of the input: the nest, the data lines, the step words.

/// The parts of an input, by places in its bytes, from 0.
#[derive(Clone, Copy, Debug, PartialEq, Eq)]
pub struct Parts {
    /// Where the line that ends the nest begins, or the end of the input.
    pub nest_end: usize,
    /// From behind the line `data` up to the line `steps` or the end; `None` where there is no line `data`.
    pub values: Option<(usize, usize)>,
    /// The number of the line behind the line `data`, from 1; 0 where there is none.
    pub data_line: u32,
    /// The place behind the line `steps`; `None` where there is none.
    pub steps: Option<usize>,
}

/// What a line says that ends a part.
#[derive(Clone, Copy, Debug, PartialEq, Eq)]
pub enum Marker {
    Data,
    Steps,
}

/// A line that says a marker: where it begins, and where its line feed or the end is.
#[derive(Clone, Copy, Debug, PartialEq, Eq)]
pub struct MarkerLine {
    pub marker: Marker,
    pub start: usize,
    pub stop: usize,
}
