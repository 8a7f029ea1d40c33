ghost use Rattle.std.specs.Prelude.{◌≡◌, ◌||◌};
ghost use Rattle.range_sign.specs.Spans.{with_place, with_span, meet, meet_written};

/// The places of an array from the least to the greatest.
#[derive(Clone, Copy, Debug)]
pub struct Span {
    pub least: u64,
    pub greatest: u64,
}

/// The span of the places that were read, and of those that were written; none where no place was.
#[derive(Clone, Copy, Debug)]
pub struct Spans {
    pub read: Option<Span>,
    pub written: Option<Span>,
}

/// No place.
pub const NO_SPANS: Spans = Spans {
    read: None,
    written: None,
};

/// A span with one place more.
pub fn with_place(span: Option<Span>, place: u64) -> Option<Span>
    ensures { result ≡ with_place span place }
{
    let (least, greatest) = match span {
        None => (place, place),
        Some(span) => (span.least.min(place), span.greatest.max(place)),
    };
    Some(Span { least, greatest })
}

/// The spans with one place more, written or else read.
pub fn with_span(spans: Spans, place: u64, write: bool) -> Spans
    ensures { result ≡ with_span spans place write }
{
    if write {
        Spans {
            written: with_place(spans.written, place),
            ..spans
        }
    } else {
        Spans {
            read: with_place(spans.read, place),
            ..spans
        }
    }
}

/// Whether two spans have a common place.
pub fn meet(first: Option<Span>, second: Option<Span>) -> bool
    ensures { result ≡ meet first second }
{
    match (first, second) {
        (Some(first), Some(second)) => {
            first.least.max(second.least) <= first.greatest.min(second.greatest)
        }
        _ => false,
    }
}

/// Whether a place that one has written is one that the other has read or written.
fn meet_written(own: &Spans, others: &Spans) -> bool
    ensures { result ≡ meet_written own.now others.now }
{
    meet(own.written, others.read) || meet(own.written, others.written)
}

/// Whether the spans of two have a common place, one of them written.
pub fn conflict(own: &Spans, others: &Spans) -> bool
    ensures { result ≡ (meet_written own.now others.now || meet_written others.now own.now) }
{
    meet_written(own, others) || meet_written(others, own)
}
