ghost use Rattle.std.specs.Prelude.{◌≡◌};
ghost use Rattle.wire.specs.Span.{part as part_of};

// Some items in a row, from `first` on, `count` of them.
#[derive(Clone, Copy, Debug, PartialEq)]
pub struct Span {
    pub first: usize,
    pub count: usize,
}

// The part of the items that a span names, cut where they end.
pub fn part<'a, T>(items: &'a [T], span: Span) -> &'a [T]
    ensures { result.now ≡ part_of items.now span }
{
    let first = span.first.min(items.len());
    let end = first + span.count.min(items.len() - first);
    &items[first..end]
}
