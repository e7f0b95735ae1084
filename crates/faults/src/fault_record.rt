// A fault as it stands in memory: its class, and where its wrong clocks and its name are.
ghost use Rattle.std.specs.Prelude.{◌≡◌, ◌+◌, ◌≤◌, length, take, drop, MatchOption};

// A part of some memory: where it begins, and how many elements it has.
#[derive(Clone, Copy, Debug, Default, PartialEq, Eq)]
pub struct Span {
    pub start: usize,
    pub len: usize,
}

impl Span {
    // The part of a memory, if it lies within.
    pub(crate) fn part<T>(self, memory: &[T]) -> Option<&[T]>
        ensures { MatchOption result (self.start + self.len ≤ length memory.now → ⊥) (λ part. (self.start + self.len ≤ length memory.now) × (part.now ≡ take self.len (drop self.start memory.now))) }
    {
        memory.get(self.start..)?.get(..self.len)
    }
}

// The clocks are a part of the clock memory, and the name is one of the text that the fault was read from.
// Spans and no slices: that memory is lent, and is still written while records are made.
#[derive(Clone, Copy, Debug, Default, PartialEq, Eq)]
pub struct FaultRecord {
    pub class: u8,
    pub clocks: Span,
    pub name: Span,
}
