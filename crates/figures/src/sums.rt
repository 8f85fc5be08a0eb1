// The figures of parts put together.
ghost use Rattle.std.specs.Prelude.{◌≡◌, max};
ghost use Rattle.rules.specs.Limits.{unbounded_mark};
ghost use Rattle.rules.specs.Worst.{add_w, max_w};
ghost use Rattle.ticks.specs.Bounds.{bound_of, cut};

use rules::Limits;

// The stack that a part needs, and its worst case as `ticks` holds it.
#[derive(Clone, Copy, Default)]
pub(crate) struct Figures {
    pub depth: u32,
    pub worst: u32,
}

impl Figures {
    // One tick, with nothing on the stack.
    pub(crate) const TICK: Self = Self { depth: 0, worst: 1 };

    // One part after another.
    pub(crate) fn then(self, next: Self) -> Self
        ensures { result ≡ record { depth = max self.depth next.depth; worst = cut (add_w (bound_of self.worst) (bound_of next.worst)) } }
    {
        Self {
            depth: self.depth.max(next.depth),
            worst: ticks::add(self.worst, next.worst),
        }
    }

    // One part or another.
    pub(crate) fn or(self, other: Self) -> Self
        ensures { result ≡ record { depth = max self.depth other.depth; worst = cut (max_w (bound_of self.worst) (bound_of other.worst)) } }
    {
        Self {
            depth: self.depth.max(other.depth),
            worst: ticks::larger(self.worst, other.worst),
        }
    }

    // A part that holds an expression, which needs so much stack.
    pub(crate) fn holding(self, depth: u32) -> Self
        ensures { result ≡ record { depth = max depth self.depth; worst = self.worst } }
    {
        Self {
            depth: depth.max(self.depth),
            ..self
        }
    }

    // A part that a loop repeats until a condition ends it.
    pub(crate) fn unbounded(self) -> Self
        ensures { result ≡ record { depth = self.depth; worst = unbounded_mark } }
    {
        Self {
            worst: Limits::UNBOUNDED,
            ..self
        }
    }
}
