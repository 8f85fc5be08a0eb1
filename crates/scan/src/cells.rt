// Tokens as they lie in lent memory: three numbers each.
ghost use Rattle.std.specs.Prelude.{◌≡◌, ◌+◌, ◌^◌, ◌≤◌, ◌<◌, length};
ghost use Rattle.std.proofs.lemmas.List.Edits.{sets};
ghost use Rattle.rules.specs.Cells.{cell};
ghost use Rattle.rules.specs.KindNumbers.{kind_number};

use rules::Kind;

#[derive(Clone, Copy)]
pub(crate) struct Cell {
    pub kind: Kind,
    pub place: usize,
    pub datum: u32,
}

impl Cell {
    pub(crate) fn put(self, memory: &mut [u32], at: usize)
        requires room { at + 3 ≤ length memory.old }
        requires small { self.place < 2 ^ 32 }
        ensures { memory.new ≡ sets memory.old at (cell (kind_number self.kind) self.place self.datum) }
    {
        memory[at] = self.kind.number();
        memory[at + 1] = self.place as u32;
        memory[at + 2] = self.datum;
    }
}
