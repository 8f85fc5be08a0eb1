// Where the walk stands in the tree, and what it writes of the core program over the part that it has read.
ghost use Rattle.std.specs.Prelude.{◌≡◌, ◌+◌, ◌≤◌, min, IsTrue, eqb, leb, length};
ghost use Rattle.rules.specs.KindNumbers.{kind_number};
ghost use Rattle.rules.specs.Cells.{cell};
ghost use Rattle.walk.specs.Places.{at};
ghost use Rattle.walk.specs.Steps.{stack_start, kept, cell_at, tag_at, skipped};
ghost use Rattle.walk.specs.Moving.{Tells, Skips, Writes, tested};

use cells::Cell;
use rules::{Fault, Kind, Limits, Refusal};

// Behind the tree the operands of an expression are stacked.
pub(crate) const STACK: usize = Limits::TOKEN_NUMBERS + Limits::TREE_NUMBERS;

// The kind with this number; the end's where no kind has it.
pub(crate) fn kind_of(tag: u32) -> Kind
    ensures { Tells tag result }
{
    match Kind::try_from(tag) {
        Ok(kind) => kind,
        Err(_) => Kind::Finish,
    }
}

// Goes on if the test holds.
#[tactic(auto, unfolding(crate::specs::Moving::tested))]
pub(crate) fn need(holds: bool, fault: Fault, place: u32) -> Result<(), Refusal>
    ensures { result ≡ tested holds fault place }
{
    if holds {
        return Ok(());
    }
    Err(Refusal {
        fault,
        place: place as usize,
    })
}

#[derive(Drop)]
pub(crate) struct Walk<'a> {
    pub memory: &'a mut [u32],
    // The next number of the tree.
    pub at: usize,
    // The first free number of the core program.
    pub free: usize,
    // Where the stack of operands ends.
    pub top: usize,
}

impl Walk<'_> {
    // Whether a cell at i ends before the stack.
    fn has_cell(&self, i: usize) -> bool
        ensures fits { result ≡ leb (i + 3) (length (kept self.now.memory.now)) }
        ensures room { IsTrue result → i + 3 ≤ min stack_start (length self.now.memory.now) }
    {
        let end = self.memory.len().min(STACK);
        3 <= end && i <= end - 3
    }

    // The cell ahead; zeros behind the last one.
    pub fn ahead(&self) -> Cell
        ensures { result ≡ cell_at self.now.memory.now (at self.now) }
    {
        let i = self.at;
        if self.has_cell(i) {
            return Cell {
                tag: self.memory[i],
                place: self.memory[i + 1],
                datum: self.memory[i + 2],
            };
        }
        Cell::default()
    }

    // Whether a cell of this kind is ahead.
    pub fn is_at(&self, kind: Kind) -> bool
        ensures { result ≡ eqb (tag_at self.now.memory.now (at self.now)) (kind_number kind) }
    {
        self.ahead().is(kind)
    }

    // Past the cell ahead.
    pub fn skip(&mut self)
        ensures { Skips self.old self.new }
    {
        let i = self.at;
        self.at = if self.has_cell(i) { i + 3 } else { STACK };
    }

    // The cell ahead, and past it.
    pub fn next(&mut self) -> Cell
        ensures cell { result ≡ cell_at self.old.memory.now (at self.old) }
        ensures past { Skips self.old self.new }
    {
        let cell = self.ahead();
        self.skip();
        cell
    }

    // A cell behind what is written.
    pub fn write(&mut self, kind: Kind, place: u32, datum: u32)
        ensures { Writes self.old (at self.old) (cell (kind_number kind) place datum) self.new }
    {
        let i = self.free;
        if self.has_cell(i) {
            self.memory[i] = kind.number();
            self.memory[i + 1] = place;
            self.memory[i + 2] = datum;
            self.free = i + 3;
        }
    }

    // The cell ahead is written with this kind alone.
    pub fn head(&mut self, kind: Kind)
        ensures { Writes self.old (skipped self.old.memory.now (at self.old)) (cell (kind_number kind) 0 0) self.new }
    {
        self.skip();
        self.write(kind, 0, 0);
    }
}
