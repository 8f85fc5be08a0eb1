// Reading cell after cell.
ghost use Rattle.std.specs.Prelude.{◌≡◌, eqb, not};
ghost use Rattle.rules.specs.KindNumbers.{kind_number};
ghost use Rattle.cells.specs.Reading.{cell_in, behind, is_item, IsAhead, IsNext, Takes};
ghost use Rattle.cells.specs.Runs.{Reads};

use super::Cell;
use rules::Kind;

// A place in lent numbers. A copy of it looks ahead.
#[derive(Clone, Copy)]
pub struct Reader<'a> {
    pub memory: &'a [u32],
    pub at: usize,
}

impl<'a> Reader<'a> {
    pub fn new(memory: &'a [u32], at: usize) -> Self
        ensures memory { result.memory.now ≡ memory.now }
        ensures at { result.at ≡ at }
    {
        Self { memory, at }
    }

    // The cell ahead, if a whole one lies there.
    fn ahead(&self) -> Option<Cell>
        ensures { IsAhead self.now.memory.now self.now.at result }
    {
        match self.memory.get(self.at..) {
            Some([tag, place, datum, ..]) => Some(Cell {
                tag: *tag,
                place: *place,
                datum: *datum,
            }),
            _ => None,
        }
    }

    // The cell ahead; zeros where there is none.
    #[tactic(auto, using(crate::specs::Laws::cell_none))]
    pub fn cell(&self) -> Cell
        ensures { result ≡ cell_in self.now.memory.now self.now.at }
    {
        self.ahead().unwrap_or_default()
    }

    pub fn is_at(&self, kind: Kind) -> bool
        ensures { result ≡ eqb (cell_in self.now.memory.now self.now.at).tag (kind_number kind) }
    {
        self.cell().is(kind)
    }

    // The cell ahead, and goes behind it; to the end where there is none.
    fn advance(&mut self) -> Option<Cell>
        ensures next { IsNext self.old.memory.now self.old.at result self.new.at }
        ensures same { self.new.memory.now ≡ self.old.memory.now }
    {
        let cell = self.ahead();
        if cell.is_some() {
            self.at += 3;
        } else {
            self.at = self.memory.len();
        }
        cell
    }

    // The cell ahead, and goes behind it; zeros, and to the end, where there is none.
    #[tactic(auto, using(crate::specs::Laws::cell_none, crate::specs::Laws::behind_some, crate::specs::Laws::behind_none))]
    pub fn read(&mut self) -> Cell
        ensures gives { result ≡ cell_in self.old.memory.now self.old.at }
        ensures moves { self.new.at ≡ behind self.old.memory.now self.old.at }
        ensures same { self.new.memory.now ≡ self.old.memory.now }
    {
        self.advance().unwrap_or_default()
    }

    // The cell ahead if it fits, and goes behind it; else stays.
    fn next_fitting(&mut self, fits: bool) -> Option<Cell>
        ensures takes { Takes fits self.old.memory.now self.old.at result self.new.at }
        ensures same { self.new.memory.now ≡ self.old.memory.now }
    {
        if fits { Some(self.read()) } else { None }
    }

    // The cell ahead if it is one of an expression, and goes behind it; else stays.
    pub fn next_item(&mut self) -> Option<Cell>
        ensures takes { Takes (is_item (cell_in self.old.memory.now self.old.at).tag) self.old.memory.now self.old.at result self.new.at }
        ensures same { self.new.memory.now ≡ self.old.memory.now }
    {
        let fits = self.cell().is_item();
        self.next_fitting(fits)
    }

    // The cell ahead if it is of this kind, and goes behind it; else stays.
    pub fn next_if(&mut self, kind: Kind) -> Option<Cell>
        ensures takes { Takes (eqb (cell_in self.old.memory.now self.old.at).tag (kind_number kind)) self.old.memory.now self.old.at result self.new.at }
        ensures same { self.new.memory.now ≡ self.old.memory.now }
    {
        let fits = self.is_at(kind);
        self.next_fitting(fits)
    }

    // The cell ahead if it is of another kind, and goes behind it; else stays.
    pub fn next_unless(&mut self, kind: Kind) -> Option<Cell>
        ensures takes { Takes (not (eqb (cell_in self.old.memory.now self.old.at).tag (kind_number kind))) self.old.memory.now self.old.at result self.new.at }
        ensures same { self.new.memory.now ≡ self.old.memory.now }
    {
        let fits = !self.is_at(kind);
        self.next_fitting(fits)
    }

    // The first cell of this kind, and goes behind it; zeros, and to the end, where none comes.
    pub fn read_past(&mut self, kind: Kind) -> Cell
        ensures reads { Reads self.old.memory.now (kind_number kind) self.old.at result self.new.at }
        ensures same { self.new.memory.now ≡ self.old.memory.now }
    {
        while let Some(cell) = self.advance() {
            if cell.is(kind) {
                return cell;
            }
        }
        Cell::default()
    }
}
