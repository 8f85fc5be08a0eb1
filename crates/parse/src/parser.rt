// Where reading stands in the tokens, and what it writes behind them.
ghost use Rattle.std.specs.Prelude.{◌≡◌, ◌+◌, ◌≤◌, ◌<◌, length, OnOk};
ghost use Rattle.rules.specs.Cells.{cell};
ghost use Rattle.rules.specs.KindNumbers.{kind_number};
ghost use Rattle.rules.specs.Syntax.{take};
ghost use Rattle.parse.specs.Steps.{at, Fits, Stays, Moves, Writes, Skips, token_at, place_ahead, Sees, Meets};
ghost use Rattle.parse.specs.Reading.{nothing, Reads};

use cells::Cell;
use rules::{Fault, Kind, Refusal};

// Lent numbers: the tokens, three numbers each, and behind them the tree as far as it is written. That it may go on stands in each contract
// (`Fits`), since a struct that holds a `&mut` takes no ghost field.
#[derive(Drop)]
pub(crate) struct Parser<'a> {
    pub memory: &'a mut [u32],
    // So many tokens.
    pub count: usize,
    // The next of them.
    pub next: usize,
    // The first number that is not written.
    pub free: usize,
}

impl Parser<'_> {
    // The next token: its kind's number, its place, and a name's length or an integer's value; zeros behind the last.
    pub(crate) fn token(&self) -> Cell
        requires { Fits 0 self.now }
        ensures { result ≡ token_at self.now.memory.now (at self.now) }
    {
        if self.next < self.count {
            let first = 3 * self.next;
            return Cell {
                tag: self.memory[first],
                place: self.memory[first + 1],
                datum: self.memory[first + 2],
            };
        }
        Cell::default()
    }

    // The next token's kind. A number that stands for none is unexpected.
    pub(crate) fn kind(&self) -> Result<Kind, Refusal>
        requires { Fits 0 self.now }
        ensures { Meets self.now result }
    {
        let Ok(kind) = self.token().kind() else {
            return Err(self.refusal(Fault::Unexpected));
        };
        Ok(kind)
    }

    pub(crate) fn is_at(&self, kind: Kind) -> bool
        requires { Fits 0 self.now }
        ensures { Sees self.now kind result }
    {
        self.token().is(kind)
    }

    // Past the next token.
    pub(crate) fn skip(&mut self)
        requires { self.old.next < self.old.count }
        ensures stays { Stays self.old self.new }
        ensures fine { (self.new.next ≡ self.old.next + 1) × (self.new.free ≡ self.old.free) }
        ensures means { Skips self.old.memory.now self.new.memory.now (at self.old) (at self.new) }
    {
        self.next += 1;
    }

    // The refusal at the next token.
    pub(crate) fn refusal(&self, fault: Fault) -> Refusal
        requires { Fits 0 self.now }
        ensures { result ≡ record { fault = fault; place = place_ahead self.now } }
    {
        Refusal {
            fault,
            place: self.token().place as usize,
        }
    }

    // The next token is of this kind, and is skipped.
    pub(crate) fn take(&mut self, kind: Kind) -> Result<(), Refusal>
        requires { Fits 0 self.old }
        ensures stays { Stays self.old self.new × (self.new.memory.now ≡ self.old.memory.now) }
        ensures fine { Moves 0 self.old result self.new }
        ensures paid { OnOk result (1 ≤ kind_number kind → (self.new.next ≡ self.old.next + 1) × (self.new.free ≡ self.old.free)) }
        ensures means { Reads nothing self.old result self.new (take (kind_number kind)) }
    {
        if !self.is_at(kind) {
            return Err(self.refusal(Fault::Unexpected));
        }
        if self.next < self.count {
            self.skip();
        }
        Ok(())
    }

    // A cell behind what is written.
    pub(crate) fn write(&mut self, tag: Kind, place: u32, datum: u32)
        requires { self.old.free + 3 ≤ length self.old.memory.now }
        ensures stays { Stays self.old self.new }
        ensures fine { (self.new.next ≡ self.old.next) × (self.new.free ≡ self.old.free + 3) }
        ensures means { Writes (cell (kind_number tag) place datum) self.old.memory.now self.new.memory.now (at self.old) (at self.new) }
    {
        self.memory[self.free] = tag.number();
        self.memory[self.free + 1] = place;
        self.memory[self.free + 2] = datum;
        self.free += 3;
    }
}
