// What is around a statement: the names of the text, the variables of FORs, and whether there is a loop.
ghost use Rattle.std.specs.Prelude.{◌≡◌, true, false, ◌*◌, get_or, set, length};
ghost use Rattle.rules.specs.Answers.{type_as};
ghost use Rattle.names.specs.Rows.{type_of};
ghost use Rattle.walk.specs.Naming.{NameFound};

use super::steps::Walk;
use cells::Cell;
use rules::{Fault, Refusal, Type};

#[derive(Clone, Copy)]
pub(crate) struct Scope<'a> {
    pub text: &'a [u8],
    // How many names are entered.
    pub names: u32,
    // The slots that FORs around have.
    pub taken: [bool; 64],
    // Whether a loop is around.
    pub inside: bool,
}

impl<'a> Scope<'a> {
    // Whether a FOR around has a slot.
    pub fn is_taken(&self, slot: u32) -> bool
        ensures { result ≡ get_or self.now.taken slot false }
    {
        self.taken.get(slot as usize).copied().unwrap_or(false)
    }

    // Within a loop.
    pub fn in_loop(&self) -> Scope<'a>
        ensures { result ≡ record { text = self.now.text; names = self.now.names; taken = self.now.taken; inside = true } }
    {
        Scope {
            inside: true,
            ..*self
        }
    }

    // Within a FOR that takes a slot.
    pub fn taking(&self, slot: u32) -> Scope<'a>
        ensures around { result ≡ record { text = self.now.text; names = self.now.names; taken = set self.now.taken slot true; inside = true } }
        ensures long { length result.taken ≡ 64 }
    {
        let mut taken = self.taken;
        let i = slot as usize;
        if i < 64 {
            taken[i] = true;
        }
        Scope {
            taken,
            inside: true,
            ..*self
        }
    }
}

impl Walk<'_> {
    // The slot of a name: 7.
    pub fn slot_of(&self, scope: &Scope, name: Cell) -> Result<u32, Refusal>
        ensures { NameFound scope.now.text.now self.now.memory.now scope.now.names name result }
    {
        names::find(scope.text, self.memory, scope.names, name.place, name.datum).ok_or(Refusal {
            fault: Fault::Unknown,
            place: name.place as usize,
        })
    }

    // The type of the variable with a slot.
    pub fn type_of(&self, slot: u32) -> Type
        ensures { type_as result ≡ type_of (get_or self.now.memory.now (3 * slot) 0) }
    {
        names::type_of(self.memory, slot)
    }
}
