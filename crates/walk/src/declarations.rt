// Declarations: each name is entered, and its variable written.
ghost use Rattle.std.specs.Prelude.{◌≡◌, ◌+◌, ◌<◌, IsOk};
ghost use Rattle.rules.specs.Walk.{find, is_none};
ghost use Rattle.names.specs.Rows.{spelling, rows_from};
ghost use Rattle.walk.specs.Places.{at, after, type_number, declared};
ghost use Rattle.walk.specs.Moving.{Keeps, Goes};
ghost use Rattle.walk.specs.Steps.{Moves};
ghost use Rattle.walk.specs.Declaring.{InitialMeans, DeclarationMeans, DeclarationsMean};

use super::operands::{number_of, same_type, tag_of, type_of};
use super::steps::{Walk, need};
use cells::Cell;
use rules::{Fault, Kind, Refusal, Type};

impl Walk<'_> {
    // A variable of this type and initial value: 4, 8 at the name; missing: 0.
    fn initial(&mut self, kind: Type, place: u32) -> Result<(), Refusal>
        ensures keeps { Keeps self.old self.new }
        ensures walks { Goes 3 self.old self.new (after result self.new) (InitialMeans (record { tag = type_number kind; place = place; datum = 0 })) }
    {
        if self.is_at(Kind::Finish) {
            self.skip();
            self.write(tag_of(kind), 0, 0);
            return Ok(());
        }
        let value = self.constant()?;
        need(same_type(value.kind, kind), Fault::WrongType, place)?;
        self.write(tag_of(kind), 0, value.bits);
        Ok(())
    }

    // Whether none of so many names has the letters of a name.
    fn is_new(&self, text: &[u8], count: u32, name: Cell) -> bool
        ensures { result ≡ is_none (find (spelling text.now name.place name.datum) 0 (rows_from text.now self.now.memory.now 0 count)) }
    {
        names::find(text, self.memory, count, name.place, name.datum).is_none()
    }

    // A declaration behind so many others: 6, 9, 4, 8.
    fn declaration(&mut self, text: &[u8], count: u32) -> Result<(), Refusal>
        ensures keeps { Keeps self.old self.new }
        ensures few { IsOk result → count < 64 }
        ensures walks { Moves 3 self.old.memory.now self.new.memory.now (at self.old) (after result self.new) × DeclarationMeans text.now count self.old.memory.now self.new.memory.now (at self.old) (record { step = after result self.new; count = count + 1 }) }
    {
        let name = self.next();
        need(
            self.is_new(text, count, name),
            Fault::Redeclared,
            name.place,
        )?;
        need(count < 64, Fault::ManyVariables, name.place)?;
        let kind = type_of(name.tag);
        names::enter(self.memory, count, number_of(kind), name.place, name.datum);
        self.initial(kind, name.place)
    }

    // The declarations, up to the cell that closes them: how many names are entered.
    pub fn declarations(&mut self, text: &[u8]) -> Result<u32, Refusal>
        ensures keeps { Keeps self.old self.new }
        ensures means { DeclarationsMean text.now self.old.memory.now self.new.memory.now (at self.old) (declared result self.new) }
    {
        let mut count: u32 = 0;
        while !self.is_at(Kind::Finish) {
            self.declaration(text, count)?;
            count += 1;
        }
        self.head(Kind::Finish);
        Ok(count)
    }
}
