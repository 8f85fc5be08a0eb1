// Declarations, and the whole program.
ghost use Rattle.std.specs.Prelude.{◌≡◌, ◌*◌, ◌<◌, ◌≤◌, length, OnOk};
ghost use Rattle.rules.specs.Limits.{token_numbers, memory_numbers};
ghost use Rattle.rules.specs.Cells.{decl_cells, decls_cells, tree_cells};
ghost use Rattle.rules.specs.Syntax.{declaration, declarations, variables, program};
ghost use Rattle.parse.specs.Steps.{Fits, Stays, Moves};
ghost use Rattle.parse.specs.Reading.{Reads, ReadsWith};
ghost use Rattle.parse.specs.Parts.{declared_type, type_cell};

use super::parser::Parser;
use super::statements::Nesting;
use cells::Cell;
use rules::{Kind, Refusal};

impl Parser<'_> {
    // The type, as the tag of the name's cell.
    fn declared_type(&mut self, name: Cell) -> Result<(), Refusal>
        requires { Fits 0 self.old }
        ensures stays { Stays self.old self.new }
        ensures fine { Moves 0 self.old result self.new }
        ensures means { Reads (type_cell name.place name.datum) self.old result self.new declared_type }
    {
        if self.is_at(Kind::Bool) {
            self.skip();
            self.write(Kind::Bool, name.place, name.datum);
            return Ok(());
        }
        self.take(Kind::Dint)?;
        self.write(Kind::Dint, name.place, name.datum);
        Ok(())
    }

    fn declaration(&mut self) -> Result<(), Refusal>
        requires { Fits 3 self.old }
        ensures stays { Stays self.old self.new }
        ensures fine { Moves 0 self.old result self.new }
        ensures on { OnOk result (self.old.next < self.new.next) }
        ensures means { Reads decl_cells self.old result self.new declaration }
    {
        let name = self.token();
        self.take(Kind::Name)?;
        self.take(Kind::Colon)?;
        self.declared_type(name)?;
        self.maybe_constant(Kind::Assign)?;
        self.take(Kind::Semi)
    }

    fn declarations(&mut self) -> Result<(), Refusal>
        requires { Fits 3 self.old }
        ensures stays { Stays self.old self.new }
        ensures fine { Moves 3 self.old result self.new }
        ensures means { ReadsWith 1 1 decls_cells self.old result self.new declarations }
    {
        while self.is_at(Kind::Name) {
            self.declaration()?;
        }
        self.write(Kind::Finish, 0, 0);
        Ok(())
    }

    fn variables(&mut self) -> Result<(), Refusal>
        requires { Fits 3 self.old }
        ensures stays { Stays self.old self.new }
        ensures fine { Moves 3 self.old result self.new }
        ensures means { ReadsWith 1 1 decls_cells self.old result self.new variables }
    {
        if self.is_at(Kind::Var) {
            self.skip();
            self.declarations()?;
            return self.take(Kind::EndVar);
        }
        self.write(Kind::Finish, 0, 0);
        Ok(())
    }

    // The whole program.
    pub(crate) fn program(&mut self) -> Result<(), Refusal>
        requires { Fits 0 self.old }
        ensures stays { Stays self.old self.new }
        ensures fine { Moves 0 self.old result self.new }
        ensures means { ReadsWith 3 3 tree_cells self.old result self.new program }
    {
        self.take(Kind::Program)?;
        self.take(Kind::Name)?;
        self.variables()?;
        self.list(Nesting {
            statements: 0,
            fors: 0,
        })?;
        self.take(Kind::EndProgram)?;
        self.take(Kind::Finish)
    }
}
