// Statements: names, types and loops around, in the order of the rules.
ghost use Rattle.std.specs.Prelude.{◌≡◌, ◌||◌, eqb};
ghost use Rattle.rules.specs.Kinds.{COLON};
ghost use Rattle.walk.specs.Places.{at, after, target};
ghost use Rattle.walk.specs.Moving.{Keeps, Goes, Within};
ghost use Rattle.walk.specs.Steps.{Moves, tag_at};
ghost use Rattle.walk.specs.Constants.{is_constant};
ghost use Rattle.walk.specs.Promises.{AssignedMeans, AssignmentMeans, LeaveMeans, ForHeadMeans, StatementMeans, ListMeans, BranchesMean, GroupsMean};

use super::constants::is_constant;
use super::operands::same_type;
use super::scope::Scope;
use super::steps::{Walk, kind_of, need};
use rules::{Fault, Kind, Refusal, Type};

// A variable that is assigned or taken by a FOR: its slot, its type, and the place of its name.
#[derive(Clone, Copy)]
pub(crate) struct Target {
    pub slot: u32,
    pub kind: Type,
    pub place: u32,
}

impl Walk<'_> {
    // 7, and 11 if an enclosing FOR has it.
    fn assigned(&mut self, scope: &Scope) -> Result<Target, Refusal>
        ensures keeps { Keeps self.old self.new }
        ensures walks { Moves 3 self.old.memory.now self.old.memory.now (at self.old) (target result self.new).step × AssignedMeans scope.now.text.now scope.now.names scope.now.taken self.old.memory.now (at self.old) (target result self.new) }
        ensures numbers { self.new.memory.now ≡ self.old.memory.now }
    {
        let name = self.next();
        let slot = self.slot_of(scope, name)?;
        need(!scope.is_taken(slot), Fault::LoopVariable, name.place)?;
        Ok(Target {
            slot,
            kind: self.type_of(slot),
            place: name.place,
        })
    }

    fn assignment(&mut self, scope: &Scope) -> Result<(), Refusal>
        ensures keeps { Keeps self.old self.new }
        ensures walks { Goes 3 self.old self.new (after result self.new) (AssignmentMeans scope.now.text.now scope.now.names scope.now.taken) }
    {
        let name = self.assigned(scope)?;
        self.write(Kind::Assign, 0, name.slot);
        self.valued(scope, name.kind, name.place)
    }

    // A FOR up to its list: its variable, its bounds, its step.
    fn for_head(&mut self, scope: &Scope) -> Result<Target, Refusal>
        ensures keeps { Keeps self.old self.new }
        ensures walks { Moves 3 self.old.memory.now self.new.memory.now (at self.old) (target result self.new).step × ForHeadMeans scope.now.text.now scope.now.names scope.now.taken self.old.memory.now self.new.memory.now (at self.old) (target result self.new) }
    {
        let name = self.assigned(scope)?;
        need(
            same_type(name.kind, Type::Dint),
            Fault::WrongType,
            name.place,
        )?;
        self.write(Kind::For, 0, name.slot);
        self.held(scope, Type::Dint, 0)?;
        self.held(scope, Type::Dint, 1)?;
        self.by()?;
        Ok(name)
    }

    // EXIT: 12 where no loop is around.
    fn leave(&mut self, scope: &Scope) -> Result<(), Refusal>
        ensures keeps { Keeps self.old self.new }
        ensures walks { Goes 3 self.old self.new (after result self.new) (LeaveMeans scope.now.inside) }
    {
        let word = self.next();
        need(scope.inside, Fault::ExitOutside, word.place)?;
        self.write(Kind::Exit, 0, 0);
        Ok(())
    }

    // Whether a group starts here: with a constant, or with the cell behind its labels if there are none.
    fn starts_group(&self) -> bool
        ensures { result ≡ (eqb (tag_at self.now.memory.now (at self.now)) COLON || is_constant (tag_at self.now.memory.now (at self.now))) }
    {
        self.is_at(Kind::Colon) || is_constant(self.ahead().tag)
    }

    // IF's branches, and ELSE.
    #[cycle(branches_groups_list_statement)]
    fn branches(&mut self, scope: &Scope) -> Result<(), Refusal>
        ensures keeps { Keeps self.old self.new }
        ensures walks { Goes 3 self.old self.new (after result self.new) (Within scope.now BranchesMean) }
    {
        while self.is_at(Kind::Then) {
            self.head(Kind::Then);
            self.held(scope, Type::Bool, 0)?;
            self.list(scope)?;
        }
        if self.is_at(Kind::Else) {
            self.head(Kind::Else);
            return self.list(scope);
        }
        self.head(Kind::EndIf);
        Ok(())
    }

    // CASE's groups, and ELSE, which may be missing: the code is the same.
    #[cycle(branches_groups_list_statement)]
    fn groups(&mut self, scope: &Scope) -> Result<(), Refusal>
        ensures keeps { Keeps self.old self.new }
        ensures walks { Goes 3 self.old self.new (after result self.new) (Within scope.now GroupsMean) }
    {
        while self.starts_group() {
            self.labels()?;
            self.list(scope)?;
        }
        if self.is_at(Kind::Else) {
            self.skip();
            return self.list(scope);
        }
        self.head(Kind::Finish);
        Ok(())
    }

    // A statement.
    #[cycle(branches_groups_list_statement)]
    fn statement(&mut self, scope: &Scope) -> Result<(), Refusal>
        ensures keeps { Keeps self.old self.new }
        ensures walks { Goes 3 self.old self.new (after result self.new) (Within scope.now StatementMeans) }
    {
        match kind_of(self.ahead().tag) {
            Kind::Assign => self.assignment(scope),
            Kind::If => {
                self.head(Kind::If);
                self.branches(scope)
            }
            Kind::Case => {
                self.head(Kind::Case);
                self.held(scope, Type::Dint, 0)?;
                self.groups(scope)
            }
            Kind::For => {
                let bounds = self.for_head(scope)?;
                self.list(&scope.taking(bounds.slot))
            }
            Kind::While => {
                self.head(Kind::While);
                self.held(scope, Type::Bool, 0)?;
                let body = scope.in_loop();
                self.list(&body)
            }
            Kind::Repeat => {
                self.head(Kind::Repeat);
                self.list(&scope.in_loop())?;
                self.held(scope, Type::Bool, 0)
            }
            _ => self.leave(scope),
        }
    }

    // A list, up to the cell that closes it.
    #[cycle(branches_groups_list_statement)]
    pub fn list(&mut self, scope: &Scope) -> Result<(), Refusal>
        ensures keeps { Keeps self.old self.new }
        ensures walks { Goes 3 self.old self.new (after result self.new) (Within scope.now ListMeans) }
    {
        while !self.is_at(Kind::Finish) {
            self.statement(scope)?;
        }
        self.head(Kind::Finish);
        Ok(())
    }
}
