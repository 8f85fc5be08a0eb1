// Statements and lists of them. They are written in prefix, and each list is closed by a cell.
ghost use Rattle.std.specs.Prelude.{◌≡◌, ◌+◌, ◌<◌, ◌≤◌, length, OnOk};
ghost use Rattle.rules.specs.Cells.{WHOLE, name_cell, stm_cells, list_cells, branch_cells, group_cells};
ghost use Rattle.rules.specs.KindNumbers.{kind_number};
ghost use Rattle.rules.specs.Syntax.{take_name, assignment, if_then, case_of, for_do, while_do, repeat_until, expr, labels, one_group, statement, list, branches, groups};
ghost use Rattle.parse.specs.Steps.{Fits, Stays, Moves, Begins, kind_ahead};
ghost use Rattle.parse.specs.Reading.{Reads, ReadsWith};
ghost use Rattle.parse.specs.Parts.{element, element_cells, starts_element, one_condition, condition_cells, one_labelled, labelled_cells, otherwise, otherwise_cells, conditions, compound};

use super::parser::Parser;
use rules::{Fault, Kind, Refusal};

// How many IFs, CASEs and loops are around, and how many of them are FORs.
#[derive(Clone, Copy)]
pub(crate) struct Nesting {
    pub statements: u32,
    pub fors: u32,
}

// How many may be.
const MOST: Nesting = Nesting {
    statements: 16,
    fors: 8,
};

#[tactic(auto, unfolding(crate::specs::Parts::starts_element, rules::specs::Syntax::starts_statement))]
fn starts_element(kind: Kind) -> bool
    ensures { result ≡ starts_element (kind_number kind) }
{
    matches!(
        kind,
        Kind::Semi
            | Kind::Name
            | Kind::If
            | Kind::Case
            | Kind::For
            | Kind::While
            | Kind::Repeat
            | Kind::Exit
    )
}

impl Parser<'_> {
    fn at_element(&self) -> bool
        requires { Fits 0 self.now }
        ensures { Begins starts_element self.now result }
    {
        self.kind().is_ok_and(starts_element)
    }

    // A name, in a cell with this tag.
    fn named(&mut self, tag: Kind) -> Result<(), Refusal>
        requires { Fits 0 self.old }
        ensures stays { Stays self.old self.new }
        ensures fine { Moves 0 self.old result self.new }
        ensures means { Reads (name_cell (kind_number tag)) self.old result self.new take_name }
    {
        let token = self.token();
        self.take(Kind::Name)?;
        self.write(tag, token.place, token.datum);
        Ok(())
    }

    fn assignment(&mut self) -> Result<(), Refusal>
        requires { Fits 3 self.old }
        ensures stays { Stays self.old self.new }
        ensures fine { Moves 0 self.old result self.new }
        ensures means { ReadsWith 2 2 stm_cells self.old result self.new (λ f. assignment (expr f 0 1)) }
    {
        self.named(Kind::Assign)?;
        self.take(Kind::Assign)?;
        self.whole()
    }

    // ELSE and a list, or the cell that stands for nothing.
    #[cycle(statements)]
    fn otherwise(&mut self, nothing: Kind, nesting: Nesting) -> Result<(), Refusal>
        requires { Fits 3 self.old }
        ensures stays { Stays self.old self.new }
        ensures fine { Moves 3 self.old result self.new }
        ensures means { ReadsWith 3 3 (otherwise_cells (kind_number nothing)) self.old result self.new (λ f. otherwise f nesting.statements nesting.fors) }
    {
        if self.is_at(Kind::Else) {
            self.skip();
            self.write(Kind::Else, 0, 0);
            return self.list(nesting);
        }
        self.write(nothing, 0, 0);
        Ok(())
    }

    // A condition, THEN, a list.
    #[cycle(statements)]
    fn branch(&mut self, nesting: Nesting) -> Result<(), Refusal>
        requires { Fits 6 self.old }
        ensures stays { Stays self.old self.new }
        ensures fine { Moves 3 self.old result self.new }
        ensures means { ReadsWith 3 3 condition_cells self.old result self.new (λ f. one_condition f nesting.statements nesting.fors) }
    {
        self.write(Kind::Then, 0, 0);
        self.whole()?;
        self.take(Kind::Then)?;
        self.list(nesting)
    }

    // The branches of IF behind the word, and ELSE.
    #[cycle(statements)]
    fn branches(&mut self, nesting: Nesting) -> Result<(), Refusal>
        requires { Fits 6 self.old }
        ensures stays { Stays self.old self.new }
        ensures fine { Moves 6 self.old result self.new }
        ensures means { ReadsWith 3 3 branch_cells self.old result self.new
            (λ f. conditions (expr f 0 1) (list f nesting.statements nesting.fors) (branches f nesting.statements nesting.fors)) }
    {
        self.branch(nesting)?;
        while self.is_at(Kind::Elsif) {
            self.skip();
            self.branch(nesting)?;
        }
        self.otherwise(Kind::EndIf, nesting)
    }

    #[cycle(statements)]
    fn if_then(&mut self, nesting: Nesting) -> Result<(), Refusal>
        requires { Fits 3 self.old × (self.old.next < self.old.count) }
        ensures stays { Stays self.old self.new }
        ensures fine { Moves 0 self.old result self.new }
        ensures means { ReadsWith 3 1 stm_cells self.old result self.new (λ f. if_then (branches f nesting.statements nesting.fors)) }
    {
        self.skip();
        self.write(Kind::If, 0, 0);
        self.branches(nesting)?;
        self.take(Kind::EndIf)
    }

    // Labels, `:`, a list.
    #[cycle(statements)]
    fn group(&mut self, nesting: Nesting) -> Result<(), Refusal>
        requires { Fits 3 self.old }
        ensures stays { Stays self.old self.new }
        ensures fine { Moves 0 self.old result self.new }
        ensures on { OnOk result (self.old.next < self.new.next) }
        ensures means { ReadsWith 3 3 labelled_cells self.old result self.new (λ f. one_labelled f nesting.statements nesting.fors) }
    {
        self.labels()?;
        self.take(Kind::Colon)?;
        self.list(nesting)
    }

    // The groups of CASE, and ELSE.
    #[cycle(statements)]
    fn groups(&mut self, nesting: Nesting) -> Result<(), Refusal>
        requires { Fits 3 self.old }
        ensures stays { Stays self.old self.new }
        ensures fine { Moves 3 self.old result self.new }
        ensures means { ReadsWith 3 3 group_cells self.old result self.new
            (λ f. one_group (labels f) (list f nesting.statements nesting.fors) (groups f nesting.statements nesting.fors)) }
    {
        self.group(nesting)?;
        while self.at_constant() {
            self.group(nesting)?;
        }
        self.otherwise(Kind::EndCase, nesting)
    }

    #[cycle(statements)]
    fn case_of(&mut self, nesting: Nesting) -> Result<(), Refusal>
        requires { Fits 3 self.old × (self.old.next < self.old.count) }
        ensures stays { Stays self.old self.new }
        ensures fine { Moves 0 self.old result self.new }
        ensures means { ReadsWith 3 1 stm_cells self.old result self.new (λ f. case_of (expr f 0 1) (groups f nesting.statements nesting.fors)) }
    {
        self.skip();
        self.write(Kind::Case, 0, 0);
        self.whole()?;
        self.take(Kind::Of)?;
        self.groups(nesting)?;
        self.take(Kind::EndCase)
    }

    #[cycle(statements)]
    fn for_do(&mut self, nesting: Nesting) -> Result<(), Refusal>
        requires { Fits 3 self.old × (self.old.next < self.old.count) }
        ensures stays { Stays self.old self.new }
        ensures fine { Moves 0 self.old result self.new }
        ensures means { ReadsWith 3 1 stm_cells self.old result self.new (λ f. for_do (expr f 0 1) (list f nesting.statements nesting.fors)) }
    {
        self.skip();
        self.named(Kind::For)?;
        self.take(Kind::Assign)?;
        self.whole()?;
        self.take(Kind::To)?;
        self.whole()?;
        self.maybe_constant(Kind::By)?;
        self.take(Kind::Do)?;
        self.list(nesting)?;
        self.take(Kind::EndFor)
    }

    #[cycle(statements)]
    fn while_do(&mut self, nesting: Nesting) -> Result<(), Refusal>
        requires { Fits 3 self.old × (self.old.next < self.old.count) }
        ensures stays { Stays self.old self.new }
        ensures fine { Moves 0 self.old result self.new }
        ensures means { ReadsWith 3 1 stm_cells self.old result self.new (λ f. while_do (expr f 0 1) (list f nesting.statements nesting.fors)) }
    {
        self.skip();
        self.write(Kind::While, 0, 0);
        self.whole()?;
        self.take(Kind::Do)?;
        self.list(nesting)?;
        self.take(Kind::EndWhile)
    }

    #[cycle(statements)]
    fn repeat_until(&mut self, nesting: Nesting) -> Result<(), Refusal>
        requires { Fits 3 self.old × (self.old.next < self.old.count) }
        ensures stays { Stays self.old self.new }
        ensures fine { Moves 0 self.old result self.new }
        ensures means { ReadsWith 3 1 stm_cells self.old result self.new (λ f. repeat_until (expr f 0 1) (list f nesting.statements nesting.fors)) }
    {
        self.skip();
        self.write(Kind::Repeat, 0, 0);
        self.list(nesting)?;
        self.take(Kind::Until)?;
        self.whole()?;
        self.take(Kind::EndRepeat)
    }

    // IF, CASE and loops, within so many of them.
    #[cycle(statements)]
    fn compound(&mut self, kind: Kind, nesting: Nesting) -> Result<(), Refusal>
        requires { Fits 3 self.old × (self.old.next < self.old.count) × (kind_ahead self.old ≡ kind_number kind) }
        ensures stays { Stays self.old self.new }
        ensures fine { Moves 0 self.old result self.new }
        ensures means { ReadsWith 3 1 stm_cells self.old result self.new (λ f. compound f nesting.statements nesting.fors) }
    {
        if MOST.statements <= nesting.statements {
            return Err(self.refusal(Fault::TooDeep));
        }
        let within = Nesting {
            statements: nesting.statements + 1,
            fors: nesting.fors,
        };
        match kind {
            Kind::If => self.if_then(within),
            Kind::Case => self.case_of(within),
            Kind::For => {
                if MOST.fors <= nesting.fors {
                    return Err(self.refusal(Fault::TooDeep));
                }
                self.for_do(Nesting {
                    statements: within.statements,
                    fors: nesting.fors + 1,
                })
            }
            Kind::While => self.while_do(within),
            _ => self.repeat_until(within),
        }
    }

    #[cycle(statements)]
    fn statement(&mut self, nesting: Nesting) -> Result<(), Refusal>
        requires { Fits 3 self.old × (self.old.next < self.old.count) × (kind_ahead self.old ≤ WHOLE) }
        ensures stays { Stays self.old self.new }
        ensures fine { Moves 0 self.old result self.new }
        ensures means { ReadsWith 3 2 stm_cells self.old result self.new (λ f. statement f nesting.statements nesting.fors) }
    {
        let kind = self.kind()?;
        match kind {
            Kind::Name => self.assignment(),
            Kind::Exit => {
                let place = self.token().place;
                self.skip();
                self.write(Kind::Exit, place, 0);
                Ok(())
            }
            _ => self.compound(kind, nesting),
        }
    }

    // A lone `;`, or a statement and its `;`.
    #[cycle(statements)]
    fn element(&mut self, nesting: Nesting) -> Result<(), Refusal>
        requires { Fits 3 self.old × (self.old.next < self.old.count) × (kind_ahead self.old ≤ WHOLE) }
        ensures stays { Stays self.old self.new }
        ensures fine { Moves 0 self.old result self.new }
        ensures on { OnOk result (self.old.next < self.new.next) }
        ensures means { ReadsWith 3 2 element_cells self.old result self.new (λ f. element f nesting.statements nesting.fors) }
    {
        if self.is_at(Kind::Semi) {
            self.skip();
            return Ok(());
        }
        self.statement(nesting)?;
        self.take(Kind::Semi)
    }

    // A list ends at a token that starts no statement.
    #[cycle(statements)]
    pub(crate) fn list(&mut self, nesting: Nesting) -> Result<(), Refusal>
        requires { Fits 3 self.old }
        ensures stays { Stays self.old self.new }
        ensures fine { Moves 3 self.old result self.new }
        ensures means { ReadsWith 3 3 list_cells self.old result self.new (λ f. list f nesting.statements nesting.fors) }
    {
        while self.at_element() {
            self.element(nesting)?;
        }
        self.write(Kind::Finish, 0, 0);
        Ok(())
    }
}
