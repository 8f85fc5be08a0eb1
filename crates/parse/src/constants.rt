// Constants, and the labels of CASE.
ghost use Rattle.std.specs.Prelude.{◌≡◌, ◌≤◌};
ghost use Rattle.rules.specs.Cells.{con_cells, maybe_cells, label_cells, labels_cells};
ghost use Rattle.rules.specs.Kinds.{INT};
ghost use Rattle.rules.specs.KindNumbers.{kind_number};
ghost use Rattle.rules.specs.Syntax.{constant, maybe, one_label, labels, starts_constant, take};
ghost use Rattle.parse.specs.Steps.{Fits, Stays, Moves, Begins};
ghost use Rattle.parse.specs.Reading.{Reads, ReadsWith};
ghost use Rattle.parse.specs.Parts.{integer_cells};

use super::parser::Parser;
use rules::{Kind, Refusal};

#[tactic(auto, unfolding(rules::specs::Syntax::starts_constant))]
fn starts_constant(kind: Kind) -> bool
    ensures { result ≡ starts_constant (kind_number kind) }
{
    matches!(
        kind,
        Kind::Int | Kind::True | Kind::False | Kind::Minus | Kind::Plus
    )
}

impl Parser<'_> {
    pub(crate) fn at_constant(&self) -> bool
        requires { Fits 0 self.now }
        ensures { Begins starts_constant self.now result }
    {
        self.kind().is_ok_and(starts_constant)
    }

    // An integer, in a constant with this sign that starts at this place.
    fn integer(&mut self, sign: Kind, place: u32) -> Result<(), Refusal>
        requires { Fits 0 self.old }
        ensures stays { Stays self.old self.new }
        ensures fine { Moves 0 self.old result self.new }
        ensures means { Reads (integer_cells (kind_number sign) place) self.old result self.new (take INT) }
    {
        let token = self.token();
        self.take(Kind::Int)?;
        self.write(sign, place, 0);
        self.write(Kind::Int, token.place, token.datum);
        Ok(())
    }

    pub(crate) fn constant(&mut self) -> Result<(), Refusal>
        requires { Fits 0 self.old }
        ensures stays { Stays self.old self.new }
        ensures fine { Moves 0 self.old result self.new }
        ensures means { Reads con_cells self.old result self.new constant }
    {
        let place = self.token().place;
        let kind = self.kind()?;
        match kind {
            Kind::Minus | Kind::Plus => {
                self.skip();
                self.integer(kind, place)
            }
            Kind::True | Kind::False => {
                self.skip();
                self.write(kind, place, 0);
                Ok(())
            }
            _ => self.integer(Kind::Plus, place),
        }
    }

    // A constant if a token of this kind stands before it.
    pub(crate) fn maybe_constant(&mut self, before: Kind) -> Result<(), Refusal>
        requires { Fits 3 self.old × (1 ≤ kind_number before) }
        ensures stays { Stays self.old self.new }
        ensures fine { Moves 3 self.old result self.new }
        ensures means { Reads maybe_cells self.old result self.new (maybe (kind_number before)) }
    {
        if self.is_at(before) {
            self.skip();
            return self.constant();
        }
        self.write(Kind::Finish, 0, 0);
        Ok(())
    }

    // A constant, or low`..`high.
    fn label(&mut self) -> Result<(), Refusal>
        requires { Fits 0 self.old }
        ensures stays { Stays self.old self.new }
        ensures fine { Moves 0 self.old result self.new }
        ensures means { Reads label_cells self.old result self.new one_label }
    {
        self.constant()?;
        if !self.is_at(Kind::Dots) {
            return Ok(());
        }
        self.skip();
        self.write(Kind::Dots, 0, 0);
        self.constant()
    }

    // Labels with commas between.
    pub(crate) fn labels(&mut self) -> Result<(), Refusal>
        requires { Fits 3 self.old }
        ensures stays { Stays self.old self.new }
        ensures fine { Moves 3 self.old result self.new }
        ensures means { ReadsWith 1 1 labels_cells self.old result self.new labels }
    {
        self.label()?;
        while self.is_at(Kind::Comma) {
            self.skip();
            self.label()?;
        }
        self.write(Kind::Colon, 0, 0);
        Ok(())
    }
}
