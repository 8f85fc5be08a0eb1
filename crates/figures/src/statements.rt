// Statements: their depth and their worst case, by nesting, of which there are at most 16 levels.
ghost use Rattle.std.specs.Prelude.{◌≡◌};
ghost use Rattle.rules.specs.KindNumbers.{kind_number};
ghost use Rattle.cells.specs.Reading.{Moves};
ghost use Rattle.figures.specs.Parts.{part, StatementMeans, CompoundMeans, ForMeans, ListMeans, BranchesMean, GroupsMean, LoopMeans};

use super::expressions::{held, literal};
use super::sums::Figures;
use cells::Reader;
use rules::{Kind, Limits};

// A FOR's worst case: exact between integers, else unbounded.
fn loop_worst(first: Option<i32>, last: Option<i32>, step: u32, body: u32) -> u32
    ensures { LoopMeans first last step body result }
{
    let (Some(first), Some(last)) = (first, last) else {
        return Limits::UNBOUNDED;
    };
    ticks::looped(first, last, octets::signed(step), body)
}

// FOR, behind its first cell.
#[cycle(branches_compound_for_loop_groups_list_statement)]
fn for_loop(reader: &mut Reader<'_>, levels: u32) -> Figures
    ensures same { reader.new.memory.now ≡ reader.old.memory.now }
    ensures fine { Moves reader.old.memory.now reader.old.at reader.new.at }
    ensures means { ForMeans reader.old.memory.now reader.old.at levels (part reader.new.at result) }
{
    let first = literal(*reader);
    let initial = held(reader);
    let last = literal(*reader);
    let end = held(reader);
    let step = reader.read().datum;
    let body = list(reader, levels);
    Figures {
        depth: initial.max(end).max(body.depth),
        worst: loop_worst(first, last, step, body.worst),
    }
}

// IF's branches, and ELSE; a missing ELSE is 0.
#[cycle(branches_compound_for_loop_groups_list_statement)]
fn branches(reader: &mut Reader<'_>, levels: u32) -> Figures
    ensures same { reader.new.memory.now ≡ reader.old.memory.now }
    ensures fine { Moves reader.old.memory.now reader.old.at reader.new.at }
    ensures means { BranchesMean reader.old.memory.now reader.old.at levels (part reader.new.at result) }
{
    let mut all = Figures::default();
    while reader.is_at(Kind::Then) {
        reader.read();
        let condition = held(reader);
        all = all.or(list(reader, levels).holding(condition));
    }
    if reader.read().is(Kind::Else) {
        all = all.or(list(reader, levels));
    }
    all
}

// CASE's groups, and ELSE.
#[cycle(branches_compound_for_loop_groups_list_statement)]
fn groups(reader: &mut Reader<'_>, levels: u32) -> Figures
    ensures same { reader.new.memory.now ≡ reader.old.memory.now }
    ensures fine { Moves reader.old.memory.now reader.old.at reader.new.at }
    ensures means { GroupsMean reader.old.memory.now reader.old.at levels (part reader.new.at result) }
{
    let mut all = Figures::default();
    while reader.cell().is_label() {
        reader.read_past(Kind::Colon);
        all = all.or(list(reader, levels));
    }
    all.or(list(reader, levels))
}

// IF, CASE and loops, behind their first cell.
#[cycle(branches_compound_for_loop_groups_list_statement)]
fn compound(reader: &mut Reader<'_>, kind: Kind, levels: u32) -> Figures
    ensures same { reader.new.memory.now ≡ reader.old.memory.now }
    ensures fine { Moves reader.old.memory.now reader.old.at reader.new.at }
    ensures means { CompoundMeans reader.old.memory.now reader.old.at (kind_number kind) levels (part reader.new.at result) }
{
    match kind {
        Kind::If => Figures::TICK.then(branches(reader, levels)),
        Kind::Case => {
            let selector = held(reader);
            Figures::TICK.then(groups(reader, levels).holding(selector.max(2)))
        }
        Kind::For => for_loop(reader, levels),
        Kind::While => {
            let condition = held(reader);
            list(reader, levels).holding(condition).unbounded()
        }
        // REPEAT: no other kind is left.
        _ => {
            let body = list(reader, levels);
            body.holding(held(reader)).unbounded()
        }
    }
}

// A statement: an assignment and EXIT take one tick. One level of nesting fewer is left within a compound one.
#[cycle(branches_compound_for_loop_groups_list_statement)]
fn statement(reader: &mut Reader<'_>, levels: u32) -> Figures
    ensures same { reader.new.memory.now ≡ reader.old.memory.now }
    ensures fine { Moves reader.old.memory.now reader.old.at reader.new.at }
    ensures means { StatementMeans reader.old.memory.now reader.old.at levels (part reader.new.at result) }
{
    let Ok(kind) = reader.read().kind() else {
        return Figures::default();
    };
    match kind {
        Kind::Assign => Figures::TICK.holding(held(reader)),
        Kind::Exit => Figures::TICK,
        _ if levels == 0 => Figures::default(),
        _ => compound(reader, kind, levels - 1),
    }
}

// A list is the sum of its statements.
#[cycle(branches_compound_for_loop_groups_list_statement)]
pub(crate) fn list(reader: &mut Reader<'_>, levels: u32) -> Figures
    ensures same { reader.new.memory.now ≡ reader.old.memory.now }
    ensures fine { Moves reader.old.memory.now reader.old.at reader.new.at }
    ensures means { ListMeans reader.old.memory.now reader.old.at levels (part reader.new.at result) }
{
    let mut all = Figures::default();
    while !reader.is_at(Kind::Finish) {
        all = all.then(statement(reader, levels));
    }
    reader.read();
    all
}
