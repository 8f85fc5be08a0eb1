// The sizes of the code of parts, before it is written: they do not depend on where it stands.
ghost use Rattle.std.specs.Prelude.{◌≡◌, ◌+◌};
ghost use Rattle.cells.specs.Reading.{cell_in};
ghost use Rattle.emit.specs.Sizes.{item_size, jump_size, capped, Reads, Ahead, HeldSize, LabelsSize, StatementSize, CompoundSize, ListSize, BranchesSize, GroupsSize};

use cells::{Cell, Reader};
use rules::Kind;
use std::ops::Add;

// A size is counted no further: well above 8192, which is the most that code has.
const MOST: u32 = 100000;

// A size of code.
#[derive(Clone, Copy)]
pub(crate) struct Size(pub u32);

impl Add for Size {
    type Output = Size;

    ghost add_gives = { λ a b r. r.0 ≡ capped (a.0 + b.0) };

    #[tactic(auto, unfolding(crate::specs::Sizes::capped))]
    fn add(self, other: Size) -> Size {
        Size(self.0.saturating_add(other.0).min(MOST))
    }
}

// The size of the code of one cell of an expression: unary plus and parentheses give nothing.
#[tactic(auto, using(std::proofs::lemmas::Grind::common_steps), unfolding(crate::specs::Sizes::item_size))]
fn item_size(cell: Cell) -> Size
    ensures { result.0 ≡ item_size cell.tag cell.datum }
{
    let Ok(kind) = cell.kind() else {
        return Size(0);
    };
    match kind {
        Kind::Int | Kind::True | Kind::False => Size(5),
        Kind::Name => Size(2),
        Kind::Binary => Size(1),
        Kind::Unary => if cell.datum == 0 { Size(0) } else { Size(1) },
        _ => Size(0),
    }
}

// An expression, and the cell that closes it.
pub(crate) fn held(from: &mut Reader) -> Size
    ensures { Reads HeldSize from.old from.new result }
{
    let mut size = Size(0);
    while let Some(cell) = from.next_item() {
        size = size + item_size(cell);
    }
    from.read();
    size
}

// A SPAN and a jump for each label.
fn labels(from: &mut Reader) -> Size
    ensures { Reads LabelsSize from.old from.new result }
{
    let mut size = Size(0);
    while let Some(_) = from.next_if(Kind::Comma) {
        size = size + Size(12);
    }
    from.read();
    size
}

// A JUMP behind a list that another branch or ELSE follows.
#[tactic(auto, unfolding(crate::specs::Sizes::jump_size))]
pub(crate) fn jump_size(from: &Reader) -> Size
    ensures { result.0 ≡ jump_size (cell_in from.now.memory.now from.now.at).tag }
{
    if from.is_at(Kind::EndIf) {
        Size(0)
    } else {
        Size(3)
    }
}

#[cycle(branches_compound_groups_list_statement)]
fn branches(from: &mut Reader, levels: u32) -> Size
    ensures { Reads (λ m i. BranchesSize m i levels) from.old from.new result }
{
    let mut size = Size(0);
    while let Some(_) = from.next_if(Kind::Then) {
        size = size + held(from) + Size(3) + list(from, levels) + jump_size(from);
    }
    if from.read().is(Kind::Else) {
        size + list(from, levels)
    } else {
        size
    }
}

#[cycle(branches_compound_groups_list_statement)]
fn groups(from: &mut Reader, levels: u32) -> Size
    ensures { Reads (λ m i. GroupsSize m i levels) from.old from.new result }
{
    let mut size = Size(0);
    while from.cell().is_label() {
        size = size + labels(from) + Size(4) + list(from, levels) + Size(3);
    }
    size + Size(1) + list(from, levels)
}

// IF, CASE and loops.
#[cycle(branches_compound_groups_list_statement)]
fn compound(from: &mut Reader, levels: u32) -> Size
    ensures { Reads (λ m i. CompoundSize m i levels) from.old from.new result }
{
    let Ok(kind) = from.read().kind() else {
        return Size(0);
    };
    match kind {
        Kind::If => Size(1) + branches(from, levels),
        Kind::Case => Size(1) + held(from) + groups(from, levels),
        Kind::For => {
            let bounds = held(from) + held(from);
            from.read();
            bounds + Size(24) + list(from, levels)
        }
        Kind::While => held(from) + Size(7) + list(from, levels),
        // REPEAT: no other kind is left.
        _ => list(from, levels) + held(from) + Size(4),
    }
}

#[cycle(branches_compound_groups_list_statement)]
fn statement(from: &mut Reader, levels: u32) -> Size
    ensures { Reads (λ m i. StatementSize m i levels) from.old from.new result }
{
    if from.is_at(Kind::Assign) {
        from.read();
        Size(3) + held(from)
    } else if from.is_at(Kind::Exit) {
        from.read();
        Size(4)
    } else if levels == 0 {
        from.read();
        Size(0)
    } else {
        compound(from, levels - 1)
    }
}

#[cycle(branches_compound_groups_list_statement)]
pub(crate) fn list(from: &mut Reader, levels: u32) -> Size
    ensures { Reads (λ m i. ListSize m i levels) from.old from.new result }
{
    let mut size = Size(0);
    while from.next_if(Kind::Finish).is_none() {
        size = size + statement(from, levels);
    }
    size
}

// The same of parts that lie ahead of a reader, which stays where it is.
pub(crate) fn labels_ahead(mut from: Reader) -> Size
    ensures { Ahead LabelsSize from.entry result }
{
    labels(&mut from)
}

pub(crate) fn branches_ahead(mut from: Reader, levels: u32) -> Size
    ensures { Ahead (λ m i. BranchesSize m i levels) from.entry result }
{
    branches(&mut from, levels)
}

pub(crate) fn groups_ahead(mut from: Reader, levels: u32) -> Size
    ensures { Ahead (λ m i. GroupsSize m i levels) from.entry result }
{
    groups(&mut from, levels)
}

pub(crate) fn list_ahead(mut from: Reader, levels: u32) -> Size
    ensures { Ahead (λ m i. ListSize m i levels) from.entry result }
{
    list(&mut from, levels)
}
