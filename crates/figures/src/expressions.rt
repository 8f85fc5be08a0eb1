// Expressions: what stack they need, and whether they are an integer.
ghost use Rattle.std.specs.Prelude.{◌≡◌, ◌<◌, Some};
ghost use Rattle.cells.specs.Reading.{Moves};
ghost use Rattle.figures.specs.Parts.{signed_of, HeldMeans, LiteralMeans};

use cells::Reader;
use rules::Kind;

// The codes of the signs that stand in cells.
const MINUS: u32 = 5;

const NOT: u32 = 6;

// The stack that an expression needs: its closing cell says it.
pub(crate) fn held(reader: &mut Reader<'_>) -> u32
    ensures same { reader.new.memory.now ≡ reader.old.memory.now }
    ensures fine { Moves reader.old.memory.now reader.old.at reader.new.at }
    ensures means { HeldMeans reader.old.memory.now reader.old.at (record { at = reader.new.at; depth = result }) }
{
    reader.read_past(Kind::Whole).datum
}

// An integer, which is at most 2147483647, as it is or with a minus before it.
fn signed(minus: bool, value: u32) -> Option<i32>
    ensures { value < 2147483648 → result ≡ Some (signed_of minus value) }
{
    let value = i32::try_from(value).ok()?;
    Some(if minus { -value } else { value })
}

// One integer, then `-` or `+` or nothing, then the closing cell.
pub(crate) fn literal(mut reader: Reader<'_>) -> Option<i32>
    ensures { LiteralMeans reader.entry.memory.now reader.entry.at result }
{
    let integer = reader.next_if(Kind::Int)?;
    if reader.is_at(Kind::Whole) {
        return signed(false, integer.datum);
    }
    let sign = reader.next_if(Kind::Unary)?;
    if sign.datum == NOT || !reader.is_at(Kind::Whole) {
        return None;
    }
    signed(sign.datum == MINUS, integer.datum)
}
