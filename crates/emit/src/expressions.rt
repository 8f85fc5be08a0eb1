// The code of expressions and labels.
ghost use Rattle.std.specs.Prelude.{◌≡◌};
ghost use Rattle.emit.specs.Places.{Emits, HeldCode, LabelsCode};

use super::codes::{Code, Op};
use cells::Reader;
use rules::Kind;

impl Code<'_> {
    // An expression, and the cell that closes it. What the walks over an expression have in common is `next_item`.
    pub fn held(&mut self, from: &mut Reader)
        ensures same { self.new.bytes.ghost_name ≡ self.old.bytes.ghost_name }
        ensures writes { Emits HeldCode from.old self.old from.new self.new }
    {
        while let Some(cell) = from.next_item() {
            self.item(cell);
        }
        from.read();
    }

    // A SPAN and a jump to the body for each label.
    pub fn labels(&mut self, from: &mut Reader, body: u32)
        ensures same { self.new.bytes.ghost_name ≡ self.old.bytes.ghost_name }
        ensures writes { Emits (LabelsCode body) from.old self.old from.new self.new }
    {
        while let Some(label) = from.next_if(Kind::Comma) {
            self.span(label.place, label.datum);
            self.jump(Op::JumpNot, body);
        }
        from.read();
    }
}
