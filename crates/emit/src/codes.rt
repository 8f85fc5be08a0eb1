// Instructions put behind the code that is written.
ghost use Rattle.std.specs.Prelude.{[], ◌∷◌, ◌≡◌, ◌%◌, ◌/◌};
ghost use Rattle.rules.specs.Bytes.{put4};
ghost use Rattle.emit.specs.Codes.{op_number};
ghost use Rattle.emit.specs.Items.{item_bytes};
ghost use Rattle.emit.specs.Places.{may_put, ahead, Put, Writes};

use super::sizes::Size;
use cells::Cell;
use rules::Kind;

// The codes of the instructions that are no operators.
#[derive(Clone, Copy)]
pub(crate) enum Op {
    Tick = 1,
    Const = 2,
    Load = 3,
    Store = 4,
    Jump = 21,
    JumpZero = 22,
    Span = 23,
    JumpNot = 24,
    Drop = 25,
    Hold = 26,
    First = 27,
    Next = 28,
    Halt = 29,
}

impl Op {
    fn number(self) -> u8
        ensures { result ≡ op_number self }
    {
        self as u8
    }
}

// What the test and the step of a FOR have in common.
#[derive(Clone, Copy)]
pub(crate) struct Turn {
    pub level: u32,
    pub slot: u32,
    pub step: u32,
}

// No instruction starts behind this offset: twice what code has, and far below where an offset overflows.
const LAST_START: u32 = 16384;

// No instruction has more bytes.
const LONGEST_INSTRUCTION: usize = 16;

// The code so far: what is written of the room that is lent for it.
#[derive(Drop)]
pub(crate) struct Code<'a> {
    pub bytes: &'a mut [u8],
    pub at: u32,
}

impl<'a> Code<'a> {
    // Nothing is written yet.
    pub fn new(bytes: &'a mut [u8]) -> Self
        ensures same { result.bytes.ghost_name ≡ bytes.entry.ghost_name }
        ensures none { (result.bytes.now ≡ bytes.old) × (result.at ≡ 0) }
    {
        Self { bytes, at: 0 }
    }
}

impl Code<'_> {
    // A target behind so much more code.
    pub fn ahead(&self, size: Size) -> u32
        ensures { result ≡ ahead self.now.at size.0 }
    {
        self.at.saturating_add(size.0)
    }

    // Whether there is room for an instruction, within both limits.
    #[tactic(auto, unfolding(crate::specs::Places::may_put, writing::specs::Puts::fits))]
    fn has_room(&self, instruction: &[u8]) -> bool
        ensures { result ≡ may_put self.now.bytes.now self.now.at instruction.now }
    {
        self.at <= LAST_START
            && instruction.len() <= LONGEST_INSTRUCTION
            && self.at as usize + instruction.len() <= self.bytes.len()
    }

    // All the bytes of an instruction, where there is room for them.
    fn put(&mut self, instruction: &[u8])
        ensures same { self.new.bytes.ghost_name ≡ self.old.bytes.ghost_name }
        ensures puts { Writes self.old.bytes.now self.new.bytes.now self.old.at instruction.now self.new.at }
    {
        if self.has_room(instruction) {
            writing::put(self.bytes, self.at as usize, instruction);
            self.at += instruction.len() as u32;
        }
    }

    // An operator, by the code that its cell holds.
    pub fn operator(&mut self, code: u32)
        ensures same { self.new.bytes.ghost_name ≡ self.old.bytes.ghost_name }
        ensures puts { Writes self.old.bytes.now self.new.bytes.now self.old.at ((code % 256) ∷ []) self.new.at }
    {
        self.put(&[(code % 256) as u8])
    }

    // A code alone.
    pub fn alone(&mut self, op: Op)
        ensures same { self.new.bytes.ghost_name ≡ self.old.bytes.ghost_name }
        ensures puts { Writes self.old.bytes.now self.new.bytes.now self.old.at (op_number op ∷ []) self.new.at }
    {
        self.put(&[op.number()])
    }

    // A code with a slot or a level.
    pub fn with_slot(&mut self, op: Op, slot: u32)
        ensures same { self.new.bytes.ghost_name ≡ self.old.bytes.ghost_name }
        ensures puts { Writes self.old.bytes.now self.new.bytes.now self.old.at (op_number op ∷ (slot % 256) ∷ []) self.new.at }
    {
        self.put(&[op.number(), (slot % 256) as u8])
    }

    // A jump of this code.
    #[tactic(auto, unfolding(rules::specs::Bytes::put4))]
    pub fn jump(&mut self, op: Op, target: u32)
        ensures same { self.new.bytes.ghost_name ≡ self.old.bytes.ghost_name }
        ensures puts { Writes self.old.bytes.now self.new.bytes.now self.old.at (op_number op ∷ (target % 256) ∷ (target / 256 % 256) ∷ []) self.new.at }
    {
        let t = octets::bytes_of_bits(target);
        self.put(&[op.number(), t[0], t[1]])
    }

    #[tactic(auto, unfolding(rules::specs::Bytes::put4))]
    pub fn constant(&mut self, bits: u32)
        ensures same { self.new.bytes.ghost_name ≡ self.old.bytes.ghost_name }
        ensures puts { Writes self.old.bytes.now self.new.bytes.now self.old.at (2 ∷ put4 bits []) self.new.at }
    {
        let v = octets::bytes_of_bits(bits);
        self.put(&[Op::Const.number(), v[0], v[1], v[2], v[3]])
    }

    #[tactic(auto, unfolding(rules::specs::Bytes::put4))]
    pub fn span(&mut self, low: u32, high: u32)
        ensures same { self.new.bytes.ghost_name ≡ self.old.bytes.ghost_name }
        ensures puts { Writes self.old.bytes.now self.new.bytes.now self.old.at (23 ∷ put4 low (put4 high [])) self.new.at }
    {
        let l = octets::bytes_of_bits(low);
        let h = octets::bytes_of_bits(high);
        self.put(&[
            Op::Span.number(),
            l[0],
            l[1],
            l[2],
            l[3],
            h[0],
            h[1],
            h[2],
            h[3],
        ])
    }

    // FIRST and NEXT.
    #[tactic(auto, unfolding(rules::specs::Bytes::put4))]
    pub fn turn(&mut self, op: Op, turn: Turn, target: u32)
        ensures same { self.new.bytes.ghost_name ≡ self.old.bytes.ghost_name }
        ensures puts { Writes self.old.bytes.now self.new.bytes.now self.old.at (op_number op ∷ (turn.level % 256) ∷ (turn.slot % 256) ∷ put4 turn.step ((target % 256) ∷ (target / 256 % 256) ∷ [])) self.new.at }
    {
        let s = octets::bytes_of_bits(turn.step);
        let t = octets::bytes_of_bits(target);
        self.put(&[
            op.number(),
            (turn.level % 256) as u8,
            (turn.slot % 256) as u8,
            s[0],
            s[1],
            s[2],
            s[3],
            t[0],
            t[1],
        ])
    }

    // The code of one cell: operands, then the operator; unary plus and parentheses give nothing.
    pub fn item(&mut self, cell: Cell)
        ensures same { self.new.bytes.ghost_name ≡ self.old.bytes.ghost_name }
        ensures puts { Put (item_bytes cell.tag cell.datum) self.old.bytes.now self.new.bytes.now self.old.at self.new.at }
    {
        let Ok(kind) = cell.kind() else {
            return;
        };
        match kind {
            Kind::Int | Kind::True | Kind::False => self.constant(cell.datum),
            Kind::Name => self.with_slot(Op::Load, cell.datum),
            Kind::Binary => self.operator(cell.datum),
            Kind::Unary => if cell.datum != 0 {
                self.operator(cell.datum);
            },
            _ => {}
        }
    }
}
