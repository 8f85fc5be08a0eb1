// What stands at an offset of the code: the code byte and its operands become an instruction.
#![tactic(auto)]

ghost use Rattle.std.specs.Prelude.{List, ◌≡◌, ℕ, ◌+◌, ◌≤◌, ◌<◌, length, get_or, drop};
ghost use Rattle.rules.specs.Codes.{BIN, decode_op, decode};
ghost use Rattle.codes.specs.Table.{lengths, word_at, value_at, bin_of, decoded};

// The operators before an operand.
#[derive(Clone, Copy)]
pub enum Prefix {
    Neg,
    Not,
}

// The operators between operands.
#[derive(Clone, Copy)]
pub enum Operator {
    Mul,
    Div,
    Mod,
    Add,
    Sub,
    Lt,
    Gt,
    Le,
    Ge,
    Eq,
    Ne,
    And,
    Xor,
    Or,
}

// The operands of FIRST and NEXT.
#[derive(Clone, Copy)]
pub struct Loop {
    pub level: usize,
    pub slot: usize,
    pub step: i32,
    pub to: usize,
}

#[derive(Clone, Copy)]
pub enum Instruction {
    Tick,
    Const(i32),
    Load(usize),
    Store(usize),
    Unary(Prefix),
    Binary(Operator),
    Jump(usize),
    JumpZero(usize),
    JumpNot(usize),
    Span(i32, i32),
    Drop,
    Hold(usize),
    First(Loop),
    Next(Loop),
    Halt,
}

// How many operand bytes follow each code, 0 to 29.
const LENGTHS: [u8; 30] = [
    0, 0, 4, 1, 1, 0, 0, 0, 0, 0, 0, 0, 0, 0, 0, 0, 0, 0, 0, 0, 0, 2, 2, 8, 2, 0, 1, 8, 8, 0,
];

// How many operand bytes follow a code: none after an unknown one.
pub fn operands(code: u8) -> usize
    ensures { (result ≡ get_or lengths code 0) × (result ≤ 8) }
{
    match LENGTHS.get(usize::from(code)) {
        Some(n) => usize::from(*n),
        None => 0,
    }
}

fn word(s: &[u8], at: usize) -> usize
    requires { at + 2 ≤ length s.now }
    ensures { (result ≡ word_at s.now at) × (result < 65536) }
{
    octets::word_of(s[at], s[at + 1])
}

fn value(s: &[u8], at: usize) -> i32
    requires { at + 4 ≤ length s.now }
    ensures { result ≡ value_at s.now at }
{
    octets::value_of(s[at], s[at + 1], s[at + 2], s[at + 3])
}

fn counted(s: &[u8]) -> Loop
    requires { 8 ≤ length s.now }
    ensures { (result.level ≡ get_or s.now 0 0) × (result.slot ≡ get_or s.now 1 0) × (result.step ≡ value_at s.now 2) × (result.to ≡ word_at s.now 6) }
{
    Loop {
        level: usize::from(s[0]),
        slot: usize::from(s[1]),
        step: value(s, 2),
        to: word(s, 6),
    }
}

// The operator of a code from 7 to 20. A TryFrom would have to refuse codes that `read` never hands on.
#[tactic(auto, unfolding(rules::specs::Codes::decode_op, rules::specs::Codes::readers))]
fn operator_of(code: u8) -> Operator
    requires { (6 < code) × (code < 21) }
    ensures { (operands : List ℕ) → BIN (bin_of result) ≡ decode_op code operands }
{
    match code {
        7 => Operator::Mul,
        8 => Operator::Div,
        9 => Operator::Mod,
        10 => Operator::Add,
        11 => Operator::Sub,
        12 => Operator::Lt,
        13 => Operator::Gt,
        14 => Operator::Le,
        15 => Operator::Ge,
        16 => Operator::Eq,
        17 => Operator::Ne,
        18 => Operator::And,
        19 => Operator::Xor,
        _ => Operator::Or,
    }
}

// The instruction of a code and its operands, all of them.
#[tactic(auto, unfolding(rules::specs::Codes::decode_op, rules::specs::Codes::readers))]
fn read(code: u8, s: &[u8]) -> Option<Instruction>
    requires { get_or lengths code 0 ≤ length s.now }
    ensures { decoded result ≡ decode_op code s.now }
{
    Some(match code {
        1 => Instruction::Tick,
        2 => Instruction::Const(value(s, 0)),
        3 => Instruction::Load(usize::from(s[0])),
        4 => Instruction::Store(usize::from(s[0])),
        5 => Instruction::Unary(Prefix::Neg),
        6 => Instruction::Unary(Prefix::Not),
        7..=20 => Instruction::Binary(operator_of(code)),
        21 => Instruction::Jump(word(s, 0)),
        22 => Instruction::JumpZero(word(s, 0)),
        23 => Instruction::Span(value(s, 0), value(s, 4)),
        24 => Instruction::JumpNot(word(s, 0)),
        25 => Instruction::Drop,
        26 => Instruction::Hold(usize::from(s[0])),
        27 => Instruction::First(counted(s)),
        28 => Instruction::Next(counted(s)),
        29 => Instruction::Halt,
        _ => return None,
    })
}

// What stands at an offset: nothing where the code is unknown, its operands are cut off, or no byte is there.
pub fn decode(code: &[u8], at: usize) -> Option<Instruction>
    ensures { decoded result ≡ decode (drop at code.now) }
{
    let byte = *code.get(at)?;
    let rest = &code[at + 1..];
    if rest.len() < operands(byte) {
        return None;
    }
    read(byte, rest)
}
