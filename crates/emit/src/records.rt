// The three records of an image, put one behind the other.
ghost use Rattle.std.specs.Prelude.{◌≡◌, ◌+◌, ◌*◌, ◌%◌, ◌≤◌, length};
ghost use Rattle.rules.specs.Answers.{type_as};
ghost use Rattle.emit.specs.Records.{type_told, VariablesMean, VariablesWritten, CodeWritten, ImageWritten, Finished};

use super::codes::{Code, Op};
use super::sizes;
use super::statements::Around;
use cells::{Cell, Reader};
use rules::{Compiled, Fault, Kind, Limits, Refusal, Stated, Type};

// The variables of the core program: how many, and the statements that lie behind them.
#[derive(Clone, Copy)]
pub(crate) struct Variables<'a> {
    pub count: usize,
    pub body: Reader<'a>,
}

// Whatever the numbers are, no more are counted than there can be: the sizes of the records rest on it.
fn count_variables(memory: &[u32]) -> Variables<'_>
    ensures core { result.body.memory.now ≡ memory.now }
    ensures few { result.count ≤ 64 }
    ensures means { VariablesMean memory.now (record { at = result.body.at; count = result.count }) }
{
    let mut from = Reader::new(memory, Limits::TOKEN_NUMBERS);
    let mut count: usize = 0;
    while let Some(_) = from.next_unless(Kind::Finish) {
        count = (count + 1).min(Limits::VARIABLES);
    }
    from.read();
    Variables { count, body: from }
}

// The variables, behind the head of the first record.
fn put_variables(count: usize, memory: &[u32], image: &mut [u8])
    requires { count ≤ 64 }
    ensures { VariablesWritten count memory.now image.old image.new }
{
    let mut from = Reader::new(memory, Limits::TOKEN_NUMBERS);
    for k in 0..count {
        let variable = from.read();
        let kind = type_of(variable);
        writing::put_variable(image, 4 + 5 * k, kind, octets::signed(variable.datum));
    }
}

// The type that a variable's cell tells.
#[tactic(auto, unfolding(crate::specs::Records::type_told))]
fn type_of(variable: Cell) -> Type
    ensures { type_as result ≡ type_told variable.tag }
{
    if variable.is(Kind::Dint) {
        Type::Dint
    } else {
        Type::Bool
    }
}

// Statements are nested at most so deep.
const LEVELS: u32 = 16;

// The code: the statements', then HALT, to which EXIT outside every loop would lead.
fn put_code(mut from: Reader, bytes: &mut [u8], size: u32)
    ensures { CodeWritten from.entry.memory.now bytes.old bytes.new from.entry.at size }
{
    let around = Around {
        exit: size,
        fors: 0,
        levels: LEVELS,
    };
    let mut code = Code::new(bytes);
    code.list(&mut from, around);
    code.alone(Op::Halt);
}

// All three records, where there is room for them. The size is that of the code without HALT.
fn put_image(variables: Variables, image: &mut [u8], size: u32, stated: Stated)
    requires { (variables.count ≤ 64) × (size ≤ 8191) × (19 + 5 * variables.count + size ≤ length image.old) }
    ensures { ImageWritten (record { at = variables.entry.body.at; count = variables.entry.count }) size (stated.depth % 65536) stated.worst variables.entry.body.memory.now image.old image.new }
{
    let bytes = 5 * variables.count;
    let code = (size as usize) + 1;
    writing::put_head(image, 0, 1, bytes as u16);
    put_variables(variables.count, variables.body.memory, image);
    writing::put_head(image, 4 + bytes, 2, code as u16);
    put_code(variables.body, &mut image[8 + bytes..], size);
    writing::put_head(image, 8 + bytes + code, 3, 6);
    let depth = (stated.depth % 65536) as u16;
    writing::put_figures(image, 12 + bytes + code, depth, stated.worst);
}

// The longest code without HALT.
const LONGEST: u32 = 8191;

// What is left to ask of a core program: 13 for its code, 14 for the room; then its image is written.
pub(crate) fn finish(
    memory: &[u32],
    image: &mut [u8],
    end: usize,
    stated: Stated,
) -> Result<Compiled, Refusal>
    ensures { Finished memory.now end stated.depth stated.worst image.old image.new result }
{
    let variables = count_variables(memory);
    let size = sizes::list_ahead(variables.body, LEVELS).0;
    if LONGEST < size {
        return Err(Refusal {
            fault: Fault::LongCode,
            place: end,
        });
    }
    let total = 19 + 5 * variables.count + (size as usize);
    if image.len() < total {
        return Err(Refusal {
            fault: Fault::ShortBuffer,
            place: end,
        });
    }
    put_image(variables, image, size, stated);
    Ok(Compiled {
        image: total,
        code: (size as usize) + 1,
        depth: stated.depth,
        worst: stated.worst,
    })
}
