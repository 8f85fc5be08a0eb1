// A request is read off its line, carried out and answered.
use crate::fields::{read_bytes, read_number, read_table};
use crate::output::Output;
use rules::Limits;

// The longest image or text, and the longest table, that a request may have: more than the longest that is good.
const BYTES: usize = 17000;

const TABLE: usize = 128;

pub(crate) type Memory = [u32; Limits::MEMORY_NUMBERS];

pub(crate) type Image = [u8; Limits::IMAGE];

pub(crate) fn answer_image<P: Print>(line: &[u8], out: &mut Output<P>) {
    if carry_out_image(line, out).is_none() {
        out.put_error();
    }
}

pub(crate) fn answer_text<P: Print>(
    line: &[u8],
    memory: &mut Memory,
    image: &mut Image,
    out: &mut Output<P>,
) {
    if carry_out_text(line, memory, image, out).is_none() {
        out.put_error();
    }
}

// A line that is no request on an image has no answer here. (This and the next function stand apart, so that only one of them has its room on the
// stack.)
#[inline(never)]
fn carry_out_image<P: Print>(line: &[u8], out: &mut Output<P>) -> Option<()> {
    let mut room = [0; BYTES];
    let mut table = [0; TABLE];
    let mut fields = line.split(|byte| *byte == b' ');
    let letter = fields.next()?;
    let image = read_bytes(fields.next()?, &mut room)?;
    match (letter, fields.next(), fields.next(), fields.next()) {
        (b"R", Some(budget), Some(values), None) => {
            let budget = read_number(budget, u32::MAX)?;
            let table = read_table(values, &mut table)?;
            run(image, table, budget, out);
        }
        (b"F", Some(count), None, None) => {
            let count = read_number(count, TABLE as u32)?;
            fill(image, &mut table[..count as usize], out);
        }
        _ => return None,
    }
    Some(())
}

// A line that is no request on a text has no answer here.
#[inline(never)]
fn carry_out_text<P: Print>(
    line: &[u8],
    memory: &mut Memory,
    image: &mut Image,
    out: &mut Output<P>,
) -> Option<()> {
    let mut room = [0; BYTES];
    let mut table = [0; TABLE];
    let mut fields = line.split(|byte| *byte == b' ');
    let letter = fields.next()?;
    let text = read_bytes(fields.next()?, &mut room)?;
    match (letter, fields.next(), fields.next(), fields.next()) {
        (b"C", None, None, None) => compile(text, memory, image, out),
        (b"C", Some(capacity), None, None) => {
            let capacity = read_number(capacity, u32::MAX)? as usize;
            compile(text, memory, &mut image[..capacity.min(Limits::IMAGE)], out);
        }
        (b"E", Some(budget), Some(values), None) => {
            let budget = read_number(budget, u32::MAX)?;
            let table = read_table(values, &mut table)?;
            evaluate(text, memory, image, table, budget, out);
        }
        (b"P", None, None, None) => parse(text, memory, out),
        _ => return None,
    }
    Some(())
}

fn run<P: Print>(image: &[u8], table: &mut [i32], budget: u32, out: &mut Output<P>) {
    let report = run::run(image, table, budget);
    out.put_run(report, table);
}

fn fill<P: Print>(image: &[u8], table: &mut [i32], out: &mut Output<P>) {
    match run::fill(image, table) {
        Ok(()) => out.put_filled(table),
        Err(error) => out.put_not_filled(error),
    }
}

// The buffer has at most the published limit of bytes. No image is longer, so more room than that makes no difference.
fn compile<P: Print>(text: &[u8], memory: &mut Memory, image: &mut [u8], out: &mut Output<P>) {
    match compile::compile(text, memory, image) {
        Ok(compiled) => out.put_accepted(&image[..compiled.image], compiled),
        Err(refusal) => out.put_refused(refusal),
    }
}

fn evaluate<P: Print>(
    text: &[u8],
    memory: &mut Memory,
    image: &mut Image,
    table: &mut [i32],
    budget: u32,
    out: &mut Output<P>,
) {
    match compile::compile_and_run(text, memory, image, table, budget) {
        Ok(told) => out.put_told(told, table),
        Err(refusal) => out.put_refused(refusal),
    }
}

// The tree lies behind the tokens.
fn parse<P: Print>(text: &[u8], memory: &mut Memory, out: &mut Output<P>) {
    match parse::parse(text, memory) {
        Ok(count) => {
            let from = Limits::TOKEN_NUMBERS;
            out.put_tree(&memory[from..from + count]);
        }
        Err(refusal) => out.put_refused(refusal),
    }
}
