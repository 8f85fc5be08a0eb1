// Answers requests of the second program's line protocol that compile, run, evaluate, fill or parse, one line for each, until input ends.
#![tactic(auto)]

mod answers;
mod fields;
mod input;
mod lines;
mod output;
mod requests;

use input::Input;
use lines::Line;
use output::Output;
use requests::{Image, Memory};
use rules::Limits;
use std::io::Read;

fn answer_image<P: Print>(line: &Line, out: &mut Output<P>) {
    match line.bytes() {
        Some(bytes) => requests::answer_image(bytes, out),
        None => out.put_error(),
    }
}

fn answer<P: Print>(line: &Line, memory: &mut Memory, image: &mut Image, out: &mut Output<P>) {
    if line.is_on_text() {
        requests::answer_text(line.bytes().unwrap_or(&[]), memory, image, out);
    } else {
        answer_image(line, out);
    }
}

// Lines are answered up to the first that begins as a request on a text does, which is left to be answered: whether there is one. Nothing says that
// input ends, and a proved loop has to: so lines are counted, up to a number that no run uses up.
fn serve_images<P: Print>(
    input: &mut Input<impl Read>,
    line: &mut Line,
    out: &mut Output<P>,
) -> bool {
    for _ in 0..u64::MAX {
        if !input.read_line(line) {
            return false;
        }
        if line.is_on_text() {
            return true;
        }
        answer_image(line, out);
    }
    false
}

// From the first request on a text on there is working memory. What one request leaves there makes no difference to the next. (It is no part of
// `main`, so that a run without such requests needs no stack for it.)
#[inline(never)]
fn serve_all<P: Print>(input: &mut Input<impl Read>, line: &mut Line, out: &mut Output<P>) {
    let mut memory = [0; Limits::MEMORY_NUMBERS];
    let mut image = [0; Limits::IMAGE];
    for _ in 0..u64::MAX {
        answer(line, &mut memory, &mut image, out);
        if !input.read_line(line) {
            break;
        }
    }
}

fn main(rt: HostRuntime) {
    let mut input = Input::new(rt.reader());
    let mut line = Line::new();
    let mut out = Output::new(rt);
    if serve_images(&mut input, &mut line, &mut out) {
        serve_all(&mut input, &mut line, &mut out);
    }
    out.flush();
}
