// Standard input, line by line.
use crate::lines::Line;
use std::io::Read;

// How many bytes are read at once: with what the reader itself holds, no more of the stack than the output takes.
const CHUNK: usize = 20480;

#[derive(Drop)]
pub(crate) struct Input<R> {
    reader: R,
    chunk: [u8; CHUNK],
    // The bytes of the chunk from `at` to `end` are still to be given.
    at: usize,
    end: usize,
    // A read that gave nothing, or failed, was the last one.
    is_over: bool,
}

impl<R: Read> Input<R> {
    pub(crate) fn new(reader: R) -> Self {
        Self {
            reader,
            chunk: [0; CHUNK],
            at: 0,
            end: 0,
            is_over: false,
        }
    }

    // Reads the next line, without its end: whether there was one. The last line needs no end.
    pub(crate) fn read_line(&mut self, line: &mut Line) -> bool {
        line.clear();
        for _ in 0..u64::MAX {
            if self.take(line) {
                return true;
            }
            if !self.fill() {
                break;
            }
        }
        !line.is_empty()
    }

    // Gives the line what is left of the chunk, up to the line's end: whether it has come.
    fn take(&mut self, line: &mut Line) -> bool {
        let rest = self.chunk.get(self.at..self.end).unwrap_or(&[]);
        match rest.iter().position(|byte| *byte == b'\n') {
            Some(length) => {
                line.push_all(&rest[..length]);
                self.at = self.at.saturating_add(length + 1);
                true
            }
            None => {
                line.push_all(rest);
                self.at = self.end;
                false
            }
        }
    }

    // Reads once more, unless the input is over: whether bytes have come.
    fn fill(&mut self) -> bool {
        if !self.is_over {
            self.at = 0;
            self.end = self.reader.read(&mut self.chunk).unwrap_or(0);
            self.is_over = self.end == 0;
        }
        !self.is_over
    }
}
