// What requests are answered: each answer is a line.
use crate::output::Output;
use rules::{Compiled, Evaluated, FillError, Refusal, Report};

impl<P: Print> Output<P> {
    // The image of an accepted text, the bytes of its code, the depth and the worst case.
    pub(crate) fn put_accepted(&mut self, image: &[u8], compiled: Compiled) {
        self.put_all(b"ACCEPTED ");
        self.put_hex(image);
        self.put_field(compiled.code);
        self.put_field(compiled.depth);
        self.put_field(compiled.worst);
        self.put(b'\n');
    }

    // Why a text is refused, and where.
    pub(crate) fn put_refused(&mut self, refusal: Refusal) {
        self.put_all(b"REFUSED");
        self.put_field(refusal.fault.number());
        self.put_field(refusal.place);
        self.put(b'\n');
    }

    // How many numbers a tree has, and the numbers.
    pub(crate) fn put_tree(&mut self, numbers: &[u32]) {
        self.put_all(b"TREE");
        self.put_field(numbers.len());
        for number in numbers {
            self.put_field(*number);
        }
        self.put(b'\n');
    }

    // What a run reports, and the table that it left.
    pub(crate) fn put_run(&mut self, report: Report, table: &[i32]) {
        self.put_number(report.outcome.number());
        self.put_field(report.ticks);
        self.put_field(report.instructions);
        self.put_field(report.offset);
        self.put_last(table);
    }

    // What evaluating a text tells, and the table that it left.
    pub(crate) fn put_told(&mut self, told: Evaluated, table: &[i32]) {
        self.put_number(told.outcome.number());
        self.put_field(told.ticks);
        self.put_last(table);
    }

    pub(crate) fn put_filled(&mut self, table: &[i32]) {
        self.put(b'0');
        self.put_last(table);
    }

    pub(crate) fn put_not_filled(&mut self, error: FillError) {
        self.put_number(error.number());
        self.put(b'\n');
    }

    // To a line that is no request.
    pub(crate) fn put_error(&mut self) {
        self.put_all(b"ERROR\n");
    }

    // A space and a table, which ends its line.
    fn put_last(&mut self, table: &[i32]) {
        self.put(b' ');
        self.put_table(table);
        self.put(b'\n');
    }
}
