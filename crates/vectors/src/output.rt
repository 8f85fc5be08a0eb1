// Answers wait in a buffer, which is written to standard output when it is full, and at the end.
use itoa::Integer;

const ROOM: usize = 32768;

const DIGITS: &[u8; 16] = b"0123456789abcdef";

#[derive(Drop)]
pub(crate) struct Output<P> {
    writer: P,
    bytes: [u8; ROOM],
    // How many of the bytes wait.
    waiting: usize,
}

impl<P: Print> Output<P> {
    pub(crate) fn new(writer: P) -> Self {
        Self {
            writer,
            bytes: [0; ROOM],
            waiting: 0,
        }
    }

    // Writes the bytes that wait. A write that fails has nobody to be told of it, and its bytes are let go. (Loops that put bytes are
    // quicker where this is no part of them.)
    #[inline(never)]
    pub(crate) fn flush(&mut self) {
        let _ = self.writer.write_all(&self.bytes[..self.waiting.min(ROOM)]);
        self.waiting = 0;
    }

    // The one method that makes room, so that no other has to ask for it.
    pub(crate) fn put(&mut self, byte: u8) {
        let waiting = self.waiting;
        if waiting < ROOM {
            self.bytes[waiting] = byte;
            self.waiting = waiting + 1;
        } else {
            self.flush();
            self.bytes[0] = byte;
            self.waiting = 1;
        }
    }

    pub(crate) fn put_all(&mut self, bytes: &[u8]) {
        for byte in bytes {
            self.put(*byte);
        }
    }

    pub(crate) fn put_number<N: Integer>(&mut self, number: N) {
        let mut digits = itoa::Buffer::new();
        self.put_all(digits.format(number).as_bytes());
    }

    // A space and the number behind it.
    pub(crate) fn put_field<N: Integer>(&mut self, number: N) {
        self.put(b' ');
        self.put_number(number);
    }

    // Each byte by its two digits.
    pub(crate) fn put_hex(&mut self, bytes: &[u8]) {
        for byte in bytes {
            self.put(DIGITS[(byte / 16) as usize]);
            self.put(DIGITS[(byte % 16) as usize]);
        }
    }

    // Values parted by commas, or a dash for none.
    pub(crate) fn put_table(&mut self, table: &[i32]) {
        let Some((first, rest)) = table.split_first() else {
            self.put(b'-');
            return;
        };
        self.put_number(*first);
        for value in rest {
            self.put(b',');
            self.put_number(*value);
        }
    }
}
