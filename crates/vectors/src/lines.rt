// The line that is being read.

// The longest line that is read: more than the longest image or text and the longest table take.
const LONGEST: usize = 40000;

#[derive(Drop)]
pub(crate) struct Line {
    bytes: [u8; LONGEST],
    // How many bytes of the line have come: one more than LONGEST if they were too many to keep.
    held: usize,
}

impl Line {
    pub(crate) fn new() -> Self {
        Self {
            bytes: [0; LONGEST],
            held: 0,
        }
    }

    // Bytes are kept if there is room for them.
    pub(crate) fn push_all(&mut self, bytes: &[u8]) {
        if let Some(room) = self.bytes.get_mut(self.held..)
            && let Some(place) = room.get_mut(..bytes.len())
        {
            place.copy_from_slice(bytes);
            self.held += bytes.len();
        } else {
            self.held = LONGEST + 1;
        }
    }

    pub(crate) fn clear(&mut self) {
        self.held = 0;
    }

    pub(crate) fn is_empty(&self) -> bool {
        self.held == 0
    }

    // Whether the line begins as a request on a text does.
    pub(crate) fn is_on_text(&self) -> bool {
        matches!(self.bytes(), Some([b'C' | b'E' | b'P', ..]))
    }

    // The line's bytes, unless they were too many to keep.
    pub(crate) fn bytes(&self) -> Option<&[u8]> {
        self.bytes.get(..self.held)
    }
}
