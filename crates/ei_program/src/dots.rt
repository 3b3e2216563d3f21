// Whether a term can have ended in the bytes that were taken. No answer rests on it: it only says when a term
// whose reading came to the end of the bytes is worth to be read again.

/// Where the bytes stand behind those that were looked at.
#[derive(Clone, Copy, Debug, PartialEq, Eq)]
enum Place {
    /// Between tokens, or in a name or a numeral.
    Open,
    /// In a comment.
    Comment,
    /// In a string.
    Text,
    /// In a string, behind a `\`.
    Escape,
}

/// The bytes of a term that were looked at, a piece at a time, for the first dot that ends a term: one that
/// stands in no brackets, string or comment.
#[derive(Drop)]
pub struct Dots {
    looked_at: usize,
    place: Place,
    depth: usize,
    found: bool,
}

/// The place behind a byte.
fn place_behind(place: Place, byte: u8) -> Place {
    match (place, byte) {
        (Place::Escape, _) => Place::Text,
        (Place::Text, b'\\') => Place::Escape,
        (Place::Text, b'"' | b'\n') | (Place::Comment, b'\n') => Place::Open,
        (Place::Open, b'"') => Place::Text,
        (Place::Open, b'%') => Place::Comment,
        _ => place,
    }
}

/// The depth of brackets behind a byte between tokens.
fn depth_behind(depth: usize, byte: u8) -> usize {
    match byte {
        b'(' | b'[' => depth.saturating_add(1),
        b')' | b']' => depth.saturating_sub(1),
        _ => depth,
    }
}

impl Dots {
    /// No byte was looked at yet.
    pub fn new() -> Dots {
        Dots {
            looked_at: 0,
            place: Place::Open,
            depth: 0,
            found: false,
        }
    }

    /// Whether the first dot that ends a term stands in these bytes of the term, and not in those of an
    /// earlier call. Each byte is looked at once.
    pub fn reach(&mut self, bytes: &[u8]) -> bool {
        'bytes: while !self.found && self.looked_at < bytes.len() {
            let byte = bytes[self.looked_at];
            self.looked_at += 1;
            self.found = matches!(self.place, Place::Open) && self.depth == 0 && byte == b'.';
            if matches!(self.place, Place::Open) {
                self.depth = depth_behind(self.depth, byte);
            }
            self.place = place_behind(self.place, byte);
            if self.found {
                return true;
            }
        }
        false
    }
}
