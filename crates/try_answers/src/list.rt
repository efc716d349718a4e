// The list of answers as decimal numbers, each with one byte after it.

// What is still to be read of the list.
#[derive(Clone, Copy)]
pub struct List<'a> {
    rest: &'a [u8],
}

// One digit more; a number that is too wide for the list keeps its first digits.
fn with_digit(value: u32, byte: u8) -> u32 {
    if value <= 100000000 {
        10 * value + (byte & 15) as u32
    } else {
        value
    }
}

impl<'a> List<'a> {
    pub fn new(text: &'a [u8]) -> List<'a> {
        List { rest: text }
    }

    pub fn is_empty(&self) -> bool {
        self.rest.is_empty()
    }

    // What is left is not read.
    pub fn end(&mut self) {
        self.rest = &[];
    }

    // The number that comes next, up to and with the first byte that is no digit.
    pub fn number(&mut self) -> u32 {
        let text = self.rest;
        let mut value: u32 = 0;
        for (i, &byte) in text.iter().enumerate() {
            if !byte.is_ascii_digit() {
                self.rest = &text[i + 1..];
                return value;
            }
            value = with_digit(value, byte);
        }
        self.end();
        value
    }
}
