//! Reads bytes that are written in hexadecimal.

ghost use Rattle.std.specs.Prelude.{◌≤◌, length};

use std::io;

// The most characters that are read at once.
const BLOCK: usize = 4096;

// The most bytes that they and the zeros before them are.
const MOST: usize = 2064;

// The digits of the offset of a line in `xxd` and `hexdump -C`.
const OFFSET: u8 = 8;

// Where in its lines the input is.
#[derive(Clone, Copy)]
enum Place {
    // At its start, after this many zeros.
    Start(u8),
    // After eight zeros and a space.
    Blank,
    // In lines of digits alone.
    Digits,
    // In the offset of a line, of which this was read.
    Offset(u64),
    // In the columns of digits of a line with an offset.
    Columns,
    // In the column of text after them.
    Text,
}

/// A reader of the bytes that another reader has in hexadecimal.
///
/// White space, `:` after a byte and `0x` before a byte are ignored, and the offsets and texts of
/// `xxd` and `hexdump -C`, if the first line has the offset 0 in eight digits. Any other character,
/// an offset that is not the number of bytes before it, and a last digit alone, end the input.
#[derive(Drop)]
pub struct HexReader<R> {
    inner: R,
    place: Place,
    // Whether a `:` follows the offsets, as in `xxd`.
    colons: bool,
    // Whether the last character was a blank.
    is_blank: bool,
    // The first digit of a byte of which the second was not read.
    high: Option<u8>,
    // The number of characters that were read, and of the bytes before the next one.
    read: u64,
    count: u64,
    // Whether the input has ended at what is not hexadecimal.
    wrong: bool,
    // The bytes of the last characters: those from `from` to `to` were not taken.
    bytes: [u8; MOST],
    from: usize,
    to: usize,
}

impl<R: io::Read> HexReader<R> {
    /// Creates a reader over `inner`.
    pub fn new(inner: R) -> HexReader<R> {
        HexReader {
            inner,
            place: Place::Start(0),
            colons: false,
            is_blank: false,
            high: None,
            read: 0,
            count: 0,
            wrong: false,
            bytes: [0; MOST],
            from: 0,
            to: 0,
        }
    }

    /// Returns the number, from 1 on, of the character at which the input is not hexadecimal, if it
    /// was reached.
    pub fn wrong_at(&self) -> Option<u64> {
        if self.wrong { Some(self.read) } else { None }
    }

    // Takes a character.
    fn take(&mut self, character: u8) {
        self.read = self.read.saturating_add(1);
        match self.place {
            Place::Start(zeros) => self.take_first(zeros, character),
            Place::Blank if character == b' ' => self.place = Place::Columns,
            Place::Blank => self.take_zeros(OFFSET, character),
            Place::Digits => self.take_digits(character),
            Place::Offset(value) => self.take_offset(value, character),
            Place::Columns => self.take_column(character),
            Place::Text => self.take_text(character),
        }
    }

    // Takes a character after zeros at the start.
    fn take_first(&mut self, zeros: u8, character: u8) {
        match character {
            b'0' if zeros < OFFSET => self.place = Place::Start(zeros.saturating_add(1)),
            b' ' if zeros == OFFSET => self.place = Place::Blank,
            b':' if zeros == OFFSET => {
                self.colons = true;
                self.place = Place::Columns;
            }
            _ => self.take_zeros(zeros, character),
        }
    }

    // Takes these zeros and the character after them as digits.
    fn take_zeros(&mut self, zeros: u8, character: u8) {
        self.place = Place::Digits;
        for _ in 0..zeros {
            self.take_digit(b'0');
        }
        self.take_digits(character);
    }

    // Takes a character of a line without an offset.
    fn take_digits(&mut self, character: u8) {
        if self.high == Some(0) && matches!(character, b'x' | b'X') {
            self.high = None;
            return;
        }
        let is_ignored = character.is_ascii_whitespace()
            || (character == b':' && self.high.is_none() && self.count > 0);
        if !is_ignored {
            self.take_digit(character);
        }
    }

    // Takes a digit.
    fn take_digit(&mut self, character: u8) {
        let Some(digit) = digit_of(character) else {
            self.wrong = true;
            return;
        };
        let Some(high) = self.high else {
            self.high = Some(digit);
            return;
        };
        self.high = None;
        self.count = self.count.saturating_add(1);
        if let Some(place) = self.bytes.get_mut(self.to) {
            *place = high.wrapping_mul(16).wrapping_add(digit);
        }
        self.to = self.to.saturating_add(1);
    }

    // Takes a character of an offset.
    fn take_offset(&mut self, value: u64, character: u8) {
        if let Some(digit) = digit_of(character) {
            let value = value.saturating_mul(16).saturating_add(u64::from(digit));
            self.place = Place::Offset(value);
            return;
        }
        match character {
            b':' if self.colons => self.place = Place::Columns,
            b' ' if !self.colons => self.place = Place::Columns,
            b'\n' | b'\r' => self.place = Place::Offset(0),
            _ => self.wrong = true,
        }
        let is_line = value == 0 && matches!(self.place, Place::Offset(0));
        self.wrong = self.wrong || (value != self.count && !is_line);
        self.is_blank = false;
    }

    // Takes a character of the columns of digits.
    fn take_column(&mut self, character: u8) {
        let is_end = match character {
            b'\n' => true,
            b'|' => !self.colons,
            b' ' => self.colons && self.is_blank,
            _ => false,
        };
        if is_end {
            self.place = Place::Text;
            self.wrong = self.high.is_some();
            return self.take_text(character);
        }
        self.is_blank = character == b' ';
        if self.is_blank || character == b'\r' {
            self.wrong = self.high.is_some();
        } else {
            self.take_digit(character);
        }
    }

    // Takes a character of the column of text.
    fn take_text(&mut self, character: u8) {
        if character == b'\n' {
            self.place = Place::Offset(0);
        }
    }

    // Takes the end of the input.
    fn end(&mut self) {
        match self.place {
            Place::Start(zeros) => self.take_zeros(zeros, b'\n'),
            Place::Blank => self.take_zeros(OFFSET, b'\n'),
            _ => {}
        }
        self.wrong = self.high.is_some();
    }

    // Reads characters until there is a byte, or the input ends.
    fn read_characters(&mut self) -> io::Result<()> {
        let mut block = [0; BLOCK];
        self.from = 0;
        self.to = 0;
        for _ in 0..u64::MAX {
            if self.wrong || self.to > 0 {
                break;
            }
            let got = self.inner.read(&mut block)?;
            if got == 0 {
                self.end();
                break;
            }
            for character in block[..got].iter() {
                if self.wrong {
                    break;
                }
                self.take(*character);
            }
        }
        Ok(())
    }
}

impl<R: io::Read> io::Read for HexReader<R> {
    fn read(&mut self, buf: &mut [u8]) -> io::Result<usize> {
        if buf.is_empty() {
            return Ok(0);
        }
        if self.from >= self.to {
            self.read_characters()?;
        }
        let mut count: usize = 0;
        for (place, byte) in buf
            .iter_mut()
            .zip(self.bytes.iter().take(self.to).skip(self.from))
        {
            *place = *byte;
            count = count.saturating_add(1);
        }
        let count = count.min(buf.len());
        self.from = self.from.saturating_add(count);
        Ok(count)
    }
}

// Returns the value of a hexadecimal digit.
fn digit_of(character: u8) -> Option<u8> {
    match character {
        b'0'..=b'9' => Some(character - b'0'),
        b'a'..=b'f' => Some(character - b'a' + 10),
        b'A'..=b'F' => Some(character - b'A' + 10),
        _ => None,
    }
}
