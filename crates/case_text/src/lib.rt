// A line of a file of cases, taken apart: words with one space between them, each read as a number or as bytes.
#![tactic(auto)]

ghost use Rattle.std.specs.Prelude.{◌<◌, ◌≤◌, IfOk};

use spec::Shape;
use std::error::Error;
use std::fmt;
use std::str::Split;

// A line does not have the form of its case.
#[derive(Clone, Copy, Debug, PartialEq, Eq)]
pub struct Unreadable;

impl fmt::Display for Unreadable {
    fn fmt<W: fmt::Write>(&self, f: &mut fmt::Formatter<W>) -> fmt::Result {
        write!(f, "cannot be read")
    }
}

impl Error for Unreadable {}

// At most 32 bytes.
#[derive(Clone, Copy)]
pub struct Bytes {
    bytes: [u8; 32],
    length: usize,
    ghost in_place: { length ≤ 32 },
}

impl Bytes {
    // The bytes of a word in hexadecimal, the first byte first: two digits a byte, of small letters.
    fn read(word: &str) -> Result<Bytes, Unreadable> {
        let digits = word.as_bytes();
        let length = digits.len() / 2;
        if digits.is_empty() || digits.len() % 2 != 0 || 32 < length {
            return Err(Unreadable);
        }
        let mut bytes = [0u8; 32];
        for (byte, pair) in bytes.iter_mut().zip(digits.chunks_exact(2)) {
            *byte = (digit(pair[0])? << 4) ^ digit(pair[1])?;
        }
        Ok(Bytes { bytes, length })
    }

    pub fn as_slice(&self) -> &[u8] {
        &self.bytes[..self.length]
    }
}

// The value of a digit in hexadecimal.
fn digit(b: u8) -> Result<u8, Unreadable>
    ensures { IfOk result (λ d. d < 16) }
{
    match b {
        b'0'..=b'9' => Ok(b - b'0'),
        b'a'..=b'f' => Ok(b - b'a' + 10),
        _ => Err(Unreadable),
    }
}

// The words of a line that are not read yet.
#[derive(Drop)]
pub struct Words<'a> {
    left: Split<'a, char>,
}

impl<'a> Words<'a> {
    pub fn of(line: &'a str) -> Words<'a> {
        Words {
            left: line.split(' '),
        }
    }

    // The next word as it stands.
    pub fn word(&mut self) -> Result<&'a str, Unreadable> {
        self.left.next().ok_or(Unreadable)
    }

    // The next word as a decimal number of at most 64 bits, of digits alone.
    pub fn number(&mut self) -> Result<usize, Unreadable> {
        let word = self.word()?;
        if word.starts_with('+') {
            return Err(Unreadable);
        }
        word.parse().map_err(|_| Unreadable)
    }

    // The next word as bytes.
    pub fn bytes(&mut self) -> Result<Bytes, Unreadable> {
        Bytes::read(self.word()?)
    }

    // The next six words as the numbers of a shape.
    pub fn shape(&mut self) -> Result<Shape, Unreadable> {
        Ok(Shape {
            tau: self.number()?,
            k: self.number()?,
            w: self.number()?,
            t: self.number()?,
            level: self.number()?,
            kind: self.number()?,
        })
    }

    // Nothing stands behind the words that were read.
    pub fn end(&mut self) -> Result<(), Unreadable> {
        match self.left.next() {
            None => Ok(()),
            Some(_) => Err(Unreadable),
        }
    }
}
