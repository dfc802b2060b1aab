//! A text that is written in pieces, without a look at memory after each.
use base_decimal::{Scale, push_decimal, push_last_digits};
use itoa::Buffer;
use std::alloc::{AllocError, Global};

/// A part of a text.
#[derive(Clone, Copy)]
pub enum Piece<'p> {
    /// Bytes as they are.
    Text(&'p [u8]),
    /// A number in decimal digits.
    Number(usize),
}

/// A text so far. An append says nothing of memory: where it ran out, `finish` answers so.
pub struct TextWriter {
    bytes: Vec<u8>,
    // Whether memory ran out at an append. Nothing more is put then.
    is_cut: bool,
}

// By hand, so that each place that drops one makes one call.
impl Drop for TextWriter {
    #[inline]
    fn drop(self) {
        let TextWriter { bytes, is_cut: _ } = self;
        drop(bytes);
    }
}

impl TextWriter {
    /// An empty text.
    pub fn new(alloc: Global) -> TextWriter {
        TextWriter {
            bytes: Vec::new(alloc),
            is_cut: false,
        }
    }

    /// Whether nothing was put so far.
    pub fn is_empty(&self) -> bool {
        self.bytes.is_empty()
    }

    /// Whether this was put so far.
    pub fn equals(&self, bytes: &[u8]) -> bool {
        self.bytes.as_slice() == bytes
    }

    /// Appends bytes.
    pub fn put(&mut self, bytes: &[u8]) {
        if !self.is_cut {
            self.is_cut = self.bytes.extend_from_slice(bytes).is_err();
        }
    }

    /// Appends a byte.
    pub fn put_byte(&mut self, byte: u8) {
        if !self.is_cut {
            self.is_cut = self.bytes.push(byte).is_err();
        }
    }

    /// Appends a number in decimal digits.
    pub fn put_number(&mut self, number: usize) {
        let mut buffer = Buffer::new();
        self.put(buffer.format(number).as_bytes());
    }

    /// Appends pieces, one after the other.
    pub fn put_all(&mut self, pieces: &[Piece<'_>]) {
        for piece in pieces {
            match piece {
                Piece::Text(bytes) => self.put(bytes),
                Piece::Number(number) => self.put_number(*number),
            }
        }
    }

    /// Appends the last places of a number, with zeros before it where it has fewer.
    pub fn put_last_digits(&mut self, number: u64, places: u8) {
        if !self.is_cut {
            self.is_cut = push_last_digits(&mut self.bytes, number, places).is_err();
        }
    }

    /// Appends a decimal: its coefficient, and its places after the point.
    pub fn put_decimal(&mut self, coefficient: i128, scale: Scale) {
        if !self.is_cut {
            self.is_cut = push_decimal(&mut self.bytes, coefficient, scale).is_err();
        }
    }

    /// Appends the text to another.
    pub fn append_to(self, text: &mut Vec<u8>) -> Result<(), AllocError> {
        let mut bytes = self.finish()?;
        text.append(&mut bytes)
    }

    /// The text.
    pub fn finish(self) -> Result<Vec<u8>, AllocError> {
        let TextWriter { bytes, is_cut } = self;
        if is_cut {
            return Err(AllocError);
        }
        Ok(bytes)
    }
}
