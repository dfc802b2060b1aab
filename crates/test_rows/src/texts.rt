//! The texts of a case, which are read line by line.
use itoa::Buffer;
use std::alloc::{AllocError, Global};

/// A header, and the bytes that it is followed by.
pub struct Text {
    pub header: String,
    pub bytes: Vec<u8>,
}

impl Drop for Text {
    #[inline]
    fn drop(self) {
        let Text { header, bytes: _ } = self;
        drop(header);
    }
}

/// The value of a hexadecimal digit.
fn digit(byte: u8) -> u8 {
    match byte {
        b'0'..=b'9' => byte.wrapping_sub(b'0'),
        _ => byte.wrapping_sub(87),
    }
}

/// Puts the bytes whose digits these are, two for each.
fn put_digits(bytes: &mut Vec<u8>, digits: &str) -> Result<(), AllocError> {
    let mut high = None;
    for byte in digits.as_bytes() {
        high = match high {
            None => Some(digit(*byte)),
            Some(value) => {
                bytes.push(u8::wrapping_mul(value, 16).wrapping_add(digit(*byte)))?;
                None
            }
        };
    }
    Ok(())
}

/// Puts the bytes that words say, with a number between them.
fn put_numbered(bytes: &mut Vec<u8>, number: u32, words: &str) -> Result<(), AllocError> {
    let mut is_first = true;
    for digits in words.split(' ') {
        if !is_first {
            let mut buffer = Buffer::new();
            bytes.extend_from_slice(buffer.format(number).as_bytes())?;
        }
        put_digits(bytes, digits)?;
        is_first = false;
    }
    Ok(())
}

/// The word before the first blank, and the others.
fn split_word(words: &str) -> (&str, &str) {
    words.split_once(' ').unwrap_or((words, ""))
}

/// Puts what a line `FIRST LAST WORDS` says, once for each number.
fn put_repeated(bytes: &mut Vec<u8>, line: &str) -> Result<(), AllocError> {
    let (first, rest) = split_word(line);
    let (last, words) = split_word(rest);
    let first = first.parse::<u32>().unwrap_or(0);
    let last = last.parse::<u32>().unwrap_or(0);
    for number in first..last.saturating_add(1) {
        put_numbered(bytes, number, words)?;
    }
    Ok(())
}

/// Puts the bytes that a line stands for.
fn put_bytes(bytes: &mut Vec<u8>, line: &str) -> Result<(), AllocError> {
    let Some(text) = line.strip_prefix("+") else {
        return put_repeated(bytes, line);
    };
    bytes.extend_from_slice(text.as_bytes())?;
    bytes.push(b'\n')?;
    Ok(())
}

/// Puts a text that begins with this header.
fn put_text(alloc: Global, case: &mut Vec<Text>, header: &str) -> Result<(), AllocError> {
    let header = String::from_str(alloc, header)?;
    let bytes = Vec::new(alloc);
    case.push(Text { header, bytes })?;
    Ok(())
}

/// Puts the next line of a case.
pub fn put_line(alloc: Global, case: &mut Vec<Text>, line: &str) -> Result<(), AllocError> {
    if let Some(header) = line.strip_prefix(">") {
        return put_text(alloc, case, header);
    }
    match case.last_mut() {
        Some(text) => put_bytes(&mut text.bytes, line),
        None => Ok(()),
    }
}
