//! Bytes as rows write them.
//!
//! An end of line is written as itself or as ` / `. A line that ends with `<end>` has none. In a line
//! `<65536*a>` stands for that many times `a`, `<history>` and `<orders>` for the header of such a
//! file with its end of line, `<reads 0..3>` for the lines of reads 0, 1 and 2 by client 1 that found
//! nothing in `x`, `<numbers 0..3>` for `0,1,2`, and any other mark for the bytes whose hexadecimal
//! digits it has. A line that begins with `<40 lines of>` stands there that many times.
use std::alloc::AllocError;
use test_rows::Answer;

const HISTORY: &str = "{\"abd\":\"history\",\"version\":1}\n";

const ORDERS: &str = "{\"abd\":\"orders\",\"version\":1}\n";

/// The numbers on both sides of the two points.
fn range_of(text: &str) -> Option<(u32, u32)> {
    let (first, last) = text.split_once("..")?;
    Some((first.parse::<u32>().ok()?, last.parse::<u32>().ok()?))
}

/// A read by client 1 that found nothing.
fn push_read(bytes: &mut Vec<u8>, call: u32) -> Result<(), AllocError> {
    let text = format!(in *bytes.allocator();
        "{{\"call\":{call},\"client\":1,\"do\":\"read\",\"key\":\"x\",\"row\":\"invoke\"}}\n\
        {{\"call\":{call},\"row\":\"respond\",\"value\":null}}\n"
    )?;
    bytes.extend_from_slice(text.as_bytes())
}

fn push_reads(bytes: &mut Vec<u8>, range: &str) -> Result<(), AllocError> {
    let (first, last) = range_of(range).unwrap_or((0, 0));
    for call in first..last {
        push_read(bytes, call)?;
    }
    Ok(())
}

fn push_number(bytes: &mut Vec<u8>, comma: &str, number: u32) -> Result<(), AllocError> {
    let text = format!(in *bytes.allocator(); "{comma}{number}")?;
    bytes.extend_from_slice(text.as_bytes())
}

/// Numbers with commas between them.
fn push_numbers(bytes: &mut Vec<u8>, range: &str) -> Result<(), AllocError> {
    let (first, last) = range_of(range).unwrap_or((0, 0));
    for number in first..last {
        let comma = if number == first { "" } else { "," };
        push_number(bytes, comma, number)?;
    }
    Ok(())
}

fn push_many(bytes: &mut Vec<u8>, count: &str, text: &str) -> Result<(), AllocError> {
    for _ in 0..count.parse::<u32>().unwrap_or(0) {
        bytes.extend_from_slice(text.as_bytes())?;
    }
    Ok(())
}

/// The byte of two hexadecimal digits.
fn byte_of(digits: &[u8]) -> u8 {
    let mut byte = 0u32;
    for digit in digits {
        let value = char::from(*digit).to_digit(16).unwrap_or(0);
        byte = u32::wrapping_add(u32::wrapping_mul(byte, 16), value);
    }
    (byte & 255) as u8
}

fn push_hexadecimal(bytes: &mut Vec<u8>, digits: &str) -> Result<(), AllocError> {
    for pair in digits.as_bytes().chunks(2) {
        bytes.push(byte_of(pair))?;
    }
    Ok(())
}

fn push_mark(bytes: &mut Vec<u8>, mark: &str) -> Result<(), AllocError> {
    if let Some((count, text)) = mark.split_once('*') {
        push_many(bytes, count, text)
    } else if let Some(range) = mark.strip_prefix("reads ") {
        push_reads(bytes, range)
    } else if let Some(range) = mark.strip_prefix("numbers ") {
        push_numbers(bytes, range)
    } else if mark == "history" {
        bytes.extend_from_slice(HISTORY.as_bytes())
    } else if mark == "orders" {
        bytes.extend_from_slice(ORDERS.as_bytes())
    } else {
        push_hexadecimal(bytes, mark)
    }
}

/// A text with its marks, none of which contains another.
fn push_marked(bytes: &mut Vec<u8>, text: &str) -> Result<(), AllocError> {
    for (place, part) in text.split('<').enumerate() {
        match part.split_once('>') {
            Some((mark, rest)) if place > 0 => {
                push_mark(bytes, mark)?;
                bytes.extend_from_slice(rest.as_bytes())?;
            }
            _ => bytes.extend_from_slice(part.as_bytes())?,
        }
    }
    Ok(())
}

/// A line, and its end where it has one.
fn push_line(bytes: &mut Vec<u8>, line: &str) -> Result<(), AllocError> {
    match line.strip_suffix("<end>") {
        Some(text) => push_marked(bytes, text),
        None => {
            push_marked(bytes, line)?;
            bytes.push(b'\n')?;
            Ok(())
        }
    }
}

/// How many lines a mark at the beginning stands for, and what follows it.
fn many_lines(line: &str) -> Option<(u32, &str)> {
    let (count, text) = line.strip_prefix('<')?.split_once(" lines of>")?;
    Some((count.parse::<u32>().ok()?, text))
}

/// What a line stands for, whose own lines are divided by ` / `.
fn push_divided(bytes: &mut Vec<u8>, line: &str) -> Result<(), AllocError> {
    for line in line.split(" / ") {
        let (count, text) = many_lines(line).unwrap_or((1, line));
        for _ in 0..count {
            push_line(bytes, text)?;
        }
    }
    Ok(())
}

/// The bytes that the lines stand for; out of memory, no more than a beginning.
pub fn bytes_of(out: &mut Answer, lines: &str) -> Vec<u8> {
    let mut bytes = Vec::new(out.alloc());
    for line in lines.lines() {
        out.heed(push_divided(&mut bytes, line));
    }
    bytes
}
