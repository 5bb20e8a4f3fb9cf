// The lines of a text.
use crate::fault::Wrong;

/// Adds the bytes that the line stands for.
pub(crate) fn add_piece(bytes: &mut Vec<u8>, line: &str) -> Result<(), Wrong> {
    match line.split_once(' ') {
        None => add_empty_line(bytes, line),
        Some((mark, text)) => add_marked(bytes, mark, text),
    }
}

fn add_empty_line(bytes: &mut Vec<u8>, line: &str) -> Result<(), Wrong> {
    if line == "|" {
        add_line(bytes, "")
    } else {
        Err(Wrong::Stray)
    }
}

fn add_marked(bytes: &mut Vec<u8>, mark: &str, text: &str) -> Result<(), Wrong> {
    match mark {
        "|" => add_line(bytes, text),
        "+" => add_escaped(bytes, text, 0),
        "*" => add_repeated(bytes, text),
        _ => Err(Wrong::Stray),
    }
}

fn add_line(bytes: &mut Vec<u8>, text: &str) -> Result<(), Wrong> {
    bytes.extend_from_slice(text.as_bytes())?;
    bytes.push(b'\n')?;
    Ok(())
}

// A piece with its count before it.
fn add_repeated(bytes: &mut Vec<u8>, text: &str) -> Result<(), Wrong> {
    let Some((count, piece)) = text.split_once(' ') else {
        return Err(Wrong::Number);
    };
    let Ok(count) = count.parse::<u32>() else {
        return Err(Wrong::Number);
    };
    if piece.contains("\\#") {
        add_numbered(bytes, piece, count)
    } else {
        add_copies(bytes, piece, count)
    }
}

fn add_numbered(bytes: &mut Vec<u8>, piece: &str, count: u32) -> Result<(), Wrong> {
    for number in 0..count {
        add_escaped(bytes, piece, number)?;
    }
    Ok(())
}

fn add_copies(bytes: &mut Vec<u8>, piece: &str, count: u32) -> Result<(), Wrong> {
    let mut copy = Vec::new(*bytes.allocator());
    add_escaped(&mut copy, piece, 0)?;
    for _ in 0..count {
        bytes.extend_from_slice(&copy)?;
    }
    Ok(())
}

// A piece with its escapes. A backslash is itself an escape, so each one begins one.
fn add_escaped(bytes: &mut Vec<u8>, piece: &str, number: u32) -> Result<(), Wrong> {
    let Some((front, escapes)) = piece.split_once('\\') else {
        bytes.extend_from_slice(piece.as_bytes())?;
        return Ok(());
    };
    bytes.extend_from_slice(front.as_bytes())?;
    for part in escapes.split('\\') {
        add_escape(bytes, part.as_bytes(), number)?;
    }
    Ok(())
}

// The escape that the part begins with, without its backslash, and what stands behind it.
fn add_escape(bytes: &mut Vec<u8>, part: &[u8], number: u32) -> Result<(), Wrong> {
    match part {
        [b'n', rest @ ..] => add_before(bytes, b'\n', rest),
        [b's', rest @ ..] => add_before(bytes, b'\\', rest),
        [b'x', high, low, rest @ ..] => match byte_of(*high, *low) {
            Some(byte) => add_before(bytes, byte, rest),
            None => Err(Wrong::Escape),
        },
        [b'#', rest @ ..] => add_number(bytes, number, rest),
        _ => Err(Wrong::Escape),
    }
}

fn add_before(bytes: &mut Vec<u8>, byte: u8, rest: &[u8]) -> Result<(), Wrong> {
    bytes.push(byte)?;
    bytes.extend_from_slice(rest)?;
    Ok(())
}

fn add_number(bytes: &mut Vec<u8>, number: u32, rest: &[u8]) -> Result<(), Wrong> {
    let digits = number.to_string(*bytes.allocator())?;
    bytes.extend_from_slice(digits.as_bytes())?;
    bytes.extend_from_slice(rest)?;
    Ok(())
}

// The byte of two hexadecimal digits.
fn byte_of(high: u8, low: u8) -> Option<u8> {
    let high = char::from(high).to_digit(16)?;
    let low = char::from(low).to_digit(16)?;
    u8::try_from(high.saturating_mul(16).saturating_add(low)).ok()
}
