// What is said of a row.
use crate::refusal::Refusal;
use std::alloc::Global;

/// Adds a line of two parts.
pub fn say(said: &mut Vec<u8>, head: &str, text: &[u8]) -> Result<(), Refusal> {
    said.extend_from_slice(head.as_bytes())?;
    said.extend_from_slice(text)?;
    said.push(b'\n')?;
    Ok(())
}

/// The words with a space between each two.
pub fn joined(alloc: Global, words: &[&str]) -> Result<String, Refusal> {
    let mut text = String::new(alloc);
    for word in words {
        if !text.is_empty() {
            text.push(' ')?;
        }
        text.push_str(word)?;
    }
    Ok(text)
}
