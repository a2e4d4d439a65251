//! Words of a command line.

use case_lines::CaseStop;
use std::alloc::Global;

/// A word of these bytes.
pub fn word_of(alloc: Global, bytes: &[u8]) -> Result<String, CaseStop> {
    let word = str::from_utf8(bytes).ok().ok_or(CaseStop::Unread)?;
    Ok(String::from_str(alloc, word)?)
}

/// The words of a text, a space between two of them.
pub fn words_of(alloc: Global, text: &[u8]) -> Result<Vec<String>, CaseStop> {
    let mut words = Vec::new(alloc);
    for word in text.split(|byte| *byte == b' ') {
        if !word.is_empty() {
            words.push(word_of(alloc, word)?)?;
        }
    }
    Ok(words)
}
