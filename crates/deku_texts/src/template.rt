//! Texts with holes.

use std::alloc::AllocError;

/// Appends a template: a text in which a name between two `$` stands for the word of this name. A
/// name without a word stands for nothing.
///
/// # Errors
///
/// `AllocError` if there is no memory.
///
/// ```text
/// fill(out, "impl $what$ for $name$ {}\n", &[("what", "Last<u8>"), ("name", "EndLast")])?
/// // impl Last<u8> for EndLast {}
/// ```
pub fn fill<'w>(
    out: &mut String,
    template: &str,
    words: &[(&'w str, &'w str)],
) -> Result<(), AllocError> {
    for (i, piece) in template.split('$').enumerate() {
        out.push_str(if i % 2 == 0 {
            piece
        } else {
            word(words, piece)
        })?;
    }
    Ok(())
}

// The word of a name.
fn word<'w>(words: &[(&'w str, &'w str)], name: &str) -> &'w str {
    match words.iter().find(|word| word.0 == name) {
        Some(word) => word.1,
        None => "",
    }
}
