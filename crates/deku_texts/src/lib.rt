//! What modules say of the parts of records: their texts, laid out as `rt fmt` does.
#![tactic(auto)]

pub mod document;
pub mod records;
pub mod refusal;
pub mod template;
pub mod words;
pub mod wrapping;
