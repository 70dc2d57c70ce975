// The port of src/decode.rs: the strict drain, what a reading sees of a table, a reader over the rows that are seen, and the elements in
// them: names, attributes, texts, children and pieces. What they answer is defined in `xml` (the drain) and in `document`; the crate rests
// on `table` for the rows and their rules, and on `unescape` for references.
#![tactic(auto)]

pub mod drain;
pub mod element;
pub mod place;
pub mod reader;
pub mod view;
