// What a reading sees of a table: the definitions of src/decode.rs's `Document`, `ScopedDecoder`, `next_start_element` and `try_data`, over
// the tokens of a table; and the parts of a body that it reads or hands out. It rests on `table` and `xml`, on `reference`, `unescape` and
// `refusal`.
#![tactic(auto)]

pub mod part;

// The depth of an element: 0 is the root's. The depth of shapes is another counter, and another type.
#[derive(Clone, Copy)]
pub struct Depth(pub usize);
