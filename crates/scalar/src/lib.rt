// Booleans, integers and strings, each from a body or from a text of an entry; the part of a body that has a name; and the whole text. What
// is answered is defined in `readings` (Scalar.antt, Find.antt); the crate rests on `opening` for the table and the root, on `decode` for
// the elements, on `document` for their texts and on `slices` for a copy. specs/Calls.antt sets out 01's number and values of each answer.
#![tactic(auto)]

pub mod calls;
pub mod find;
pub mod read;
pub mod text;
pub mod whole;
