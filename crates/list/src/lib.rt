// The children of a root one after another, and what two readings make of them, the list and the string list: of each child that is
// wanted a piece, or its first text; "9 last". What is answered is defined in `readings` (Collection.antt); the crate rests on `decode` for
// the elements, on `codec` for the sheet and on `output` for what is written.
#![tactic(auto)]

pub mod children;
pub mod items;
