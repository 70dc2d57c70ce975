// The port of src/codec.rs, and the schema as a sheet: a sheet's bytes are read once, in one pass, into a struct that lends names from
// them and holds no copies. A contract speaks of what a sheet that was read says, by the definitions of `sheet`, on which the crate rests;
// names are compared by `slices`.
#![tactic(auto)]

pub mod collection;
pub mod guard;
pub mod members;
pub mod reader;
pub mod structure;
