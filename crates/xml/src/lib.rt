// Well-formed documents: the grammar of XML 1.0 over the tokens of a table, and the strict drain (01, "Drain") as a definition, with
// the theorems that join the two. This crate has types and specs/, and no function; it rests on `table` and on `reference`.
#![tactic(auto)]

// Why a body is ill-formed (01, "Drain").
#[derive(Clone, Copy, PartialEq, Eq, Debug)]
pub enum Cause {
    TokenError,
    MismatchedEnd,
    UnclosedElement,
    RepeatedAttribute,
    BadReference,
}

// Why the drain refuses: 01's number 1, Table, or 9, IllFormed, with the first failing row and its cause.
#[derive(Clone, Copy, PartialEq, Eq, Debug)]
pub enum DrainError {
    Table,
    IllFormed { row: usize, cause: Cause },
}
