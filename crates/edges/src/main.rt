// The bodies at the edges of the scope paper (01, "Bodies at the edges"), run through the proved functions. For each text a line: the
// text, what `validate_references` answers, and the bytes that `unescape` gives, in hexadecimal; a refusal is its number, and the place
// of the failing `&`. For each body with a table a line: the body, and the drain's number, row, cause and place, the causes counted from
// 1 in the paper's order; then readings, with their entries and texts, and integers. `stdout` has what the paper expects, written by
// hand from the paper and from change request 1, and the check compares. What cannot be printed is let go: the status is 0 all the same,
// and the lines that are expected are missing. It rests on `unescape` and `falzheod`.
#![tactic(auto)]

mod bodies;
mod reading;
mod text;

use anyhow::Result;
use bodies::Upload;
use falzheod::falzheod_drain;
use reading::READINGS;

// What stands before a call in what the call is lent for a number.
const UNSET: u32 = 77;

const TEXTS: [&str; 9] = [
    "&#x41;&lt;",
    "&#+65;",
    "&#0;",
    "&#xD800;",
    "&#x110000;",
    "&#x10FFFF;",
    "&#xFFFE;",
    "a&b",
    "&#+65;&zz;",
];

const DRAINED: [Upload; 5] = [
    bodies::MISMATCHED,
    bodies::UNCLOSED,
    bodies::EMPTY,
    bodies::REPEATED_ATTRIBUTE,
    bodies::BAD_REFERENCE,
];

// "2147483647 is read, 2147483648 gives 12, +5 is 5": a text, and the value after the call, which a refusal leaves alone.
const INTEGERS: [(&str, i32); 3] = [("2147483647", 2147483647), ("2147483648", 0), ("+5", 5)];

fn print_drained(rt: &impl Print, upload: Upload) -> Result<()> {
    let Upload { body, rows, end } = upload;
    let mut row = UNSET as usize;
    let mut cause = UNSET;
    let mut place = UNSET as usize;
    let rows = rows.as_flattened();
    let number = falzheod_drain(body.as_bytes(), rows, end, &mut row, &mut cause, &mut place);
    println!(rt; "{body} drain: {number}, row {row}, cause {cause}, place {place}")?;
    Ok(())
}

fn print_edges(rt: &impl Print) -> Result<()> {
    for text in TEXTS {
        text::print_references(rt, text)?;
    }
    for upload in DRAINED {
        print_drained(rt, upload)?;
    }
    for reading in READINGS {
        reading.print(rt)?;
    }
    for (text, value) in INTEGERS {
        text::print_integer(rt, text, value)?;
    }
    Ok(())
}

// Nothing is printed after a write that failed, and its error is no failure of the program.
fn main(rt: HostRuntime) {
    let _ = print_edges(&rt);
}
