// The open operations: each answers 01's number, 0 where it finished. `falzheod_c` exports them for C and Rust (include/falzheod.h, rust/).
// It only turns the answers of the crates below into numbers; specs/ sets out the number and the values of each case.
#![tactic(auto)]

ghost use Rattle.std.specs.Prelude.{◌≡◌};
ghost use Rattle.lists.specs.Tests.{yes_no};
ghost use Rattle.reference.specs.Text.{validated};
ghost use Rattle.utf8.specs.Table.{is_utf8};
ghost use Rattle.table.specs.Row.{rows_of};
ghost use Rattle.xml.specs.Drain.{drained, drain_place};
ghost use Rattle.falzheod.specs.Numbers.{ValidateCall, UnescapeCall, cause_number, DrainCall};

pub mod aggregates;
pub mod scalars;

use decode::drain::{cause_place, walk};
use reference::UnescapeError;
use refusal::Refusal;
use table::Table;
use xml::{Cause, DrainError};

// 01's number of a text with a failing `&`. `Refusal` has it for a place in a body, which is a number of 16 bits.
const BAD_REFERENCE: u32 = 7;

// 0 where each reference of the text is right, else 7; `place` is then where the first failing `&` stands in the text, else 0.
pub fn falzheod_validate_references(text: &[u8], place: &mut usize) -> u32
    ensures validated { ValidateCall (validated text.now) place.new result }
{
    match unescape::validate_references(text) {
        Ok(()) => {
            *place = 0;
            0
        }
        Err(bad) => {
            *place = bad.at;
            BAD_REFERENCE
        }
    }
}

// Replaces each reference of the text by its character, into out: 0, 7 or 10. `length` is how many bytes of out were written, and `place`
// where the first failing `&` stands in the text, 0 where the number is not 7.
pub fn falzheod_unescape(text: &[u8], out: &mut [u8], length: &mut usize, place: &mut usize) -> u32
    ensures unescaped { UnescapeCall text.now out.old out.new length.new
        place.new result }
{
    *length = 0;
    *place = 0;
    match unescape::unescape(text, out) {
        Ok(n) => {
            *length = n;
            0
        }
        Err(UnescapeError::BadReference { at }) => {
            *place = at;
            BAD_REFERENCE
        }
        Err(UnescapeError::NoRoom) => Refusal::NoRoom.number(),
    }
}

// 1 where the text is well-formed UTF-8, else 0.
pub fn falzheod_is_utf8(text: &[u8]) -> u32
    ensures well_formed { result ≡ yes_no (is_utf8 text.now) }
{
    utf8::is_utf8(text) as u32
}

// The number of a cause, as the header names it.
fn cause_number(cause: Cause) -> u32
    ensures { result ≡ cause_number cause }
{
    match cause {
        Cause::TokenError => 1,
        Cause::MismatchedEnd => 2,
        Cause::UnclosedElement => 3,
        Cause::RepeatedAttribute => 4,
        Cause::BadReference => 5,
    }
}

// The strict drain of a body by its table: 0, 1 or 9. `row` and `cause` are the first failing row and its cause where it is 9, else 0;
// `place` is where the failing `&` stands in the body where the cause is a reference, else 0.
pub fn falzheod_drain(
    body: &[u8],
    rows: &[u32],
    end: u32,
    row: &mut usize,
    cause: &mut u32,
    place: &mut usize,
) -> u32
    ensures drained { DrainCall (drained body.now rows.now end) row.new cause.new result }
    ensures place { place.new ≡ drain_place body.now (rows_of rows.now)
        (drained body.now rows.now end) }
{
    *row = 0;
    *cause = 0;
    *place = 0;
    let lent = Table { body, rows, end };
    let Some(valid) = lent.check() else {
        return Refusal::Table.number();
    };
    let table = valid.ruled();
    match walk(table) {
        Ok(()) => 0,
        Err(DrainError::Table) => Refusal::Table.number(),
        Err(
            DrainError::IllFormed {
                row: first,
                cause: why,
            },
        ) => {
            *row = first;
            *cause = cause_number(why);
            *place = cause_place(table, first, why);
            Refusal::IllFormed.number()
        }
    }
}
