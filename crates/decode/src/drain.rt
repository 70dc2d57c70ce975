// The strict drain: one walk over the rows, with the open elements by the rows in which they start.
ghost use Rattle.std.specs.Prelude.{◌≡◌, ◌≤◌, ◌<◌, length};
ghost use Rattle.lists.specs.Characters.{ampersand};
ghost use Rattle.lists.specs.Find.{Clear};
ghost use Rattle.reference.specs.Text.{validated};
ghost use Rattle.table.specs.Row.{rows_of, toks_of};
ghost use Rattle.table.specs.Rows.{InTable, name_at, value_at};
ghost use Rattle.xml.specs.Drain.{cause_place, drained, has_name, reference_place, walked};
ghost use Rattle.decode.specs.Drain.{Entered, FaultIs, LiesIn, WellPlaced, failing_in, names_back, top_of, value_fault};
ghost use Rattle.table.specs.Kinds.{kind_number};

use table::{Kind, ReadableRows, RuledRows, Table};
use xml::{Cause, DrainError};

// A part of a body where no `&` stands.
#[derive(Clone, Copy)]
struct Plain<'a> {
    body: &'a [u8],
    from: usize,
    to: usize,
    ghost clear: { Clear body.now ampersand from to },
}

impl<'a> Plain<'a> {
    // The part to look at for a value that begins in a place: the one at hand, or, if the value begins after it, the bytes from there up
    // to the next `&`.
    fn at(self, from: usize) -> Self
        requires { from ≤ length self.body.now }
        ensures { result.body.now ≡ self.entry.body.now }
    {
        if self.to < from {
            let to = slices::find(self.body, from, b'&');
            Plain {
                body: self.body,
                from,
                to,
            }
        } else {
            self
        }
    }

    // Whether a value, by its start and length, lies in it.
    fn holds(self, from: usize, len: usize) -> bool
        ensures { LiesIn from len self.entry.from self.entry.to result }
    {
        self.from <= from && from <= self.to && len <= self.to - from
    }
}

// The start rows of the open elements, the innermost last.
#[derive(Drop)]
struct Open {
    rows: [usize; 256],
    depth: usize,
    ghost size: { length rows ≡ 256 },
    ghost most: { depth ≤ 256 },
}

impl Open {
    // That of the innermost, or row 0.
    fn top(&self) -> usize
        ensures { result ≡ top_of self.now.rows self.now.depth }
    {
        if self.depth == 0 {
            0
        } else {
            self.rows[self.depth - 1]
        }
    }

    // After row k, of a kind: where it starts an element, that is put among them; a close tag and `/>` take one off.
    fn enter(&mut self, kind: Kind, k: usize)
        requires { kind_number kind ≡ 1 → self.old.depth < 256 }
        ensures { Entered self.old.rows self.old.depth (kind_number kind) k self.new.rows self.new.depth }
    {
        match kind {
            Kind::Start => {
                self.rows[self.depth] = k;
                self.depth += 1;
            }
            Kind::Close | Kind::Slash => {
                self.depth = self.depth.saturating_sub(1);
            }
            _ => {}
        }
    }
}

// Whether a row between a start row and row k has the name of row k: a look over the attributes of one start tag.
fn is_repeated(table: ReadableRows, tag: usize, k: usize) -> bool
    requires in_table { InTable table.rows.now k }
    requires in_tag { tag < k }
    ensures { result ≡ has_name (name_at table.entry.body.now table.entry.rows.now k)
        (names_back table.entry.body.now table.entry.rows.now tag k) }
{
    for j in tag + 1..k {
        if table.same_name(k, j) {
            return true;
        }
    }
    false
}

// Whether each reference in the value of row k is right: one in a part without `&` has none.
fn check_references(table: ReadableRows, k: usize, plain: Plain) -> Result<(), Cause>
    requires in_table { InTable table.rows.now k }
    requires of_body { plain.body.now ≡ table.body.now }
    ensures { result ≡ value_fault (value_at table.entry.body.now table.entry.rows.now k) }
{
    let value = table.value(k);
    if plain.holds(table.value_start(k), value.len()) {
        return Ok(());
    }
    unescape::validate_references(value).map_err(|_| Cause::BadReference)
}

// What is wrong with row k, if anything is, where the innermost open element starts in row `top`: an attribute stands in that one's start
// tag.
fn row_fault(table: RuledRows, top: usize, k: usize, plain: Plain) -> Result<(), Cause>
    requires placed { WellPlaced table.rows.now top k }
    requires of_body { plain.body.now ≡ table.body.now }
    ensures { FaultIs table.entry.body.now table.entry.rows.now top k result }
{
    let rows = table.readable();
    match table.kind(k) {
        Kind::Attribute => {
            if is_repeated(rows, top, k) {
                Err(Cause::RepeatedAttribute)
            } else {
                check_references(rows, k, plain)
            }
        }
        Kind::Text => check_references(rows, k, plain),
        Kind::Close => {
            if rows.same_name(k, top) {
                Ok(())
            } else {
                Err(Cause::MismatchedEnd)
            }
        }
        Kind::Error => Err(Cause::TokenError),
        _ => Ok(()),
    }
}

// The walk of the drain, over rows that obey the rules.
pub fn walk(table: RuledRows) -> Result<(), DrainError>
    ensures { result ≡ walked (toks_of table.entry.body.now (rows_of table.entry.rows.now)) }
{
    let n = table.len();
    let rows = table.readable();
    let mut open = Open {
        rows: [0; 256],
        depth: 0,
    };
    let mut plain = Plain {
        body: table.body,
        from: 0,
        to: 0,
    };
    for k in 0..n {
        plain = plain.at(rows.value_start(k));
        if let Err(cause) = row_fault(table, open.top(), k, plain) {
            return Err(DrainError::IllFormed { row: k, cause });
        }
        open.enter(table.kind(k), k);
    }
    if open.depth == 0 {
        Ok(())
    } else {
        Err(DrainError::IllFormed {
            row: n,
            cause: Cause::UnclosedElement,
        })
    }
}

// The strict drain: whether a table obeys the rules and its tokens are well-formed, or the first row that is not, and why.
pub fn drain(table: Table) -> Result<(), DrainError>
    ensures { result ≡ drained table.entry.body.now table.entry.rows.now table.entry.end }
{
    match table.check() {
        Some(valid) => walk(valid.ruled()),
        None => Err(DrainError::Table),
    }
}

// Where validating the value of row k fails, as an offset in the body: the start of the value where it is valid.
fn value_place(table: ReadableRows, k: usize) -> usize
    requires { InTable table.rows.now k }
    ensures { result ≡ failing_in table.entry.body.now table.entry.rows.now k }
{
    let from = table.value_start(k);
    match unescape::validate_references(table.value(k)) {
        Ok(()) => from,
        Err(bad) => from + bad.at,
    }
}

// The place of the failing `&` in row k, or 0 where there is no such row.
fn reference_place(table: RuledRows, k: usize) -> usize
    ensures { result ≡ reference_place table.entry.body.now (rows_of table.entry.rows.now) k }
{
    if k < table.len() {
        value_place(table.readable(), k)
    } else {
        0
    }
}

// The place of a cause that the drain answers with row k, as an offset in the body: only a reference has one, that of the failing `&`.
// The value is validated once more, so that the walk need not keep the place.
pub fn cause_place(table: RuledRows, k: usize, cause: Cause) -> usize
    ensures { result ≡ cause_place table.entry.body.now (rows_of table.entry.rows.now) k cause }
{
    match cause {
        Cause::BadReference => reference_place(table, k),
        Cause::TokenError
        | Cause::MismatchedEnd
        | Cause::UnclosedElement
        | Cause::RepeatedAttribute => 0,
    }
}
