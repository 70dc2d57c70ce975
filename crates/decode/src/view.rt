// What a reading sees of a table: how many rows, and what is met where they run out.
ghost use Rattle.std.specs.Prelude.{◌≡◌, true, false, ◌+◌, ◌*◌, ◌≤◌, ◌<◌, length, get_or};
ghost use Rattle.table.specs.Row.{rows_of, toks_of};
ghost use Rattle.xml.specs.Drain.{walked};
ghost use Rattle.document.specs.View.{failure_of, position_at, view};
ghost use Rattle.decode.specs.Seen.{Sees};
ghost use Rattle.table.specs.Kinds.{kind_number};

use crate::drain::{cause_place, walk};
use crate::reader::SeenRows;
use refusal::Refusal;
use table::{Kind, ReadableRows, ValidTable};
use xml::{Cause, DrainError};

// The view: rows of a table, how many of them are seen, what is met where they run out, whether the reading is refused with 9 at its end,
// and the stream position where the rows run out.
#[derive(Clone, Copy)]
pub struct View<'a> {
    pub table: ReadableRows<'a>,
    pub count: usize,
    pub failure: Option<Refusal>,
    pub ill_formed: bool,
    pub ends: usize,
    pub ghost seen: { count * 8 ≤ length table.rows.now },
    pub ghost sees: { Sees table.body.now table.rows.now count },
    pub ghost within: { ends ≤ length table.body.now },
    pub ghost small: { length table.body.now ≤ 65536 },
    pub ghost few: { count ≤ 8192 },
}

// What a text meets after a row that fails the drain; a reference has the place of the drain's cause.
fn failure_of(at: u16, cause: Cause) -> Refusal
    ensures { result ≡ failure_of at cause }
{
    match cause {
        Cause::TokenError => Refusal::TokenError,
        Cause::MismatchedEnd | Cause::UnclosedElement | Cause::RepeatedAttribute =>
            Refusal::IllFormed,
        Cause::BadReference => Refusal::BadReference { at },
    }
}

impl<'a> View<'a> {
    ghost use Rattle.decode.specs.View.{ViewIs, view_of, whole_of};

    // All rows, where nothing stops the reader.
    fn whole(table: ValidTable<'a>) -> Self
        ensures { ViewIs table.entry (whole_of table.entry) result }
    {
        let rows = table.ruled().readable();
        View {
            table: rows,
            count: table.len(),
            failure: None,
            ill_formed: false,
            ends: table.end as usize,
        }
    }

    // The rows before one that fails the drain.
    fn before(table: ValidTable<'a>, row: usize, cause: Cause) -> Self
        requires { Err (DrainError.IllFormed row cause) ≡ walked (toks_of table.body.now (rows_of table.rows.now)) }
        ensures { ViewIs table.entry (view true table.entry.body.now (rows_of table.entry.rows.now) table.entry.end) result }
    {
        let ruled = table.ruled();
        let rows = ruled.readable();
        let at = cause_place(ruled, row, cause) as u16;
        let failure = failure_of(at, cause);
        let ends = position_at(table, row);
        View {
            table: rows,
            count: row,
            failure: Some(failure),
            ill_formed: true,
            ends,
        }
    }

    // What a strict reading sees: the rows before the one that fails the drain.
    fn strict(table: ValidTable<'a>) -> Self
        ensures { ViewIs table.entry (view true table.entry.body.now (rows_of table.entry.rows.now) table.entry.end) result }
    {
        match walk(table.ruled()) {
            Err(DrainError::IllFormed { row, cause }) => Self::before(table, row, cause),
            // A walk never answers that the table breaks a rule.
            Err(DrainError::Table) => Self::whole(table),
            Ok(()) => Self::whole(table),
        }
    }

    // What a lenient reading sees: all rows but a token error, which is the last.
    fn lenient(table: ValidTable<'a>) -> Self
        ensures { ViewIs table.entry (view false table.entry.body.now (rows_of table.entry.rows.now) table.entry.end) result }
    {
        let n = table.len();
        if n == 0 {
            return Self::whole(table);
        }
        if let Kind::Error = table.kind(n - 1) {
            let rows = table.ruled().readable();
            return View {
                table: rows,
                count: n - 1,
                failure: Some(Refusal::TokenError),
                ill_formed: false,
                ends: table.end as usize,
            };
        }
        Self::whole(table)
    }

    // The rows that it sees.
    #[inline(always)]
    pub fn rows(&self) -> SeenRows<'a>
        ensures table { result.table ≡ self.now.table }
        ensures count { result.count ≡ self.now.count }
    {
        SeenRows {
            table: self.table,
            count: self.count,
        }
    }

    // The kind of one.
    #[inline(always)]
    pub fn kind(&self, k: usize) -> Kind
        requires { k < self.now.count }
        ensures { kind_number result ≡ get_or self.now.table.rows.now (k * 8 + 0) 0 }
    {
        self.rows().kind(k)
    }

    // What a reading sees of a table.
    pub fn new(strict: bool, table: ValidTable<'a>) -> Self
        ensures { ViewIs table.entry (view strict table.entry.body.now (rows_of table.entry.rows.now) table.entry.end) result }
    {
        if strict {
            Self::strict(table)
        } else {
            Self::lenient(table)
        }
    }
}

// The position of row k, or the final one where there is no such row.
fn position_at(table: ValidTable, k: usize) -> usize
    ensures { result ≡ position_at table.entry.end (rows_of table.entry.rows.now) k }
{
    if k < table.len() {
        table.position(k)
    } else {
        table.end as usize
    }
}
