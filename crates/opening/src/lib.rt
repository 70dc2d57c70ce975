// What readings have in common: what each asks first, in 01's order, 1 the table, 2 the sheet, 3 the depth, 4 the root; which children of
// a collection are wanted; and "9 last". What is answered is defined in `readings` (Opening.antt, Collection.antt); the crate rests on
// `table` for the rules, on `codec` for what a sheet says, and on `decode` for the view and the root.
#![tactic(auto)]

ghost use Rattle.std.specs.Prelude.{◌≡◌, not};
ghost use Rattle.codec.specs.Told.{told};
ghost use Rattle.document.specs.View.{view};
ghost use Rattle.readings.specs.Collection.{is_wanted};
ghost use Rattle.readings.specs.Opening.{opened, rooted};
ghost use Rattle.table.specs.Row.{rows_of};
ghost use Rattle.table.specs.Rows.{InTable, name_at};
ghost use Rattle.decode.specs.Element.{child_of};
ghost use Rattle.opening.specs.Opening.{AskedIs, AskedObeying, Obeying, OpeningIs, asked_where, upload_of};
ghost use Rattle.opening.specs.Wanted.{asked_by, last_of, wanted};

use decode::element::Element;
use decode::view::View;
use refusal::Refusal;
use table::patterns::Pattern;
use table::rows::{ReadableRows, Table, ValidTable};

// The root of a table that obeys the rules, or 4.
pub fn root<'a>(strict: bool, table: ValidTable<'a>) -> Result<Element<'a>, Refusal>
    ensures is { OpeningIs table.entry.body.now
        (rooted table.entry.body.now (view strict table.entry.body.now (rows_of table.entry.rows.now) table.entry.end)) result }
    ensures obeys { Obeying table.entry.end result }
{
    let seen = View::new(strict, table);
    seen.root().ok_or(Refusal::NoRoot)
}

// "1, 4", of a reading without a sheet.
pub fn open<'a>(strict: bool, table: Table<'a>) -> Result<Element<'a>, Refusal>
    ensures is { OpeningIs table.entry.body.now (opened strict (upload_of table.entry)) result }
    ensures obeys { Obeying table.entry.end result }
{
    match table.check() {
        Some(valid) => root(strict, valid),
        None => Err(Refusal::Table),
    }
}

// "1, 2, 3, 4": the sheet, if it could be read, and the root. Whether the depth guard was entered was found out before.
pub fn ask<'a, S: Drop>(
    table: Table<'a>,
    sheet: Option<S>,
    entered: bool,
    strict: bool,
) -> Result<(S, Element<'a>), Refusal>
    ensures is { AskedIs table.entry.body.now (asked_where (not entered) strict (upload_of table.entry) (told sheet)) result }
    ensures obeys { AskedObeying table.entry.end result }
{
    let valid = table.check().ok_or(Refusal::Table)?;
    let sheet = sheet.ok_or(Refusal::Sheet)?;
    if !entered {
        return Err(Refusal::Depth);
    }
    let root = root(strict, valid)?;
    Ok((sheet, root))
}

// Whether a child has the name that is asked for, if one is.
pub fn is_wanted(name: Option<Pattern>, child: &Element) -> bool
    ensures { result ≡ is_wanted (asked_by name.entry) (child_of child.now) }
{
    is_row_wanted(name, child.view.table, child.start.row)
}

// The same of a row, of any rows that can be read.
pub fn is_row_wanted(name: Option<Pattern>, rows: ReadableRows, k: usize) -> bool
    requires { InTable rows.rows.now k }
    ensures { result ≡ wanted (asked_by name.entry) (name_at rows.entry.body.now rows.entry.rows.now k) }
{
    match name {
        Some(pattern) => rows.matches(k, pattern),
        None => true,
    }
}

// "9 last": a strict reading of an ill-formed body is refused once its children are read.
pub fn tested(ill_formed: bool, got: Result<(), Refusal>) -> Result<(), Refusal>
    ensures { result ≡ last_of ill_formed got }
{
    got?;
    if ill_formed {
        return Err(Refusal::IllFormed);
    }
    Ok(())
}
