// The rows of an element, counted from its first byte: a table of its own, with the element's bytes as body and their number as final
// position (01, the end of "Token table"). What they are is defined in `table` (Piece.antt); the crate rests on it for the rows.
#![tactic(auto)]

ghost use Rattle.std.specs.Prelude.{◌≡◌, ◌+◌, ◌-◌, ◌*◌, ◌/◌, ◌≤◌, length};
ghost use Rattle.std.proofs.lemmas.List.Edits.{sets};
ghost use Rattle.lists.specs.Decide.{Says};
ghost use Rattle.table.specs.Flat.{rows_from};
ghost use Rattle.table.specs.Held.{row_is};
ghost use Rattle.table.specs.Piece.{moved, moved_span, closing};
ghost use Rattle.element.specs.Rows.{eight_numbers, moved_table, StartsAfter, FirstAfter, OwnRows};

use table::{Kind, Row, Span};

// ---- where an element's rows are

// Whether row k starts an element and its local name stands after a place.
fn starts_after(rows: &[u32], k: usize, place: u32) -> bool
    requires { k * 8 + 8 ≤ length rows.now }
    ensures { Says (StartsAfter rows.now place k) result }
{
    let row = Row::at(rows, k);
    row.kind == Kind::Start as u32 && place < row.local.start
}

// The first start row whose local name stands after a place, that of the element that begins there, if one does; or the number of rows.
#[tactic(auto, using(crate::proofs::Rows::seeking_laws))]
fn start_row(rows: &[u32], place: u32) -> usize
    ensures { FirstAfter rows.now place result }
{
    let n = rows.len() / 8;
    for k in 0..n {
        if starts_after(rows, k, place) {
            return k;
        }
    }
    n
}

// How many rows an element has that starts in row k: up to the row after which no element of its is open, or to the last.
#[tactic(auto, using(crate::proofs::Rows::counting_laws))]
fn row_count(rows: &[u32], k: usize) -> usize
    requires { k ≤ length rows.now / 8 }
    ensures { result ≡ closing 0 (rows_from rows.now k (length rows.now / 8 - k)) }
{
    let n = rows.len() / 8;
    let mut open = 0;
    for j in k..n {
        open = Row::at(rows, j).open_after(open);
        if open == 0 {
            return j + 1 - k;
        }
    }
    n - k
}

// ---- its rows, counted from a place

// A prefix or a value, counted from a place; an empty one stays.
fn moved_span(span: Span, place: u32) -> Span
    ensures start { result.start ≡ moved_span place span.start span.len }
    ensures len { result.len ≡ span.len }
{
    let start = if span.len == 0 {
        span.start
    } else {
        span.start.saturating_sub(place)
    };
    Span {
        start,
        len: span.len,
    }
}

// A local name, counted from a place, in a row that has one.
fn moved_local(row: Row, place: u32) -> Span
    ensures start { result.start ≡ (moved place (row_is row)).local_start }
    ensures len { result.len ≡ row.local.len }
{
    let from = row.local.start;
    Span {
        start: if row.uses_name() {
            from.saturating_sub(place)
        } else {
            from
        },
        len: row.local.len,
    }
}

// A row, counted from a place.
fn moved(row: Row, place: u32) -> Row
    ensures { row_is result ≡ moved place (row_is row) }
{
    Row {
        kind: row.kind,
        prefix: moved_span(row.prefix, place),
        local: moved_local(row, place),
        value: moved_span(row.value, place),
        position: row.position.saturating_sub(place),
    }
}

// A row as row i of a table.
fn put_row(row: Row, out: &mut [u32], i: usize)
    requires { i * 8 + 8 ≤ length out.old }
    ensures { out.new ≡ sets out.old (i * 8) (eight_numbers (row_is row)) }
{
    let Row {
        kind,
        prefix,
        local,
        value,
        position,
    } = row;
    let at = i * 8;
    out[at..at + 8].copy_from_slice(&[
        kind,
        prefix.start,
        prefix.len,
        local.start,
        local.len,
        value.start,
        value.len,
        position,
    ]);
}

// The n rows from row k on, counted from a place, at the front of another table.
#[tactic(auto, using(crate::proofs::Numbers::copying_laws))]
fn put_rows(rows: &[u32], k: usize, n: usize, place: u32, out: &mut [u32])
    requires n_in_bounds { (k + n) * 8 ≤ length rows.now }
    requires n_in_bounds_2 { n * 8 ≤ length out.old }
    ensures { out.new ≡ sets out.old 0 (moved_table place (rows_from rows.now k n)) }
{
    for i in 0..n {
        put_row(moved(Row::at(rows, k + i), place), out, i);
    }
}

// The rows of the element that begins at a place, counted from there, at the front of another table: how many they are. Where there is no
// room for all of them nothing is written, and the answer is 0.
#[tactic(auto, using(crate::proofs::Rows::own_laws))]
pub fn own_rows(rows: &[u32], place: u32, out: &mut [u32]) -> usize
    ensures { OwnRows rows.now place out.old out.new result }
{
    let k = start_row(rows, place);
    let n = row_count(rows, k);
    if out.len() / 8 < n {
        return 0;
    }
    put_rows(rows, k, n, place, out);
    n
}
