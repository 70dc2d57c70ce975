// The rules on a row, and on a table.
ghost use Rattle.std.specs.Prelude.{◌≡◌, true, ◌≤◌, ◌<◌, length, get_or, MatchOption};
ghost use Rattle.lists.specs.Decide.{Says};
ghost use Rattle.table.specs.Spans.{Between, Span as SpanRule, LocalSpan, Spans};
ghost use Rattle.table.specs.Bytes.{NoLt, LastIn, Begins, Ends, Bytes};
ghost use Rattle.table.specs.Held.{place_is, row_is};
ghost use Rattle.table.specs.Kinds.{kind_number};
ghost use Rattle.table.specs.Pass.{RowIn};
ghost use Rattle.table.specs.Rules.{after, is_tag};

use crate::kinds::Kind;
use crate::numbers::{Row, Span};
use crate::places::Place;

// Whether a span lies between two positions. Nothing is added, so that nothing can overflow.
fn is_between(span: Span, previous: u32, own: u32) -> bool
    ensures { Says (Between previous own span.start span.len) result }
{
    previous <= span.start && span.start <= own && span.len <= own - span.start
}

// A prefix or a value: not filled where it is not used, 0 and 0 where it is empty, and between two positions where it is filled.
fn is_span(span: Span, used: bool, previous: u32, own: u32) -> bool
    ensures { Says (SpanRule used previous own span.start span.len) result }
{
    if span.len == 0 {
        span.start == 0
    } else {
        used && is_between(span, previous, own)
    }
}

// A local name: 0 and 0 where it is not used, and else between two positions, even if it is empty.
fn is_local(span: Span, used: bool, previous: u32, own: u32) -> bool
    ensures { Says (LocalSpan used previous own span.start span.len) result }
{
    if used {
        is_between(span, previous, own)
    } else {
        span.start == 0 && span.len == 0
    }
}

// All spans of a row of a kind.
fn has_spans(row: Row, kind: Kind, previous: u32) -> bool
    ensures { Says (Spans (kind_number kind) previous (row_is row)) result }
{
    let named = kind.uses_name();
    is_local(row.local, named, previous, row.position)
        && is_span(row.prefix, named, previous, row.position)
        && is_span(row.value, kind.uses_value(), previous, row.position)
}

// The last `<` before a place and not before `low`.
#[tactic(auto, using(crate::proofs::Scan::back_laws))]
pub fn last_lt(body: &[u8], low: usize, at: usize) -> Option<usize>
    requires { at ≤ length body.now }
    ensures { MatchOption result (NoLt body.now low at) (LastIn body.now low at) }
{
    for i in (low..at).rev() {
        if body[i] == b'<' {
            return Some(i);
        }
    }
    None
}

// Whether the tag of a row begins in time: its last `<` stands no earlier than the previous position, and before a filled prefix.
fn begins(body: &[u8], row: Row, previous: u32) -> bool
    requires { (previous ≤ row.local.start) × (row.local.start ≤ length body.now) }
    ensures { Says (Begins body.now previous (row_is row)) result }
{
    match last_lt(body, previous as usize, row.local.start as usize) {
        Some(i) => row.prefix.len == 0 || i < row.prefix.start as usize,
        None => false,
    }
}

// Whether a row of a kind that ends at a place ends in `>` or `/>` where it has to.
fn ends(body: &[u8], kind: Kind, own: usize) -> bool
    requires { own ≤ length body.now }
    ensures { Says (Ends body.now (kind_number kind) own) result }
{
    match kind {
        Kind::Gt | Kind::Close => own >= 1 && body[own - 1] == b'>',
        Kind::Slash => own >= 2 && body[own - 1] == b'>' && body[own - 2] == b'/',
        _ => true,
    }
}

// Both, of a row whose local name begins in time.
fn has_bytes(body: &[u8], row: Row, kind: Kind, previous: u32) -> bool
    requires local { is_tag (kind_number kind) ≡ true → previous ≤ row.local.start }
    requires within { (row.local.start ≤ length body.now) × (row.position ≤ length body.now) }
    ensures { Says (Bytes body.now (kind_number kind) previous (row_is row)) result }
{
    (!kind.is_tag() || begins(body, row, previous)) && ends(body, kind, row.position as usize)
}

// Whether a row of a kind obeys the rules where it stands, before so many more, and ends no later than the last position.
fn is_row(body: &[u8], last: u32, row: Row, kind: Kind, place: Place, left: usize) -> bool
    requires { (last ≤ length body.now) × (kind_number kind ≡ row.kind) }
    ensures { Says (RowIn body.now last (place_is place) (row_is row) left) result }
{
    if row.position < place.position || last < row.position {
        return false;
    }
    has_spans(row, kind, place.position)
        && has_bytes(body, row, kind, place.position)
        && place.admits(kind, left)
}

// The place after a row that obeys the rules. Most rows are of four kinds, which are told apart first, so that the compiler leaves out
// tests that a kind does not need.
pub fn next(body: &[u8], last: u32, row: Row, place: Place, left: usize) -> Option<Place>
    requires { (last ≤ length body.now) × (place.nesting < 65536) }
    ensures { MatchOption result (RowIn body.now last (place_is place) (row_is row) left → ⊥)
        (λ q. RowIn body.now last (place_is place) (row_is row) left × (place_is q ≡ after (place_is place) (row_is row))) }
{
    let kind = Kind::of(row.kind)?;
    let obeys = match kind {
        Kind::Start => is_row(body, last, row, Kind::Start, place, left),
        Kind::Gt => is_row(body, last, row, Kind::Gt, place, left),
        Kind::Close => is_row(body, last, row, Kind::Close, place, left),
        Kind::Text => is_row(body, last, row, Kind::Text, place, left),
        _ => is_row(body, last, row, kind, place, left),
    };
    if obeys {
        Some(place.after(kind, row.position))
    } else {
        None
    }
}
