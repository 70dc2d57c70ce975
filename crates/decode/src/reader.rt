// A reader over rows that are seen, by number: scopes, start elements, attributes and texts.
ghost use Rattle.std.specs.Prelude.{◌≡◌, ◌+◌, ◌*◌, ◌≤◌, ◌<◌, drop, length, get_or};
ghost use Rattle.table.specs.Kinds.{kind_number};
ghost use Rattle.table.specs.Flat.{rows_from};
ghost use Rattle.table.specs.Piece.{piece_start};
ghost use Rattle.table.specs.Rows.{InTable, name_at, tok_at};
ghost use Rattle.document.specs.Reader.{depth, ends_at, is_end};
ghost use Rattle.decode.specs.Place.{HasRow, Outside, StartIn, Tagged, EndedAt, at_first, over_at};
ghost use Rattle.decode.specs.Reader.{scope_at};
ghost use Rattle.decode.specs.Seen.{Sees};

use crate::place::{Cursor, Found, Past, Scope, Start};
use document::Depth;
use refusal::Refusal;
use table::{Kind, Pattern, ReadableRows};

// Rows that a reader sees: the first so many of a table, each of which obeys the rules of a row, at whatever place.
#[derive(Clone, Copy)]
pub struct SeenRows<'a> {
    pub table: ReadableRows<'a>,
    pub count: usize,
    pub ghost seen: { count * 8 ≤ length table.rows.now },
    pub ghost sees: { Sees table.body.now table.rows.now count },
}

// Whether the close tag of row k, which leaves depth d, ends a scope.
#[inline(always)]
pub fn is_end(rows: ReadableRows, scope: Scope, k: usize, d: usize) -> bool
    requires row { InTable rows.rows.now k }
    requires has_row { HasRow rows.rows.now scope }
    ensures { result ≡ is_end (scope_at rows.entry.body.now rows.entry.rows.now scope) (depth d)
        (name_at rows.entry.body.now rows.entry.rows.now k) }
{
    match scope {
        Scope::Document => false,
        Scope::Element(own, row) => d == own.0 && rows.same_name(k, row),
    }
}

// Whether row k, which leaves depth d, does.
#[inline(always)]
pub fn ends_at(rows: ReadableRows, scope: Scope, k: usize, d: usize) -> bool
    requires row { InTable rows.rows.now k }
    requires has_row { HasRow rows.rows.now scope }
    ensures { result ≡ ends_at (scope_at rows.entry.body.now rows.entry.rows.now scope) (depth d)
        (tok_at rows.entry.body.now rows.entry.rows.now k) }
{
    let Some(kind) = rows.kind(k) else {
        return false;
    };
    match kind {
        Kind::Close => is_end(rows, scope, k, d),
        _ => false,
    }
}

// A scope is over: where the reader stands then.
fn over(ended: bool, row: usize, d: usize) -> Past
    ensures { result ≡ over_at ended row d }
{
    Past {
        ended,
        at: Cursor {
            row,
            depth: Depth(d),
        },
    }
}

impl SeenRows<'_> {
    ghost use Rattle.decode.specs.Reader.{DropIs, FirstIs, LeaveIs, NamedIn, PastIs, SoughtIs, StartsAt, TagEnd, TagIs, TextBy};
    ghost use Rattle.decode.specs.Reader.{good_attribute};

    // The kind of a row.
    #[inline(always)]
    pub fn kind(&self, k: usize) -> Kind
        requires { k < self.now.count }
        ensures { kind_number result ≡ get_or self.now.table.rows.now (k * 8 + 0) 0 }
    {
        self.table.kind(k).unwrap()
    }

    // On to the end of a scope, from a place.
    pub fn skip(&self, scope: Scope, at: Cursor) -> Past
        requires has_row { HasRow self.now.table.rows.now scope }
        requires tagged { Tagged self.now.table.body.now self.now.table.rows.now self.now.count at }
        ensures { PastIs self.now.table.body.now self.now.table.rows.now self.now.count scope at result }
    {
        let mut d = at.depth.0;
        for k in at.row..self.count {
            d = self.kind(k).open_after(d);
            if ends_at(self.table, scope, k, d) {
                return over(true, k + 1, d);
            }
        }
        over(false, self.count, d)
    }

    // Whether row k is an attribute that unescapes.
    fn is_good(&self, k: usize) -> bool
        requires { k < self.now.count }
        ensures { result ≡ good_attribute self.now.table.body.now self.now.table.rows.now k }
    {
        match self.kind(k) {
            Kind::Attribute => unescape::measure(self.table.value(k)).is_ok(),
            _ => false,
        }
    }

    // How far the start tag of row i is attributes that unescape: up to its end, to one that does not, to a token error, or to where the
    // rows run out.
    fn tag_end(&self, i: usize) -> usize
        requires { i < self.now.count }
        ensures { TagEnd self.now.table.body.now self.now.table.rows.now self.now.count i result }
    {
        let n = self.count;
        for k in i + 1..n {
            if !self.is_good(k) {
                return k;
            }
        }
        n
    }

    // The start element of a row, at depth d. The search for it ends at an attribute that does not unescape, and at a token error, which
    // is the last row.
    #[inline(always)]
    fn start_tag(&self, d: usize, row: usize) -> Result<Found, Past>
        requires { StartsAt self.now.table.body.now self.now.table.rows.now self.now.count d row }
        ensures { TagIs self.now.table.body.now self.now.table.rows.now self.now.count d row result }
    {
        let end = self.tag_end(row);
        let depth = Depth(d);
        if self.count <= end {
            return Err(over(false, end, d + 1));
        }
        match self.kind(end) {
            Kind::Gt => Ok(Found {
                start: Start {
                    row,
                    end,
                    closed: false,
                    depth,
                },
                at: Cursor {
                    row: end + 1,
                    depth: Depth(d + 1),
                },
            }),
            Kind::Slash => Ok(Found {
                start: Start {
                    row,
                    end,
                    closed: true,
                    depth,
                },
                at: Cursor {
                    row: end + 1,
                    depth,
                },
            }),
            _ => Err(over(false, end + 1, d + 1)),
        }
    }

    // The next start element of a scope, from a place, or where the scope ended.
    #[inline(always)]
    pub fn next_start_element(&self, scope: Scope, at: Cursor) -> Result<Found, Past>
        requires has_row { HasRow self.now.table.rows.now scope }
        requires outside { Outside self.now.table.body.now self.now.table.rows.now self.now.count at }
        ensures { SoughtIs self.now.table.body.now self.now.table.rows.now self.now.count scope at result }
    {
        let mut d = at.depth.0;
        for k in at.row..self.count {
            let kind = self.kind(k);
            if let Kind::Start = kind {
                return self.start_tag(d, k);
            }
            d = kind.depth_after(d);
            if ends_at(self.table, scope, k, d) {
                return Err(over(true, k + 1, d));
            }
        }
        Err(over(false, self.count, d))
    }

    // The first start element of all.
    pub fn root_element(&self) -> Result<Found, Past>
        requires { Outside self.now.table.body.now self.now.table.rows.now self.now.count at_first }
        ensures { FirstIs self.now.table.body.now self.now.table.rows.now self.now.count result }
    {
        let at = Cursor {
            row: 0,
            depth: Depth(0),
        };
        self.next_start_element(Scope::Document, at)
    }

    // To the end of an element of which no more is read: `/>` ended it already.
    #[inline(always)]
    #[tactic(auto, using(crate::proofs::Known::tagged))]
    pub fn drop_element(&self, start: Start, at: Cursor) -> Past
        requires start_in { StartIn self.now.table.body.now self.now.table.rows.now self.now.count start }
        requires outside { Outside self.now.table.body.now self.now.table.rows.now self.now.count at }
        ensures { DropIs self.now.table.body.now self.now.table.rows.now self.now.count start at result }
    {
        if start.closed {
            Past { ended: true, at }
        } else {
            self.skip(Scope::Element(start.depth, start.row), at)
        }
    }

    // Where the reader stands after an element whose children were asked for up to a place: the rest of its scope is dropped, if its end
    // was not read yet.
    pub fn leave(&self, start: Start, past: Past) -> Cursor
        requires start_in { StartIn self.now.table.body.now self.now.table.rows.now self.now.count start }
        requires ended_at { EndedAt self.now.table.body.now self.now.table.rows.now self.now.count past }
        ensures { LeaveIs self.now.table.body.now self.now.table.rows.now self.now.count start past result }
    {
        if past.ended {
            return past.at;
        }
        let rest = self.skip(Scope::Element(start.depth, start.row), past.at);
        rest.at
    }

    // The row of the first attribute of a start element that a pattern asks for.
    #[inline(always)]
    pub fn attr(&self, start: Start, pattern: Pattern) -> Option<usize>
        requires { StartIn self.now.table.body.now self.now.table.rows.now self.now.count start }
        ensures { NamedIn self.now.table.body.now self.now.table.rows.now pattern.entry.whole.now (start.row + 1) start.end result }
    {
        for k in start.row + 1..start.end {
            if self.table.matches(k, pattern) {
                return Some(k);
            }
        }
        None
    }

    // The row of the first text of an element, from a place on; none where it has the empty text, as one that ended in `/>` does; or why
    // it is refused, where `failure` is what is met as the rows run out.
    #[inline(always)]
    pub fn try_data(
        &self,
        failure: Option<Refusal>,
        start: Start,
        at: Cursor,
    ) -> Result<Option<usize>, Refusal>
        requires { StartIn self.now.table.body.now self.now.table.rows.now self.now.count start }
        ensures { TextBy self.now.table.body.now self.now.table.rows.now self.now.count failure start at result }
    {
        if start.closed {
            return Ok(None);
        }
        let scope = Scope::Element(start.depth, start.row);
        let mut d = at.depth.0;
        for k in at.row..self.count {
            let kind = self.kind(k);
            match kind {
                Kind::Text => {
                    return Ok(Some(k));
                }
                Kind::Start => {
                    return Err(Refusal::ElementInText);
                }
                _ => {
                    d = kind.depth_after(d);
                    if ends_at(self.table, scope, k, d) {
                        return Ok(None);
                    }
                }
            }
        }
        match failure {
            Some(why) => Err(why),
            None => Ok(None),
        }
    }

    // Where an element begins: at the last `<` before its local name.
    #[inline(always)]
    pub fn piece_start(&self, start: Start) -> usize
        requires { StartIn self.now.table.body.now self.now.table.rows.now self.now.count start }
        ensures { result ≡ piece_start self.now.table.body.now (drop start.row (rows_from self.now.table.rows.now 0 self.now.count)) }
    {
        self.table.begin(start.row)
    }
}
