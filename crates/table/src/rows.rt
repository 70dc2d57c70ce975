// Token tables: as they are lent, those that obey the rules, and rows of which less is known.
ghost use Rattle.std.specs.Prelude.{◌≡◌, true, false, ◌+◌, ◌*◌, ◌/◌, ◌%◌, ◌≤◌, length, get_or, MatchOption};
ghost use Rattle.lists.specs.Decide.{is_yes, Says};
ghost use Rattle.table.specs.Test.{dec_table};
ghost use Rattle.table.specs.Rules.{at_first, begin_of};
ghost use Rattle.table.specs.Pass.{Rest, Small};
ghost use Rattle.table.specs.Flat.{SpansIn, row_at, rows_from};
ghost use Rattle.table.specs.Held.{row_is};
ghost use Rattle.table.specs.Kinds.{IsKind, kind_number};
ghost use Rattle.table.specs.Row.{cut};
ghost use Rattle.table.specs.Names.{name_matches};
ghost use Rattle.table.specs.Rows.{InTable, Obeys, Readable, Walkable, name_at, value_at};

use crate::kinds::Kind;
use crate::limit::{BYTES, ROWS};
use crate::numbers::{Row, Span};
use crate::patterns::Pattern;
use crate::places::Place;
use crate::rules::{last_lt, next};

// A token table as it is lent, of any content: a body, its rows, eight numbers a row, and the final position.
#[derive(Clone, Copy)]
pub struct Table<'a> {
    pub body: &'a [u8],
    pub rows: &'a [u32],
    pub end: u32,
}

// One that obeys the table rules.
#[derive(Clone, Copy)]
pub struct ValidTable<'a> {
    pub body: &'a [u8],
    pub rows: &'a [u32],
    pub end: u32,
    pub ghost obeys: { Obeys body.now rows.now end },
}

// Rows whose spans lie in the body.
#[derive(Clone, Copy)]
pub struct ReadableRows<'a> {
    pub body: &'a [u8],
    pub rows: &'a [u32],
    pub ghost readable: { Readable body.now rows.now },
}

// Whole rows, each of which obeys the rules of a row where it stands, whatever their number, the length and UTF-8 of the body, and the
// final position.
#[derive(Clone, Copy)]
pub struct RuledRows<'a> {
    pub body: &'a [u8],
    pub rows: &'a [u32],
    pub ghost walkable: { ∥ Walkable body.now rows.now ∥₁ },
}

impl<'a> Table<'a> {
    // Whether each row obeys the rules where it stands, and ends no later than the final position.
    #[tactic(auto, using(crate::proofs::Pass::walk_laws))]
    fn has_rows(self) -> bool
        requires whole { length self.rows.now % 8 ≡ 0 }
        requires few { length self.rows.now / 8 ≤ 8192 }
        requires within { self.end ≤ length self.body.now }
        ensures { Says (Rest self.entry.body.now self.entry.end at_first
            (rows_from self.entry.rows.now 0 (length self.entry.rows.now / 8))) result }
    {
        let n = self.rows.len() / 8;
        let mut place = Place::first();
        for k in 0..n {
            match next(
                self.body,
                self.end,
                Row::at(self.rows, k),
                place,
                n - (k + 1),
            ) {
                Some(after) => place = after,
                None => return false,
            }
        }
        true
    }

    // Whether it is whole rows, and within the limits.
    fn is_small(self) -> bool
        ensures { Says (Small self.entry.body.now self.entry.rows.now self.entry.end) result }
    {
        self.rows.len() % 8 == 0
            && self.rows.len() / 8 <= ROWS
            && self.body.len() <= BYTES
            && self.end as usize <= self.body.len()
    }

    // Whether it obeys the table rules.
    #[tactic(auto, using(crate::proofs::Pass::obeys_laws))]
    pub fn obeys(self) -> bool
        ensures { result ≡ is_yes (dec_table self.entry.body.now self.entry.rows.now self.entry.end) }
    {
        self.is_small() && (self.rows.is_empty() || utf8::is_utf8(self.body) && self.has_rows())
    }

    // It, if it does.
    pub fn check(self) -> Option<ValidTable<'a>>
        ensures { MatchOption result (is_yes (dec_table self.entry.body.now self.entry.rows.now self.entry.end) ≡ false)
            (λ v. (v.body.now ≡ self.entry.body.now) × (v.rows.now ≡ self.entry.rows.now) × (v.end ≡ self.entry.end)) }
    {
        let Table { body, rows, end } = self;
        if self.obeys() {
            Some(ValidTable { body, rows, end })
        } else {
            None
        }
    }
}

// By row numbers; each method asks that row k is in the table, and what it reads stands in the body.
impl<'a> ReadableRows<'a> {
    // The kind of row k, if its number is one's.
    #[inline(always)]
    pub fn kind(self, k: usize) -> Option<Kind>
        requires { InTable self.rows.now k }
        ensures { MatchOption result (IsKind (get_or self.entry.rows.now (k * 8 + 0) 0) → ⊥)
            (λ kind. kind_number kind ≡ get_or self.entry.rows.now (k * 8 + 0) 0) }
    {
        Kind::of(self.row(k).kind)
    }

    // The prefix of its name; empty where it has none.
    pub fn prefix(self, k: usize) -> &'a [u8]
        requires { InTable self.rows.now k }
        ensures { result.now ≡ (name_at self.entry.body.now self.entry.rows.now k).prefix }
    {
        self.part(self.row(k).prefix)
    }

    // Its local name; empty where it has no name.
    pub fn local(self, k: usize) -> &'a [u8]
        requires { InTable self.rows.now k }
        ensures { result.now ≡ (name_at self.entry.body.now self.entry.rows.now k).local }
    {
        self.part(self.row(k).local)
    }

    // Its value, as it stands in the body; empty where it has none.
    pub fn value(self, k: usize) -> &'a [u8]
        requires { InTable self.rows.now k }
        ensures { result.now ≡ value_at self.entry.body.now self.entry.rows.now k }
    {
        self.part(self.row(k).value)
    }

    // Where its value begins in the body; 0 where that is empty.
    pub fn value_start(self, k: usize) -> usize
        requires { InTable self.rows.now k }
        ensures { result ≡ get_or self.entry.rows.now (k * 8 + 5) 0 }
    {
        self.row(k).value.start as usize
    }

    // The stream position after it.
    pub fn position(self, k: usize) -> usize
        requires { InTable self.rows.now k }
        ensures { result ≡ get_or self.entry.rows.now (k * 8 + 7) 0 }
    {
        self.row(k).position as usize
    }

    // Where the tag of row k begins: at the last `<` before its local name (0 where there is none, as in a row without a name).
    #[tactic(auto, using(crate::proofs::Scan::last_none))]
    pub fn begin(self, k: usize) -> usize
        requires { InTable self.rows.now k }
        ensures { result ≡ begin_of self.entry.body.now (row_at self.entry.rows.now k) }
    {
        let at = self.row(k).local.start as usize;
        last_lt(self.body, 0, at).unwrap_or(0)
    }

    // Whether two rows have the same name: the local names first, which differ more often. In line, since a start tag with many attributes
    // asks it of each pair.
    #[inline(always)]
    pub fn same_name(self, i: usize, j: usize) -> bool
        requires i_in_table { InTable self.rows.now i }
        requires j_in_table { InTable self.rows.now j }
        ensures { Says (name_at self.entry.body.now self.entry.rows.now i ≡ name_at self.entry.body.now self.entry.rows.now j) result }
    {
        self.local(i) == self.local(j) && self.prefix(i) == self.prefix(j)
    }

    // Whether a pattern asks for the name of row k.
    #[inline(always)]
    pub fn matches(self, k: usize, pattern: Pattern) -> bool
        requires { InTable self.rows.now k }
        ensures { result ≡ name_matches (name_at self.entry.body.now self.entry.rows.now k) pattern.entry.whole.now }
    {
        pattern.asks_for(self.prefix(k), self.local(k))
    }

    // The numbers of row k.
    #[tactic(auto, using(crate::proofs::Valid::spans_within))]
    fn row(self, k: usize) -> Row
        requires { InTable self.rows.now k }
        ensures is { row_is result ≡ row_at self.entry.rows.now k }
        ensures within { SpansIn self.entry.body.now self.entry.rows.now k }
    {
        Row::at(self.rows, k)
    }

    // A part of the body.
    fn part(self, span: Span) -> &'a [u8]
        requires { span.start + span.len ≤ length self.body.now }
        ensures { result.now ≡ cut self.entry.body.now span.start span.len }
    {
        span.of(self.body)
    }
}

// By row numbers, of rows that obey the rules: each has a kind.
impl<'a> RuledRows<'a> {
    // The same rows, whose spans lie in the body.
    #[inline(always)]
    #[tactic(auto, using(crate::proofs::Valid::walks_readable))]
    pub fn readable(self) -> ReadableRows<'a>
        ensures body { result.body.now ≡ self.entry.body.now }
        ensures rows { result.rows.now ≡ self.entry.rows.now }
    {
        let RuledRows { body, rows } = self;
        ReadableRows { body, rows }
    }

    // How many rows it has.
    #[inline(always)]
    pub fn len(self) -> usize
        ensures { result ≡ length self.entry.rows.now / 8 }
    {
        self.rows.len() / 8
    }

    // The kind of row k.
    #[inline(always)]
    pub fn kind(self, k: usize) -> Kind
        requires { InTable self.rows.now k }
        ensures { kind_number result ≡ get_or self.entry.rows.now (k * 8 + 0) 0 }
    {
        self.readable().kind(k).unwrap()
    }
}

// The same of a table that obeys the rules.
impl<'a> ValidTable<'a> {
    // Its rows.
    #[inline(always)]
    #[tactic(auto, using(crate::proofs::Valid::obeys_walks))]
    pub fn ruled(self) -> RuledRows<'a>
        ensures body { result.body.now ≡ self.entry.body.now }
        ensures rows { result.rows.now ≡ self.entry.rows.now }
    {
        let ValidTable { body, rows, end: _ } = self;
        RuledRows { body, rows }
    }

    // How many rows it has.
    #[inline(always)]
    pub fn len(self) -> usize
        ensures { result ≡ length self.entry.rows.now / 8 }
    {
        self.ruled().len()
    }

    // The kind of row k.
    #[inline(always)]
    pub fn kind(self, k: usize) -> Kind
        requires { InTable self.rows.now k }
        ensures { kind_number result ≡ get_or self.entry.rows.now (k * 8 + 0) 0 }
    {
        self.ruled().kind(k)
    }

    // The prefix of its name; empty where it has none.
    #[inline(always)]
    pub fn prefix(self, k: usize) -> &'a [u8]
        requires { InTable self.rows.now k }
        ensures { result.now ≡ (name_at self.entry.body.now self.entry.rows.now k).prefix }
    {
        self.ruled().readable().prefix(k)
    }

    // Its local name; empty where it has no name.
    #[inline(always)]
    pub fn local(self, k: usize) -> &'a [u8]
        requires { InTable self.rows.now k }
        ensures { result.now ≡ (name_at self.entry.body.now self.entry.rows.now k).local }
    {
        self.ruled().readable().local(k)
    }

    // Its value, as it stands in the body; empty where it has none.
    #[inline(always)]
    pub fn value(self, k: usize) -> &'a [u8]
        requires { InTable self.rows.now k }
        ensures { result.now ≡ value_at self.entry.body.now self.entry.rows.now k }
    {
        self.ruled().readable().value(k)
    }

    // Where its value begins in the body; 0 where that is empty.
    #[inline(always)]
    pub fn value_start(self, k: usize) -> usize
        requires { InTable self.rows.now k }
        ensures { result ≡ get_or self.entry.rows.now (k * 8 + 5) 0 }
    {
        self.ruled().readable().value_start(k)
    }

    // The stream position after it.
    #[inline(always)]
    pub fn position(self, k: usize) -> usize
        requires { InTable self.rows.now k }
        ensures { result ≡ get_or self.entry.rows.now (k * 8 + 7) 0 }
    {
        self.ruled().readable().position(k)
    }

    // Where the tag of row k begins: at the last `<` before its local name (0 where there is none, as in a row without a name).
    #[inline(always)]
    pub fn begin(self, k: usize) -> usize
        requires { InTable self.rows.now k }
        ensures { result ≡ begin_of self.entry.body.now (row_at self.entry.rows.now k) }
    {
        self.ruled().readable().begin(k)
    }

    // Whether two rows have the same name.
    #[inline(always)]
    pub fn same_name(self, i: usize, j: usize) -> bool
        requires i_in_table { InTable self.rows.now i }
        requires j_in_table { InTable self.rows.now j }
        ensures { Says (name_at self.entry.body.now self.entry.rows.now i ≡ name_at self.entry.body.now self.entry.rows.now j) result }
    {
        self.ruled().readable().same_name(i, j)
    }

    // Whether a pattern asks for the name of row k.
    #[inline(always)]
    pub fn matches(self, k: usize, pattern: Pattern) -> bool
        requires { InTable self.rows.now k }
        ensures { result ≡ name_matches (name_at self.entry.body.now self.entry.rows.now k) pattern.entry.whole.now }
    {
        self.ruled().readable().matches(k, pattern)
    }
}
