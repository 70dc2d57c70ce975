// Elements: a start element that was read, in its view, and where the reader stands at its content.
ghost use Rattle.std.specs.Prelude.{◌≡◌, ◌≤◌};
ghost use Rattle.table.specs.Names.{name_matches};
ghost use Rattle.table.specs.Rows.{InTable, name_at, tok_at, value_at};
ghost use Rattle.document.specs.Reader.{depth, ends_at};
ghost use Rattle.document.specs.Scope.{scope_of};
ghost use Rattle.document.specs.Part.{given};
ghost use Rattle.document.specs.Text.{text_of};
ghost use Rattle.decode.specs.Place.{EndedAt, Outside, StartIn, at_first};

use crate::place::{Cursor, Past, Scope, Start};
use crate::reader::ends_at;
use crate::view::View;
use document::part::{Piece, Text};
use refusal::Refusal;
use table::Pattern;

// An element: the view that it is in, its start, and the place of the next row that is read of its content.
#[derive(Clone, Copy)]
pub struct Element<'a> {
    pub view: View<'a>,
    pub start: Start,
    pub at: Cursor,
    pub ghost start_in: { StartIn view.table.body.now view.table.rows.now view.count start },
    pub ghost outside: { Outside view.table.body.now view.table.rows.now view.count at },
}

impl<'a> View<'a> {
    ghost use Rattle.decode.specs.View.{view_of};
    ghost use Rattle.decode.specs.Reader.{DropIs, start_at};
    ghost use Rattle.decode.specs.Element.{AttributeOf, EndIs, FoundAt, GivenIn, PieceOf, RootIs, ValueIs, child_at};

    // The first start element of all. The first row of the view is outside of start tags: `View::new` promises it.
    pub fn root(&self) -> Option<Element<'a>>
        requires { Outside self.now.table.body.now self.now.table.rows.now self.now.count at_first }
        ensures { RootIs self.now result }
    {
        let found = self.rows().root_element().ok()?;
        Some(self.found(found.start, found.at))
    }

    // The value of row k, as a text.
    pub fn text(&self, k: usize) -> Text<'a>
        requires { InTable self.now.table.rows.now k }
        ensures { ValueIs self.now.table.body.now self.now.table.rows.now k result }
    {
        Text {
            from: self.table.value_start(k),
            bytes: self.table.value(k),
        }
    }

    // An element whose start tag was read. Field by field: a copy of the whole has the bytes between the fields too, and these cost most.
    #[inline(always)]
    fn found(&self, start: Start, at: Cursor) -> Element<'a>
        requires start_in { StartIn self.now.table.body.now self.now.table.rows.now self.now.count start }
        requires outside { Outside self.now.table.body.now self.now.table.rows.now self.now.count at }
        ensures { FoundAt self.now start at result }
    {
        let View {
            table,
            count,
            failure,
            ill_formed,
            ends,
        } = *self;
        let Start {
            row,
            end,
            closed,
            depth,
        } = start;
        Element {
            view: View {
                table,
                count,
                failure,
                ill_formed,
                ends,
            },
            start: Start {
                row,
                end,
                closed,
                depth,
            },
            at,
        }
    }

    // The first attribute of a start element that a pattern asks for.
    pub fn attr(&self, start: Start, pattern: Pattern) -> Option<Text<'a>>
        requires { StartIn self.now.table.body.now self.now.table.rows.now self.now.count start }
        ensures { AttributeOf self.now start pattern.entry.whole.now result }
    {
        match self.rows().attr(start, pattern) {
            Some(k) => Some(self.text(k)),
            None => None,
        }
    }

    // Whether row k, which leaves depth d, ends a start element.
    #[inline(always)]
    pub fn ends_at(&self, start: Start, k: usize, d: usize) -> bool
        requires in_table { InTable self.now.table.rows.now k }
        requires start_in_table { InTable self.now.table.rows.now start.row }
        ensures { result ≡ ends_at (scope_of (start_at self.now.table.body.now self.now.table.rows.now start)) (depth d)
            (tok_at self.now.table.body.now self.now.table.rows.now k) }
    {
        ends_at(self.table, Scope::Element(start.depth, start.row), k, d)
    }

    // The first text of a start element, from a place on: one that ended in `/>` has the empty text.
    #[inline(always)]
    pub fn try_data(&self, start: Start, at: Cursor) -> Result<Text<'a>, Refusal>
        requires { StartIn self.now.table.body.now self.now.table.rows.now self.now.count start }
        ensures same { given result ≡ text_of (view_of self.now) (child_at self.now start at) }
        ensures row { GivenIn self.now.table.body.now self.now.table.rows.now result }
    {
        match self.rows().try_data(self.failure, start, at)? {
            Some(k) => Ok(self.text(k)),
            None => Ok(Text::empty()),
        }
    }

    // Where an element ends: at the position of the last row read for it, or where the view ends.
    fn piece_end(&self, past: Past) -> usize
        requires { past.at.row ≤ self.now.count }
        ensures { EndIs self.now past result }
    {
        if !past.ended {
            return self.ends;
        }
        if past.at.row == 0 {
            return 0;
        }
        self.table.position(past.at.row - 1)
    }

    // The part of the body that an element is; its end was found by dropping it.
    pub fn piece_of(&self, start: Start, at: Cursor, past: Past) -> Piece
        requires start_in { StartIn self.now.table.body.now self.now.table.rows.now self.now.count start }
        requires drop_is { DropIs self.now.table.body.now self.now.table.rows.now self.now.count start at past }
        ensures { PieceOf self.now start at result }
    {
        let from = self.rows().piece_start(start);
        let end = self.piece_end(past);
        Piece {
            start: from as u32,
            len: end.saturating_sub(from) as u32,
        }
    }
}

impl<'a> Element<'a> {
    ghost use Rattle.decode.specs.View.{view_of};
    ghost use Rattle.decode.specs.Element.{AttributeIs, DroppedIs, FoundAt, GivenIn, LeftIs, NextIs, PieceIs, child_of};

    // Whether a pattern asks for its name.
    pub fn matches(&self, pattern: Pattern) -> bool
        ensures { result ≡ name_matches (child_of self.now).start.name pattern.entry.whole.now }
    {
        self.view.table.matches(self.start.row, pattern)
    }

    // Its local name.
    pub fn local(&self) -> &'a [u8]
        ensures { result.now ≡ (child_of self.now).start.name.local }
    {
        self.view.table.local(self.start.row)
    }

    // Its first attribute that a pattern asks for.
    #[inline(always)]
    pub fn attr(&self, pattern: Pattern) -> Option<Text<'a>>
        ensures { AttributeIs self.now pattern.entry.whole.now result }
    {
        self.view.attr(self.start, pattern)
    }

    // Whether row k, which leaves depth d, ends it.
    #[inline(always)]
    pub fn ends_at(&self, k: usize, d: usize) -> bool
        requires { InTable self.now.view.table.rows.now k }
        ensures { result ≡ ends_at (scope_of (child_of self.now).start) (depth d)
            (tok_at self.now.view.table.body.now self.now.view.table.rows.now k) }
    {
        self.view.ends_at(self.start, k, d)
    }

    // The same with the reader at another place of its content: the children that are still to come from there on.
    #[inline(always)]
    pub fn from_place(&self, at: Cursor) -> Element<'a>
        requires { Outside self.now.view.table.body.now self.now.view.table.rows.now self.now.view.count at }
        ensures { FoundAt self.now.view self.now.start at result }
    {
        self.view.found(self.start, at)
    }

    // Its next child, or where its scope ended: one that ended in `/>` has none.
    #[inline(always)]
    #[tactic(auto, using(crate::proofs::Seeking::child_none))]
    pub fn next_tag(&self) -> Result<Element<'a>, Past>
        ensures { NextIs self.now result }
    {
        if self.start.closed {
            return Err(Past {
                ended: true,
                at: self.at,
            });
        }
        let scope = Scope::Element(self.start.depth, self.start.row);
        let found = self.view.rows().next_start_element(scope, self.at)?;
        Ok(self.view.found(found.start, found.at))
    }

    // To its end, where no more is read of it: `/>` ended it already.
    #[inline(always)]
    pub fn drain(&self) -> Past
        ensures { DroppedIs self.now result }
    {
        self.view.rows().drop_element(self.start, self.at)
    }

    // Where the reader stands after it, once its children were asked for up to a place: the rest of its scope is dropped, if its end was
    // not read yet.
    pub fn leave(&self, past: Past) -> Cursor
        requires { EndedAt self.now.view.table.body.now self.now.view.table.rows.now self.now.view.count past }
        ensures { LeftIs self.now past result }
    {
        self.view.rows().leave(self.start, past)
    }

    // Its first text: one that ended in `/>` has the empty text.
    #[inline(always)]
    pub fn try_data(&self) -> Result<Text<'a>, Refusal>
        ensures same { given result ≡ text_of (view_of self.now.view) (child_of self.now) }
        ensures row { GivenIn self.now.view.table.body.now self.now.view.table.rows.now result }
    {
        self.view.try_data(self.start, self.at)
    }

    // The part of the body that it is; its end was found by draining it.
    pub fn piece(&self, past: Past) -> Piece
        requires { DroppedIs self.now past }
        ensures { PieceIs self.now result }
    {
        self.view.piece_of(self.start, self.at, past)
    }
}
