// Rows of any flat table, by their eight numbers.
ghost use Rattle.std.specs.Prelude.{◌+◌, ◌*◌, ◌≡◌, ◌≤◌, ◌<◌, ◌^◌, length};
ghost use Rattle.table.specs.Flat.{row_at};
ghost use Rattle.table.specs.Row.{cut};
ghost use Rattle.table.specs.Rules.{open_count, uses_name};

use crate::kinds::Kind;

// Where a part of the body stands that a row names.
#[derive(Clone, Copy)]
pub struct Span {
    pub start: u32,
    pub len: u32,
}

impl Span {
    // The part of a body that stands there.
    #[inline(always)]
    pub fn of<'a>(self, body: &'a [u8]) -> &'a [u8]
        requires { self.start + self.len ≤ length body.now }
        ensures { result.now ≡ cut body.now self.start self.len }
    {
        let from = self.start as usize;
        &body[from..from + self.len as usize]
    }
}

// The numbers of a row, whatever they are.
#[derive(Clone, Copy)]
pub struct Row {
    pub kind: u32,
    pub prefix: Span,
    pub local: Span,
    pub value: Span,
    pub position: u32,
}

impl Row {
    ghost use Rattle.table.specs.Held.{row_is};
    ghost use Rattle.table.specs.Kinds.{DepthIs};

    // Row k of a table.
    pub fn at(rows: &[u32], k: usize) -> Row
        requires { k * 8 + 8 ≤ length rows.now }
        ensures { row_is result ≡ row_at rows.now k }
    {
        let from = k * 8;
        Row {
            kind: rows[from],
            prefix: Span {
                start: rows[from + 1],
                len: rows[from + 2],
            },
            local: Span {
                start: rows[from + 3],
                len: rows[from + 4],
            },
            value: Span {
                start: rows[from + 5],
                len: rows[from + 6],
            },
            position: rows[from + 7],
        }
    }

    // Whether its kind has a name; a number that is no kind has none.
    pub fn uses_name(self) -> bool
        ensures { result ≡ uses_name self.kind }
    {
        Kind::of(self.kind).is_some_and(|kind| kind.uses_name())
    }

    // How many elements are open after it if it starts none, where n are before it: a number that is no kind leaves them as they are.
    pub fn depth_after(self, n: usize) -> usize
        ensures { DepthIs self.kind n result }
    {
        match Kind::of(self.kind) {
            Some(kind) => kind.depth_after(n),
            None => n,
        }
    }

    // The same of any row: one that starts an element needs room for one more.
    pub fn open_after(self, n: usize) -> usize
        requires { self.kind ≡ 1 → n + 1 < 2 ^ 64 }
        ensures { result ≡ open_count n self.kind }
    {
        match Kind::of(self.kind) {
            Some(kind) => kind.open_after(n),
            None => n,
        }
    }
}
