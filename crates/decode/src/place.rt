// Places among the rows of a view, by number: a name is read from its row when it is compared.
use document::Depth;

// Where a reader stands: the number of the next row, and the element depth.
#[derive(Clone, Copy)]
pub struct Cursor {
    pub row: usize,
    pub depth: Depth,
}

// A scope: the whole document, or the element of a depth that starts in a row.
#[derive(Clone, Copy)]
pub enum Scope {
    Document,
    Element(Depth, usize),
}

// Where it stands once a scope is over, and whether the scope's own end was read.
#[derive(Clone, Copy)]
pub struct Past {
    pub ended: bool,
    pub at: Cursor,
}

// A start element: its row, the row that ends its start tag (the rows between are its attributes), whether that is `/>`, and the depth
// before it.
#[derive(Clone, Copy)]
pub struct Start {
    pub row: usize,
    pub end: usize,
    pub closed: bool,
    pub depth: Depth,
}

// A start element that a search found, and where the reader stands after its start tag.
#[derive(Clone, Copy)]
pub struct Found {
    pub start: Start,
    pub at: Cursor,
}
