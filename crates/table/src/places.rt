// What the rows before have come to, and which rows may come next.
ghost use Rattle.std.specs.Prelude.{◌≡◌, ◌<◌};
ghost use Rattle.lists.specs.Decide.{Says};
ghost use Rattle.table.specs.Rules.{at_first};

use crate::kinds::Kind;
use crate::limit::OPEN;

// The last position, whether a start tag is not ended, how many elements are open, whether the root has begun.
#[derive(Clone, Copy)]
pub struct Place {
    pub position: u32,
    pub in_tag: bool,
    pub nesting: usize,
    pub rooted: bool,
}

impl Place {
    ghost use Rattle.table.specs.Held.{place_is};
    ghost use Rattle.table.specs.Order.{InOrder, OpenOrder, Order, step_to};
    ghost use Rattle.table.specs.Kinds.{kind_number};

    // Before the first row.
    pub fn first() -> Place
        ensures { place_is result ≡ at_first }
    {
        Place {
            position: 0,
            in_tag: false,
            nesting: 0,
            rooted: false,
        }
    }

    // Whether a kind may come inside a start tag, or outside.
    fn has_tag_order(self, kind: Kind) -> bool
        ensures { Says (InOrder self.in_tag (kind_number kind)) result }
    {
        if self.in_tag {
            kind.may_be_in_tag()
        } else {
            !kind.is_in_tag_only()
        }
    }

    // Whether a kind may come where so many elements are open, and one more may be opened.
    fn has_open_order(self, kind: Kind) -> bool
        ensures { Says (OpenOrder self.nesting self.rooted (kind_number kind)) result }
    {
        if self.nesting > 0 {
            kind != Kind::Start || self.nesting < OPEN
        } else if self.rooted {
            kind.may_follow_root()
        } else {
            !kind.needs_element()
        }
    }

    // Whether a row of a kind may come here, with so many rows left after it.
    pub fn admits(self, kind: Kind, left: usize) -> bool
        ensures { Says (Order self.in_tag self.nesting self.rooted (kind_number kind) left) result }
    {
        self.has_tag_order(kind) && self.has_open_order(kind) && (kind != Kind::Error || left == 0)
    }

    // The place after a row of a kind that ends at a position.
    pub fn after(self, kind: Kind, position: u32) -> Place
        requires { self.nesting < 65536 }
        ensures { place_is result ≡ step_to (place_is self) (kind_number kind) position }
    {
        let nesting = kind.open_after(self.nesting);
        let (in_tag, rooted) = match kind {
            Kind::Start => (true, true),
            Kind::Gt | Kind::Slash => (false, self.rooted),
            _ => (self.in_tag, self.rooted),
        };
        Place {
            position,
            in_tag,
            nesting,
            rooted,
        }
    }
}
