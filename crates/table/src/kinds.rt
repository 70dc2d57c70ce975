// The kinds of rows (01, "Token table"), by their numbers.
ghost use Rattle.std.specs.Prelude.{◌≡◌, ◌+◌, ◌<◌, ◌^◌, MatchOption};
ghost use Rattle.table.specs.Rules.{ends_in_gt, in_tag_only, is_tag, may_be_in_tag, may_follow_root, needs_element, open_count};
ghost use Rattle.table.specs.Rules.{uses_name, uses_value};

#[derive(Clone, Copy, PartialEq, Eq)]
pub enum Kind {
    Start = 1,
    Attribute = 2,
    // `>`
    Gt = 3,
    Close = 4,
    // `/>`
    Slash = 5,
    Text = 6,
    // all others
    Misc = 7,
    // a token error
    Error = 8,
}

impl Kind {
    ghost use Rattle.table.specs.Kinds.{DepthIs, IsKind, kind_number};

    // The kind of a number, if it is one's.
    pub fn of(number: u32) -> Option<Kind>
        ensures { MatchOption result (IsKind number → ⊥) (λ k. kind_number k ≡ number) }
    {
        match number {
            1 => Some(Kind::Start),
            2 => Some(Kind::Attribute),
            3 => Some(Kind::Gt),
            4 => Some(Kind::Close),
            5 => Some(Kind::Slash),
            6 => Some(Kind::Text),
            7 => Some(Kind::Misc),
            8 => Some(Kind::Error),
            _ => None,
        }
    }

    // Whether it has a name.
    pub fn uses_name(self) -> bool
        ensures { result ≡ uses_name (kind_number self) }
    {
        matches!(self, Kind::Start | Kind::Attribute | Kind::Close)
    }

    // Whether it has a value.
    pub fn uses_value(self) -> bool
        ensures { result ≡ uses_value (kind_number self) }
    {
        matches!(self, Kind::Attribute | Kind::Text)
    }

    // Whether it is a tag that has a name.
    pub fn is_tag(self) -> bool
        ensures { result ≡ is_tag (kind_number self) }
    {
        matches!(self, Kind::Start | Kind::Close)
    }

    // Whether it ends in `>`.
    pub fn ends_in_gt(self) -> bool
        ensures { result ≡ ends_in_gt (kind_number self) }
    {
        matches!(self, Kind::Gt | Kind::Close | Kind::Slash)
    }

    // Whether it may come inside a start tag.
    pub fn may_be_in_tag(self) -> bool
        ensures { result ≡ may_be_in_tag (kind_number self) }
    {
        matches!(self, Kind::Attribute | Kind::Gt | Kind::Slash | Kind::Error)
    }

    // Whether it comes nowhere else.
    pub fn is_in_tag_only(self) -> bool
        ensures { result ≡ in_tag_only (kind_number self) }
    {
        matches!(self, Kind::Attribute | Kind::Gt | Kind::Slash)
    }

    // Whether it needs an open element.
    pub fn needs_element(self) -> bool
        ensures { result ≡ needs_element (kind_number self) }
    {
        matches!(self, Kind::Close | Kind::Text)
    }

    // Whether it may come once the root has closed.
    pub fn may_follow_root(self) -> bool
        ensures { result ≡ may_follow_root (kind_number self) }
    {
        matches!(self, Kind::Misc | Kind::Error)
    }

    // How many elements are open after a row of it that starts none, where n are before it.
    pub fn depth_after(self, n: usize) -> usize
        ensures { DepthIs (kind_number self) n result }
    {
        match self {
            Kind::Close | Kind::Slash => n.saturating_sub(1),
            _ => n,
        }
    }

    // The same of any row: one that starts an element needs room for one more.
    pub fn open_after(self, n: usize) -> usize
        requires { kind_number self ≡ 1 → n + 1 < 2 ^ 64 }
        ensures { result ≡ open_count n (kind_number self) }
    {
        match self {
            Kind::Start => n + 1,
            _ => self.depth_after(n),
        }
    }
}
