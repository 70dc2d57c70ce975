// Patterns that ask for names.
ghost use Rattle.std.specs.Prelude.{◌≡◌, ◌+◌, ◌≤◌, ◌<◌, length, take, drop, eqb, position, MatchOption};
ghost use Rattle.table.specs.Names.{before_colon, name_matches, named};

// Where the first colon stands, if there is one.
fn first_colon(pattern: &[u8]) -> Option<usize>
    ensures { result ≡ position (λ b. eqb b 58) pattern.now }
{
    pattern.iter().position(|b| *b == b':')
}

// A pattern, `local` or `prefix:local`, with the place of its first colon, or its length where it has none. Who matches many names by it
// looks for that once.
#[derive(Clone, Copy)]
pub struct Pattern<'a> {
    pub whole: &'a [u8],
    pub colon: usize,
    pub ghost split: { colon ≡ before_colon whole.now },
}

impl<'a> Pattern<'a> {
    #[tactic(auto, using(crate::proofs::NameLaws::colon_is))]
    pub fn new(whole: &'a [u8]) -> Self
        ensures { result.whole.now ≡ whole.now }
    {
        let colon = first_colon(whole).unwrap_or(whole.len());
        Pattern { whole, colon }
    }

    // `Name::matches`: whether it asks for a name, given by its prefix and its local name.
    #[inline(always)]
    #[tactic(auto, using(crate::proofs::NameLaws::match_laws))]
    pub fn asks_for(self, prefix: &[u8], local: &[u8]) -> bool
        ensures { result ≡ name_matches (named prefix.now local.now) self.entry.whole.now }
    {
        if self.colon < self.whole.len() {
            local == &self.whole[self.colon + 1..] && prefix == &self.whole[..self.colon]
        } else {
            self.whole == local
        }
    }
}
