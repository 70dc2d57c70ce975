// The entries, as they are told (01, "Sheets and entries").
ghost use Rattle.std.specs.Prelude.{◌≡◌};
ghost use Rattle.readings.specs.Output.{keyless, six_numbers};
ghost use Rattle.output.specs.Entry.{entry_of, kind_of};

// What an entry is: a text in the text buffer, a piece of the body, a gathered group in the text buffer, or a text that failed.
#[derive(Clone, Copy)]
pub enum Kind {
    Text = 1,
    Piece = 2,
    Group = 3,
    Failed = 4,
}

// An entry: what it is, the member that it belongs to, where its key lies in the text buffer, and where it lies itself.
#[derive(Clone, Copy)]
pub struct Entry {
    pub kind: Kind,
    pub member: u32,
    pub key_start: u32,
    pub key_len: u32,
    pub start: u32,
    pub len: u32,
}

impl Entry {
    // An entry outside maps.
    #[tactic(auto, unfolding(crate::specs::Entry::entry_of))]
    pub fn keyless(kind: Kind, member: u32, start: u32, len: u32) -> Entry
        ensures { entry_of result ≡ keyless (kind_of kind) member start len }
    {
        Entry {
            kind,
            member,
            key_start: 0,
            key_len: 0,
            start,
            len,
        }
    }

    // Its six numbers.
    pub fn numbers(self) -> [u32; 6]
        ensures { result ≡ six_numbers (entry_of self) }
    {
        [
            self.kind as u32,
            self.member,
            self.key_start,
            self.key_len,
            self.start,
            self.len,
        ]
    }
}
