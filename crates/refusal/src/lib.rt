// The refusals of 01 ("What each operation may refuse"), named once, with their numbers; specs/ has besides them an answer that is a value
// or a refusal. The crate rests on nothing.
#![tactic(auto)]

ghost use Rattle.std.specs.Prelude.{◌≡◌, ◌+◌};
ghost use Rattle.refusal.specs.declared.Refusal.{Refusal};
ghost use Rattle.refusal.specs.Numbers.{number, place, SmallPlace};

// Why an operation refused, in 01's words and in the order of its numbers. A reference has the place of the failing `&`, an offset in the
// body that was lent: 16 bits hold it, and keep the refusal small enough for every answer that may be one.
#[derive(Clone, Copy, PartialEq, Eq, Debug)]
pub enum Refusal {
    Table,
    Sheet,
    Depth,
    NoRoot,
    RootName,
    ElementInText,
    BadReference { at: u16 },
    TokenError,
    IllFormed,
    NoRoom,
    NotBoolean,
    NotInteger,
    NoSuchElement,
}

impl Refusal {
    // The refusal of a text that begins at `from` in the body and has its first failing `&` at `at` in itself.
    pub fn bad_at(from: usize, at: usize) -> Refusal
        requires { SmallPlace from (at + 1) }
        ensures { result ≡ Refusal.BadReference (from + at) }
    {
        Refusal::BadReference {
            at: (from + at) as u16,
        }
    }

    // The number of a refusal (01, "Numbers").
    pub fn number(self) -> u32
        ensures { result ≡ number self }
    {
        match self {
            Refusal::Table => 1,
            Refusal::Sheet => 2,
            Refusal::Depth => 3,
            Refusal::NoRoot => 4,
            Refusal::RootName => 5,
            Refusal::ElementInText => 6,
            Refusal::BadReference { at: _ } => 7,
            Refusal::TokenError => 8,
            Refusal::IllFormed => 9,
            Refusal::NoRoom => 10,
            Refusal::NotBoolean => 11,
            Refusal::NotInteger => 12,
            Refusal::NoSuchElement => 13,
        }
    }

    // The place beside the number: that of the failing `&` where the number is 7, and 0 where it is not.
    pub fn place(self) -> u32
        ensures { result ≡ place self }
    {
        match self {
            Refusal::BadReference { at } => at as u32,
            _ => 0,
        }
    }
}
