// What `unescape` and `validate_references` answer, as definitions, and their laws: this crate has types and specs/, and no function but
// the conversion of one error into another. It rests on `lists` and on `utf8`, for the bytes of a character.
#![tactic(auto)]

ghost use Rattle.std.specs.Prelude.{◌≡◌};
ghost use Rattle.reference.specs.declared.UnescapeError.{UnescapeError};

// What a reference stands for, with the number of its bytes after `&`.
#[derive(Clone, Copy, PartialEq, Eq, Debug)]
pub struct Reference {
    pub code: u32,
    pub len: usize,
}

// Why `validate_references` refuses, 01's number 7: the place of the first `&` that begins no reference, from the start of the text.
#[derive(Clone, Copy, PartialEq, Eq, Debug)]
pub struct BadReference {
    pub at: usize,
}

// Why `unescape` refuses: 01's number 7, with the place of the first `&` that begins no reference, counted from the start of the text, or
// 10, NoRoom.
#[derive(Clone, Copy, PartialEq, Eq, Debug)]
pub enum UnescapeError {
    BadReference { at: usize },
    NoRoom,
}

impl From<BadReference> for UnescapeError {
    ghost from_gives = { λ e r. r ≡ UnescapeError.BadReference e.at };

    fn from(e: BadReference) -> UnescapeError {
        UnescapeError::BadReference { at: e.at }
    }
}
