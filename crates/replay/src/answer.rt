// A recorded answer, as compare/src/bin/record.rs writes it: the letter of its operation, and the fields that the operation's module
// names. Bytes are in lower-case hexadecimal and numbers in decimal; the numbers of a table's rows, and of entries, are parted by
// commas. The lines of readings may be less exact: fields past those that are named are passed over, one that is missing is empty, an
// empty one has no bytes, and a number that is none is the largest.
use crate::field::LineError;
use crate::reading::Shape;
use crate::{drain, reading, scalars, text};
use std::alloc::Global;

// The recorder writes shorter lines.
pub const LONGEST_LINE: usize = 1023;

#[derive(Clone, Copy, Debug, PartialEq, Eq)]
pub enum Kind {
    Unescape,
    Validate,
    Drain,
    Reading,
}

/// What came of an answer: whether ours is the same.
#[derive(Clone, Copy, Debug)]
pub struct Replayed {
    pub kind: Kind,
    pub agrees: bool,
}

fn replay_reading(alloc: Global, operation: &str, fields: &[&str]) -> Result<bool, LineError> {
    match operation {
        "s" => reading::replay(alloc, Shape::Struct, fields),
        "l" => reading::replay(alloc, Shape::List, fields),
        "m" => reading::replay(alloc, Shape::Map, fields),
        "t" => reading::replay(alloc, Shape::StringList, fields),
        "b" => scalars::replay_boolean(alloc, fields),
        "i" => scalars::replay_integer(alloc, fields),
        "w" => scalars::replay_string(alloc, fields),
        "f" => scalars::replay_find(alloc, fields),
        _ => Err(LineError::NotRecorded),
    }
}

/// Asks again what a line, without its end, says was asked.
pub(crate) fn replay(alloc: Global, line: &[u8]) -> Result<Replayed, LineError> {
    if line.len() > LONGEST_LINE {
        return Err(LineError::NotRecorded);
    }
    // Bytes that are not UTF-8 spoil the field that they stand in, and no other.
    let line = String::from_utf8_lossy(alloc, line)?;
    let fields = line.split(' ').collect::<Vec<&str>>(alloc)?;
    let Some((operation, fields)) = fields.split_first() else {
        return Err(LineError::NotRecorded);
    };
    if fields.is_empty() {
        return Err(LineError::NotRecorded);
    }
    let (kind, agrees) = match *operation {
        "u" => (Kind::Unescape, text::replay_unescape(alloc, fields)?),
        "v" => (Kind::Validate, text::replay_validate(alloc, fields)?),
        "d" => (Kind::Drain, drain::replay(alloc, fields)?),
        reading => (Kind::Reading, replay_reading(alloc, reading, fields)?),
    };
    Ok(Replayed { kind, agrees })
}
