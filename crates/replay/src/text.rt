// The operations on a text: `v TEXT 0` or `v TEXT 7` of `validate_references`, and `u TEXT 0 RESULT` or `u TEXT 7` of `unescape`.
use crate::field::{LineError, bytes};
use crate::lent::holds;
use reference::UnescapeError;
use std::alloc::Global;
use std::array;
use unescape::validate_references;

// The space that `unescape` is lent a part of; no line has a text that is longer.
const SPACE: usize = 1024;

// What `unescape` answers, lent `room` bytes, where it writes so much and nothing else. What stands there before the call differs from byte
// to byte and from room to room, so that a byte written where none should be shows in one of the calls.
fn answer_writing(
    text: &[u8],
    room: usize,
    written: &[u8],
) -> Option<Result<usize, UnescapeError>> {
    let before: [u8; SPACE] = array::from_fn(|i| (i % 128 + room % 128) as u8);
    let mut after = before;
    let answer = unescape::unescape(text, after.get_mut(..room)?);
    if holds(&after, &before, written) {
        Some(answer)
    } else {
        None
    }
}

// A bad reference is refused whatever the room, before room is tested.
fn refuses(text: &[u8]) -> bool {
    [0, 1, text.len()].iter().all(|&room| {
        matches!(
            answer_writing(text, room, &[]),
            Some(Err(UnescapeError::BadReference { .. }))
        )
    })
}

// The result fits exactly, leaves a longer slice's rest alone, and is refused for want of room where a byte is missing.
fn unescapes_to(text: &[u8], written: &[u8]) -> bool {
    let n = written.len();
    answer_writing(text, n, written) == Some(Ok(n))
        && answer_writing(text, n + 9, written) == Some(Ok(n))
        && (n == 0 || answer_writing(text, n - 1, &[]) == Some(Err(UnescapeError::NoRoom)))
}

pub(crate) fn replay_validate(alloc: Global, fields: &[&str]) -> Result<bool, LineError> {
    match fields {
        [text, "0"] => Ok(validate_references(&bytes(alloc, text)?).is_ok()),
        [text, "7"] => Ok(validate_references(&bytes(alloc, text)?).is_err()),
        _ => Err(LineError::NotRecorded),
    }
}

pub(crate) fn replay_unescape(alloc: Global, fields: &[&str]) -> Result<bool, LineError> {
    match fields {
        [text, "0", written] => Ok(unescapes_to(&bytes(alloc, text)?, &bytes(alloc, written)?)),
        [text, "7"] => Ok(refuses(&bytes(alloc, text)?)),
        _ => Err(LineError::NotRecorded),
    }
}
