// The readings of a scalar: `BODY END ROWS FLAGS DEPTH 0 VALUE`, or `BODY END ROWS FLAGS DEPTH NUMBER` of a refusal, which leaves alone
// what it is lent for the value; and find: `BODY END ROWS NAME 0 START LENGTH`, or `BODY END ROWS NAME NUMBER`.
use crate::field::{LineError, Upload, bytes_or_none, nth, number_or_max};
use crate::lent::{BYTE, MARK, TEXT_ROOM, holds};
use falzheod::scalars::{
    falzheod_find, falzheod_read_boolean, falzheod_read_integer, falzheod_read_string,
    falzheod_text_integer,
};
use std::alloc::Global;

// What stands for the integer of a field that spells none.
const NO_INTEGER: i32 = 78;

/// What is asked of a scalar, and what was answered: the number, and what the value's field spells.
#[derive(Drop)]
struct Scalar<T> {
    upload: Upload,
    flags: u32,
    depth: u32,
    number: u32,
    value: T,
}

impl<T: Drop> Scalar<T> {
    // `parse` reads the value's field.
    fn parse<F: FnOnce(&str) -> Result<T, LineError> + Drop>(
        alloc: Global,
        fields: &[&str],
        parse: F,
    ) -> Result<Scalar<T>, LineError>
        requires { F.IsAlwaysCallable parse }
    {
        Ok(Scalar {
            upload: Upload::of_reading(alloc, fields)?,
            flags: number_or_max(nth(fields, 3)),
            depth: number_or_max(nth(fields, 4)),
            number: number_or_max(nth(fields, 5)),
            value: parse(nth(fields, 6))?,
        })
    }
}

impl<T: Copy> Scalar<T> {
    // What stands after the call where `before` was lent for the value: a refusal leaves it as it was.
    fn value_or(&self, before: T) -> T {
        if self.number == 0 { self.value } else { before }
    }
}

// The bytes of a field, or that it spells none, which agrees with no answer.
fn spelt_bytes(alloc: Global, field: &str) -> Result<Option<Vec<u8>>, LineError> {
    match bytes_or_none(alloc, field) {
        Ok(bytes) => Ok(Some(bytes)),
        Err(LineError::NotRecorded) => Ok(None),
        Err(LineError::OutOfMemory) => Err(LineError::OutOfMemory),
    }
}

// The integer of a field, by the reading of texts; where it is none, another number than is lent for the value.
fn integer(field: &str) -> i32 {
    let mut value = NO_INTEGER;
    let _ = falzheod_text_integer(field.as_bytes(), &mut value);
    value
}

pub(crate) fn replay_boolean(alloc: Global, fields: &[&str]) -> Result<bool, LineError> {
    let recorded = Scalar::parse(alloc, fields, |value| Ok(number_or_max(value)))?;
    let Upload { body, rows, end } = &recorded.upload;
    let mut value = MARK;
    let mut place = MARK as usize;
    let answer = falzheod_read_boolean(
        body,
        rows,
        *end,
        recorded.flags,
        recorded.depth,
        &mut value,
        &mut place,
    );
    Ok(answer == recorded.number && value == recorded.value_or(MARK))
}

pub(crate) fn replay_integer(alloc: Global, fields: &[&str]) -> Result<bool, LineError> {
    let recorded = Scalar::parse(alloc, fields, |value| Ok(integer(value)))?;
    let Upload { body, rows, end } = &recorded.upload;
    let mut value = MARK as i32;
    let mut place = MARK as usize;
    let answer = falzheod_read_integer(
        body,
        rows,
        *end,
        recorded.flags,
        recorded.depth,
        &mut value,
        &mut place,
    );
    Ok(answer == recorded.number && value == recorded.value_or(MARK as i32))
}

// A refusal writes nothing, and its length is 0.
pub(crate) fn replay_string(alloc: Global, fields: &[&str]) -> Result<bool, LineError> {
    let recorded = Scalar::parse(alloc, fields, |value| spelt_bytes(alloc, value))?;
    let Some(text) = &recorded.value else {
        return Ok(false);
    };
    let Upload { body, rows, end } = &recorded.upload;
    let mut out = [BYTE; TEXT_ROOM];
    let mut length = MARK as usize;
    let mut place = MARK as usize;
    let answer = falzheod_read_string(
        body,
        rows,
        *end,
        recorded.flags,
        recorded.depth,
        &mut out,
        &mut length,
        &mut place,
    );
    Ok(answer == recorded.number && length == text.len() && holds(&out, &[BYTE; TEXT_ROOM], text))
}

pub(crate) fn replay_find(alloc: Global, fields: &[&str]) -> Result<bool, LineError> {
    let Upload { body, rows, end } = Upload::of_reading(alloc, fields)?;
    let Some(name) = spelt_bytes(alloc, nth(fields, 3))? else {
        return Ok(false);
    };
    let recorded = match number_or_max(nth(fields, 4)) {
        0 => (
            0,
            number_or_max(nth(fields, 5)) as usize,
            number_or_max(nth(fields, 6)) as usize,
        ),
        refusal => (refusal, 0, 0),
    };
    let mut start = MARK as usize;
    let mut length = MARK as usize;
    let answer = falzheod_find(&body, &rows, end, &name, &mut start, &mut length);
    Ok((answer, start, length) == recorded)
}
