// The fields of a line, which are parted by spaces, and why a line is no recorded answer.
ghost use Rattle.std.specs.Prelude.{◌≡◌, ◌<◌, ◌^◌, ◌-◌, ◌⊎◌, IfOk, IfErr, OkIff};
ghost use Rattle.std.specs.Str.Parse.{IsNumeral, digits_value};
ghost use Rattle.replay.specs.Field.{Spells, SpellsOrNone};
ghost use Rattle.replay.specs.declared.field.LineError.TheVariants.{NotRecorded};

use hex::FromHexError;
use std::alloc::{AllocError, AllocFailed, Global};
use std::num::ParseIntError;
use thiserror::Error;

/// Why a line is not replayed.
#[derive(Clone, Copy, Debug, PartialEq, Eq, Error)]
pub enum LineError {
    #[error("not a recorded answer")]
    NotRecorded,
    #[error("out of memory")]
    OutOfMemory,
}

impl From<AllocError> for LineError {
    fn from(_error: AllocError) -> LineError {
        LineError::OutOfMemory
    }
}

impl<T: Drop> From<AllocFailed<T>> for LineError {
    fn from(_error: AllocFailed<T>) -> LineError {
        LineError::OutOfMemory
    }
}

impl From<FromHexError> for LineError {
    fn from(error: FromHexError) -> LineError {
        match error {
            FromHexError::OutOfMemory => LineError::OutOfMemory,
            _ => LineError::NotRecorded,
        }
    }
}

impl From<ParseIntError> for LineError {
    ghost from_gives = { λ _ e. e ≡ NotRecorded };

    fn from(_error: ParseIntError) -> LineError {
        LineError::NotRecorded
    }
}

/// Field `k` of those that stand behind the letter; past the last one, an empty one.
pub(crate) fn nth<'a>(fields: &[&'a str], k: usize) -> &'a str {
    fields.get(k).copied().unwrap_or("")
}

/// The bytes that a field spells in lower-case hexadecimal; `-` is none, so that no field is empty.
pub(crate) fn bytes(alloc: Global, field: &str) -> Result<Vec<u8>, LineError>
    ensures { IfOk result (λ v. Spells field.now v.items) }
{
    if field == "-" {
        return Ok(Vec::new(alloc));
    }
    if field.is_empty() || field.bytes().any(|b| b.is_ascii_uppercase()) {
        return Err(LineError::NotRecorded);
    }
    Ok(hex::decode(alloc, field)?)
}

/// The bytes of a field of a reading, which are none where it is empty.
pub(crate) fn bytes_or_none(alloc: Global, field: &str) -> Result<Vec<u8>, LineError>
    ensures { IfOk result (λ v. SpellsOrNone field.now v.items) }
{
    if field.is_empty() {
        return Ok(Vec::new(alloc));
    }
    bytes(alloc, field)
}

/// The number that a field's digits spell; no sign stands before them.
pub(crate) fn number(field: &str) -> Result<u32, LineError>
    ensures value { OkIff result (IsNumeral 10 field.now × (digits_value 10 field.now < 2 ^ 32)) (digits_value 10 field.now) }
    ensures refused { IfErr result (λ e. e ≡ NotRecorded) }
{
    if field.starts_with('+') {
        return Err(LineError::NotRecorded);
    }
    Ok(field.parse()?)
}

/// A number of a reading; where its field spells none it is the largest, which no recorded answer has.
pub(crate) fn number_or_max(field: &str) -> u32
    ensures spelt { IsNumeral 10 field.now → digits_value 10 field.now < 2 ^ 32 → result ≡ digits_value 10 field.now }
    ensures none { (IsNumeral 10 field.now × (result ≡ digits_value 10 field.now)) ⊎ (result ≡ 2 ^ 32 - 1) }
{
    number(field).unwrap_or(u32::MAX)
}

/// The numbers of a field, parted by commas, of which one may stand at the end; `-` is none, and so is an empty field.
pub(crate) fn numbers(alloc: Global, field: &str) -> Result<Vec<u32>, LineError> {
    if field == "-" {
        return Ok(Vec::new(alloc));
    }
    field
        .split_terminator(',')
        .map(|part| number(part))
        .try_collect(alloc)
}

/// A body, the numbers of its table's rows, and the final position: the first three fields of a line with a table.
#[derive(Drop)]
pub struct Upload {
    pub body: Vec<u8>,
    pub rows: Vec<u32>,
    pub end: u32,
}

impl Upload {
    pub(crate) fn parse(
        alloc: Global,
        body: &str,
        end: &str,
        rows: &str,
    ) -> Result<Upload, LineError> {
        Ok(Upload {
            body: bytes(alloc, body)?,
            rows: numbers(alloc, rows)?,
            end: number(end)?,
        })
    }

    /// The same of a reading.
    pub(crate) fn of_reading(alloc: Global, fields: &[&str]) -> Result<Upload, LineError> {
        Ok(Upload {
            body: bytes_or_none(alloc, nth(fields, 0))?,
            rows: numbers(alloc, nth(fields, 2))?,
            end: number_or_max(nth(fields, 1)),
        })
    }
}
