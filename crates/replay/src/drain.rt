// The drain: `d BODY END ROWS 0`, or `d BODY END ROWS 9 ROW CAUSE`.
use crate::field::{LineError, Upload, number};
use crate::lent::MARK;
use falzheod::falzheod_drain;
use std::alloc::Global;

/// What a drain tells: row and cause are 0 where the body passes.
#[derive(Clone, Copy, Debug, PartialEq, Eq)]
struct Verdict {
    number: u32,
    row: usize,
    cause: u32,
}

fn drain(upload: &Upload) -> Verdict {
    let mut row = MARK as usize;
    let mut cause = MARK;
    let mut place = MARK as usize;
    let number = falzheod_drain(
        &upload.body,
        &upload.rows,
        upload.end,
        &mut row,
        &mut cause,
        &mut place,
    );
    Verdict { number, row, cause }
}

fn parse_verdict(fields: &[&str]) -> Result<Verdict, LineError> {
    match fields {
        ["0"] => Ok(Verdict {
            number: 0,
            row: 0,
            cause: 0,
        }),
        ["9", row, cause] => Ok(Verdict {
            number: 9,
            row: number(row)? as usize,
            cause: number(cause)?,
        }),
        _ => Err(LineError::NotRecorded),
    }
}

pub(crate) fn replay(alloc: Global, fields: &[&str]) -> Result<bool, LineError> {
    let [body, end, rows, recorded @ ..] = fields else {
        return Err(LineError::NotRecorded);
    };
    let upload = Upload::parse(alloc, body, end, rows)?;
    Ok(drain(&upload) == parse_verdict(recorded)?)
}
