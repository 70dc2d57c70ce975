// The readings by a sheet: `BODY END ROWS SHEET FLAGS MAXIMUM DEPTH NUMBER ENTRIES TEXTS`, but for a refused string list, whose entries
// and texts the Rust does not show.
use crate::field::{LineError, Upload, bytes_or_none, nth, number_or_max, numbers};
use crate::lent::{BYTE, MARK, TEXT_ROOM, holds};
use falzheod::aggregates::{
    falzheod_read_list, falzheod_read_map, falzheod_read_string_list, falzheod_read_struct,
};
use std::alloc::Global;

const FINISHED: u32 = 0;

// The kind of a failed text, and the number of a bad reference.
const FAILED: u32 = 4;

const BAD_REFERENCE: u32 = 7;

// How many numbers an entry has, and the numbers that are lent for entries: a part of an entry is over.
const ENTRY: usize = 6;

const ENTRIES_ROOM: usize = 256;

#[derive(Clone, Copy, Debug, PartialEq, Eq)]
pub enum Shape {
    Struct,
    List,
    Map,
    StringList,
}

/// What is asked.
#[derive(Drop)]
struct Asked {
    shape: Shape,
    upload: Upload,
    sheet: Vec<u8>,
    flags: u32,
    max_depth: u32,
    depth: u32,
}

/// What a reading is lent for its answer.
#[derive(Drop)]
struct Lent {
    entries: [u32; ENTRIES_ROOM],
    texts: [u8; TEXT_ROOM],
    count: usize,
    length: usize,
    place: usize,
}

impl Lent {
    fn new() -> Lent {
        Lent {
            entries: [MARK; ENTRIES_ROOM],
            texts: [BYTE; TEXT_ROOM],
            count: MARK as usize,
            length: MARK as usize,
            place: MARK as usize,
        }
    }
}

impl Asked {
    // The number that the reading answers.
    fn read(&self, lent: &mut Lent) -> u32 {
        let Asked {
            shape,
            upload,
            sheet,
            flags,
            max_depth,
            depth,
        } = self;
        let Upload { body, rows, end } = upload;
        let (end, flags, max, depth) = (*end, *flags, *max_depth, *depth);
        let Lent {
            entries,
            texts,
            count,
            length,
            place,
        } = lent;
        match shape {
            Shape::Struct => falzheod_read_struct(
                body, rows, end, sheet, flags, max, depth, entries, texts, count, length,
            ),
            Shape::List => falzheod_read_list(
                body, rows, end, sheet, flags, max, depth, entries, texts, count, length,
            ),
            Shape::Map => falzheod_read_map(
                body, rows, end, sheet, flags, max, depth, entries, texts, count, length, place,
            ),
            Shape::StringList => falzheod_read_string_list(
                body, rows, end, sheet, flags, max, depth, entries, texts, count, length, place,
            ),
        }
    }

    // Whether the reading answers this number, these entries and these texts, and writes nothing else.
    fn reads_to(&self, recorded: u32, entries: &[u32], texts: &[u8]) -> bool {
        let mut lent = Lent::new();
        self.read(&mut lent) == recorded
            && lent.count == entries.len() / ENTRY
            && lent.length == texts.len()
            && holds_entries(&lent.entries, entries)
            && holds(&lent.texts, &[BYTE; TEXT_ROOM], texts)
    }

    // Whether the reading refuses with this number.
    fn refuses_with(&self, recorded: u32) -> bool {
        recorded != FINISHED && self.read(&mut Lent::new()) == recorded
    }
}

// Whether an entry is the recorded one. The length of a failed text is a place where its number is that of a bad reference; the Rust tells
// no place.
fn is_entry(found: &[u32], recorded: &[u32]) -> bool {
    match (found, recorded) {
        ([told @ .., _], [FAILED, _, _, _, BAD_REFERENCE, _]) => recorded.starts_with(told),
        _ => found == recorded,
    }
}

// Whether the lent buffer has these entries, and past them what stood there before.
fn holds_entries(lent: &[u32], entries: &[u32]) -> bool {
    let Some((written, rest)) = lent.split_at_checked(entries.len()) else {
        return false;
    };
    rest.iter().all(|&n| n == MARK)
        && written
            .chunks(ENTRY)
            .zip(entries.chunks(ENTRY))
            .all(|(found, recorded)| is_entry(found, recorded))
}

fn parse_entries(alloc: Global, field: &str) -> Result<Vec<u32>, LineError> {
    let entries = numbers(alloc, field)?;
    if entries.len() > ENTRIES_ROOM {
        return Err(LineError::NotRecorded);
    }
    Ok(entries)
}

// A line without entries is that of a refused string list, whatever its letter.
pub(crate) fn replay(alloc: Global, shape: Shape, fields: &[&str]) -> Result<bool, LineError> {
    let is_refusal = matches!(fields.get(8..), None | Some([] | [""]));
    let asked = Asked {
        shape: if is_refusal { Shape::StringList } else { shape },
        upload: Upload::of_reading(alloc, fields)?,
        sheet: bytes_or_none(alloc, nth(fields, 3))?,
        flags: number_or_max(nth(fields, 4)),
        max_depth: number_or_max(nth(fields, 5)),
        depth: number_or_max(nth(fields, 6)),
    };
    let answer = number_or_max(nth(fields, 7));
    if is_refusal {
        return Ok(asked.refuses_with(answer));
    }
    let entries = parse_entries(alloc, nth(fields, 8))?;
    let texts = bytes_or_none(alloc, nth(fields, 9))?;
    Ok(asked.reads_to(answer, &entries, &texts))
}
