// The readings at the edges (01, "Bodies at the edges", "Where a hasty port strays"), each with its sheet, flags and depth.
use crate::bodies::Upload;
use crate::{UNSET, bodies};
use anyhow::{Context, Result};
use falzheod::aggregates::{falzheod_read_list, falzheod_read_map, falzheod_read_struct};
use std::{fmt, str};

const MAX_DEPTH: u32 = 128;

const LENIENT: u32 = 0;

// The flag validate_document.
const STRICT: u32 = 1;

// The number of a refusal for a bad reference, which has a place.
const BAD_REFERENCE: u32 = 7;

#[derive(Clone, Copy, Debug, PartialEq, Eq)]
enum Shape {
    Struct,
    List,
    Map,
}

impl fmt::Display for Shape {
    fn fmt<W: fmt::Write>(&self, f: &mut fmt::Formatter<W>) -> fmt::Result {
        match self {
            Shape::Struct => write!(f, "structure"),
            Shape::List => write!(f, "list"),
            Shape::Map => write!(f, "map"),
        }
    }
}

/// What is asked: the reading of an upload by a sheet.
#[derive(Clone, Copy)]
pub struct Reading {
    shape: Shape,
    upload: Upload,
    sheet: &'static [u8],
    flags: u32,
    depth: u32,
}

pub const READINGS: [Reading; 16] = [
    // "Empty table: passes, structure gives 4".
    Reading {
        shape: Shape::Struct,
        upload: bodies::EMPTY,
        sheet: b"\x00\x01r\x01\x02\x01a",
        flags: LENIENT,
        depth: 0,
    },
    // "as a list: one piece, start 3, length 8".
    Reading {
        shape: Shape::List,
        upload: bodies::PIECE,
        sheet: b"\x00",
        flags: LENIENT,
        depth: 0,
    },
    // "Depth 127 of 128 is entered".
    Reading {
        shape: Shape::List,
        upload: bodies::PIECE,
        sheet: b"\x00",
        flags: LENIENT,
        depth: 127,
    },
    // "128 gives 3".
    Reading {
        shape: Shape::List,
        upload: bodies::PIECE,
        sheet: b"\x00",
        flags: LENIENT,
        depth: 128,
    },
    // "n flattened aggregate: one group of 33 bytes".
    Reading {
        shape: Shape::Struct,
        upload: bodies::GROUP,
        sheet: b"\x00\x01r\x01\x1a\x01n",
        flags: LENIENT,
        depth: 0,
    },
    // "Strict: 4 from a structure reading".
    Reading {
        shape: Shape::Struct,
        upload: bodies::REPEATED_ATTRIBUTE,
        sheet: b"\x00\x01r\x01\x02\x01a",
        flags: STRICT,
        depth: 0,
    },
    // "Lenient: no entry at all, success": the level ends at an attribute that does not unescape.
    Reading {
        shape: Shape::Struct,
        upload: bodies::BAD_ATTRIBUTE,
        sheet: b"\x00\x01r\x02\x02\x01a\x02\x01b",
        flags: LENIENT,
        depth: 0,
    },
    // "Lenient, a and c scalar: one text 1; c is never seen".
    Reading {
        shape: Shape::Struct,
        upload: bodies::MISMATCHED_MEMBER,
        sheet: b"\x00\x01r\x02\x02\x01a\x02\x01c",
        flags: LENIENT,
        depth: 0,
    },
    // attributes use `Name::matches`: `type` finds `xsi:type`; members compare the local name exactly.
    Reading {
        shape: Shape::Struct,
        upload: bodies::PREFIXED,
        sheet: b"\x00\x01r\x03\x06\x04type\x02\x03p:b\x02\x01b",
        flags: LENIENT,
        depth: 0,
    },
    // attribute members are candidates too when a child is resolved.
    Reading {
        shape: Shape::Struct,
        upload: bodies::MEMBER,
        sheet: b"\x00\x01r\x02\x06\x01a\x02\x01a",
        flags: LENIENT,
        depth: 0,
    },
    // in maps the last key or value wins.
    Reading {
        shape: Shape::Map,
        upload: bodies::TWO_KEYS,
        sheet: b"\x04",
        flags: LENIENT,
        depth: 0,
    },
    // a child named as both is a key.
    Reading {
        shape: Shape::Map,
        upload: bodies::KEYS_ALONE,
        sheet: b"\x0e\x01k\x01k",
        flags: LENIENT,
        depth: 0,
    },
    // groups are not handed out before the strict end test.
    Reading {
        shape: Shape::Struct,
        upload: bodies::ILL_FORMED_GROUP,
        sheet: b"\x00\x01r\x01\x1a\x01n",
        flags: STRICT,
        depth: 0,
    },
    // the place of the failing `&` in the body: of a lenient reading that of unescaping, of a strict one that of validation.
    Reading {
        shape: Shape::Map,
        upload: bodies::BAD_VALUE,
        sheet: b"\x04",
        flags: LENIENT,
        depth: 0,
    },
    Reading {
        shape: Shape::Map,
        upload: bodies::BAD_VALUE,
        sheet: b"\x04",
        flags: STRICT,
        depth: 0,
    },
    // the length of a failed text is the place where its number is 7, and 0 where it is another.
    Reading {
        shape: Shape::Struct,
        upload: bodies::FAILED_TEXTS,
        sheet: b"\x00\x01r\x02\x02\x01w\x02\x01v",
        flags: LENIENT,
        depth: 0,
    },
];

/// Six numbers: kind, member, key start and length, start and length.
type Entry = [u32; 6];

/// What a reading is lent for its answer.
#[derive(Drop)]
struct Lent {
    entries: [Entry; 4],
    texts: [u8; 64],
    count: usize,
    length: usize,
    place: usize,
}

impl Lent {
    fn new() -> Lent {
        Lent {
            entries: [[UNSET; 6]; 4],
            texts: [0; 64],
            count: UNSET as usize,
            length: UNSET as usize,
            place: UNSET as usize,
        }
    }

    // Each entry, and behind them their texts.
    fn print(&self, rt: &impl Print) -> Result<()> {
        for [kind, member, key, key_length, start, length] in self.entries.iter().take(self.count) {
            print!(rt; " [{kind} {member} {key} {key_length} {start} {length}]")?;
        }
        let texts = self.texts.get(..self.length);
        let texts = str::from_utf8(texts.context("more texts than room")?)?;
        if !texts.is_empty() {
            print!(rt; " {texts}")?;
        }
        println!(rt)?;
        Ok(())
    }
}

impl Reading {
    // The number that the reading answers. A structure and a list tell no place.
    fn read(&self, lent: &mut Lent) -> u32 {
        let Reading {
            shape,
            upload: Upload { body, rows, end },
            sheet,
            flags,
            depth,
        } = *self;
        let (body, rows) = (body.as_bytes(), rows.as_flattened());
        let Lent {
            entries,
            texts,
            count,
            length,
            place,
        } = lent;
        let entries = entries.as_flattened_mut();
        match shape {
            Shape::Struct => falzheod_read_struct(
                body, rows, end, sheet, flags, MAX_DEPTH, depth, entries, texts, count, length,
            ),
            Shape::List => falzheod_read_list(
                body, rows, end, sheet, flags, MAX_DEPTH, depth, entries, texts, count, length,
            ),
            Shape::Map => falzheod_read_map(
                body, rows, end, sheet, flags, MAX_DEPTH, depth, entries, texts, count, length,
                place,
            ),
        }
    }

    /// The body, what is asked, the number, the place beside a 7, and what was written.
    pub(crate) fn print(&self, rt: &impl Print) -> Result<()> {
        let mut lent = Lent::new();
        let number = self.read(&mut lent);
        print!(rt; "{} {}", self.upload.body, self.shape)?;
        print!(rt; ", flags {}, depth {}: {number}", self.flags, self.depth)?;
        if number == BAD_REFERENCE {
            print!(rt; " at {}", lent.place)?;
        }
        lent.print(rt)
    }
}
