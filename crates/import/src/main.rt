// A caller's view of the main theorem. `pieces` drains an upload, reads it only where it passed whole, and reads each piece again by its
// own rows; that this gets no refusal but the six is proved from the contracts of the drain and of the readings alone. Here it runs: a
// list of two cores, each core read as a structure, and then the same upload cut after its first core, of which nothing is handed on.
// What cannot be printed is let go: the status is 0 all the same, and the lines that are expected are missing. It rests on `decode` for
// the drain, on `deserializer` and on `element`.
#![tactic(auto)]

mod pieces;

use deserializer::{Reading, Shape};
use pieces::{Asked, Buffers, import};
use refusal::Refusal;
use scalar::find::find;
use sheet::Settings;
use table::Table;
use xml::DrainError;

// The rows of <cores><core><id>7</id></core><core/></cores>, eight numbers each.
const ROWS: [[u32; 8]; 12] = [
    [1, 0, 0, 1, 5, 0, 0, 6],
    [3, 0, 0, 0, 0, 0, 0, 7],
    [1, 0, 0, 8, 4, 0, 0, 12],
    [3, 0, 0, 0, 0, 0, 0, 13],
    [1, 0, 0, 14, 2, 0, 0, 16],
    [3, 0, 0, 0, 0, 0, 0, 17],
    [6, 0, 0, 0, 0, 17, 1, 18],
    [4, 0, 0, 20, 2, 0, 0, 23],
    [4, 0, 0, 25, 4, 0, 0, 30],
    [1, 0, 0, 31, 4, 0, 0, 35],
    [5, 0, 0, 0, 0, 0, 0, 37],
    [4, 0, 0, 39, 5, 0, 0, 45],
];

const SETTINGS: Settings = Settings {
    max_depth: 128,
    validate_document: true,
    validate_root_name: true,
    strict_collection_element_names: true,
};

// A list by its item name `core`.
const CORES: Asked<'static> = Asked {
    shape: Shape::List,
    sheet: b"\x05\x04core",
    settings: SETTINGS,
};

// A structure with the member `id`.
const CORE: Asked<'static> = Asked {
    shape: Shape::Struct,
    sheet: b"\x00\x04core\x01\x01\x02id",
    settings: SETTINGS,
};

// What is printed for a piece that was not read again.
const NOT_READ: u32 = 77;

fn drain_number(why: DrainError) -> u32 {
    match why {
        DrainError::Table => Refusal::Table.number(),
        DrainError::IllFormed { .. } => Refusal::IllFormed.number(),
    }
}

// An upload read as a list of cores, and each core as a structure; of one that passed also the first core, as a part of the body.
fn show(rt: &impl Print, upload: Table) -> anyhow::Result<()> {
    let mut entries = [0; 24];
    let mut texts = [0; 16];
    let mut piece_entries = [0; 12];
    let mut piece_texts = [0; 16];
    let mut outcomes = [None; 2];
    let mut lent = Buffers {
        entries: &mut entries,
        texts: &mut texts,
    };
    let mut space = Buffers {
        entries: &mut piece_entries,
        texts: &mut piece_texts,
    };
    let imported = import(upload, CORES, CORE, &mut lent, &mut outcomes, &mut space);
    let (drained, read, count) = match imported {
        Ok(reading) => (0, reading.number(), reading.count),
        Err(why) => (drain_number(why), 0, 0),
    };
    let [first, second] = outcomes.map(|again| again.map_or(NOT_READ, Reading::number));
    println!(rt; "{}", str::from_utf8(upload.body)?)?;
    print!(rt; "drained {drained}, read {read}, entries {count}, ")?;
    println!(rt; "pieces read again {first} and {second}")?;
    if imported.is_ok() {
        let core = str::from_utf8(find(upload, b"core"))?;
        println!(rt; "the first core: {core}")?;
    }
    Ok(())
}

fn show_uploads(rt: &impl Print) -> anyhow::Result<()> {
    let whole = Table {
        body: b"<cores><core><id>7</id></core><core/></cores>",
        rows: ROWS.as_flattened(),
        end: 45,
    };
    show(rt, whole)?;
    let cut = Table {
        body: b"<cores><core><id>7</id></core>",
        rows: ROWS[..9].as_flattened(),
        end: 30,
    };
    show(rt, cut)
}

// Nothing is printed after a write that failed, and its error is no failure of the program.
fn main(rt: HostRuntime) {
    let _ = show_uploads(&rt);
}
