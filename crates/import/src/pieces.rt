// An upload drained, read, and each of its pieces read again by its own rows, as an import service does: what the main theorem says of
// these calls is proved from the contracts of the drain and of the readings alone.
ghost use Rattle.std.specs.Prelude.{◌*◌, length, MatchOption};
ghost use Rattle.xml.specs.Piece.{ElementPiece};
ghost use Rattle.opening.specs.Opening.{upload_of};
ghost use Rattle.deserializer.specs.Demand.{PieceEntry, PiecesIn};
ghost use Rattle.import.specs.Import.{asking, EachReread, ImportCall, Names, NamesNone, Passes, Reread, RereadOne, SameBuffers};

use decode::drain::drain;
use deserializer::{Reading, Shape};
use document::part::Piece;
use output::entry::Kind;
use sheet::{Settings, ShapeDepth};
use table::Table;
use xml::DrainError;

// What is asked of a reading: what is read, by which sheet, and under which settings.
#[derive(Clone, Copy)]
pub struct Asked<'a> {
    pub shape: Shape,
    pub sheet: &'a [u8],
    pub settings: Settings,
}

// The two buffers that are lent for what a reading writes.
#[derive(Drop)]
pub struct Buffers<'a> {
    pub entries: &'a mut [u32],
    pub texts: &'a mut [u8],
}

// Reads a piece again, at depth 1, by its own rows.
fn read_piece(upload: Table, piece: Piece, asked: Asked, space: &mut Buffers) -> Reading
    requires passes { Passes (upload_of upload) }
    requires element_piece { ElementPiece upload.body.now upload.rows.now piece.start piece.len }
    ensures reread { Reread asked.entry.shape (upload_of upload.entry) piece.start piece.len (asking asked.entry 1)
        (length space.old.entries.now) (length space.old.texts.now) result }
    ensures same { SameBuffers space.old space.new }
{
    let mut rows = [0u32; 65536];
    let start = piece.start as usize;
    let end = start + piece.len as usize;
    let count = element::own_rows(upload.rows, piece.start, &mut rows);
    let table = Table {
        body: &upload.body[start..end],
        rows: &rows[..count * 8],
        end: piece.len,
    };
    deserializer::read(
        asked.shape,
        table,
        asked.sheet,
        asked.settings,
        ShapeDepth(1),
        space.entries,
        space.texts,
    )
}

// The piece that entry k names, if there is such an entry and it is one.
fn piece_at(entries: &[u32], k: usize) -> Option<Piece>
    ensures { MatchOption result (NamesNone entries.now k) (Names entries.now k) }
{
    if k < entries.len() / 6 && entries[k * 6] == Kind::Piece as u32 {
        Some(Piece {
            start: entries[k * 6 + 4],
            len: entries[k * 6 + 5],
        })
    } else {
        None
    }
}

// Reads the piece of entry k again, if it is one and there is a place k for what comes of it.
fn read_entry(
    upload: Table,
    entries: &[u32],
    k: usize,
    asked: Asked,
    outcomes: &mut [Option<Reading>],
    space: &mut Buffers,
)
    requires passes { Passes (upload_of upload) }
    requires piece_entry { PieceEntry (upload_of upload) entries.now (k * 6) }
    ensures reread { RereadOne asked.entry.shape (upload_of upload.entry) entries.now (asking asked.entry 1)
        (length space.old.entries.now) (length space.old.texts.now) outcomes.old outcomes.new k }
    ensures same { SameBuffers space.old space.new }
{
    let Some(piece) = piece_at(entries, k) else {
        return;
    };
    if k < outcomes.len() {
        outcomes[k] = Some(read_piece(upload, piece, asked, space));
    }
}

// Reads each piece among the entries again; in place k of `outcomes`, where there is one, stands what came of the piece of entry k.
#[tactic(auto, using(crate::proofs::Again::onward_more))]
fn read_pieces(
    upload: Table,
    lent: &Buffers,
    count: usize,
    asked: Asked,
    outcomes: &mut [Option<Reading>],
    space: &mut Buffers,
)
    requires passes { Passes (upload_of upload) }
    requires pieces_in { PiecesIn (upload_of upload) lent.now.entries.now count }
    ensures reread { EachReread asked.entry.shape (upload_of upload.entry) lent.now.entries.now count (asking asked.entry 1)
        (length space.old.entries.now) (length space.old.texts.now) outcomes.old outcomes.new }
    ensures same { SameBuffers space.old space.new }
{
    for k in 0..count {
        read_entry(upload, lent.entries, k, asked, outcomes, space);
    }
}

// Drains an upload and, only where it passes whole, reads it, and each of its pieces by what is asked of them.
pub fn import(
    upload: Table,
    whole: Asked,
    piece: Asked,
    lent: &mut Buffers,
    outcomes: &mut [Option<Reading>],
    space: &mut Buffers,
) -> Result<Reading, DrainError>
    ensures { ImportCall whole.entry piece.entry (upload_of upload.entry) lent.old lent.new outcomes.old outcomes.new
        space.old space.new result }
{
    drain(upload)?;
    let reading = deserializer::read(
        whole.shape,
        upload,
        whole.sheet,
        whole.settings,
        ShapeDepth(0),
        lent.entries,
        lent.texts,
    );
    read_pieces(upload, lent, reading.count, piece, outcomes, space);
    Ok(reading)
}
