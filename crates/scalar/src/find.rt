// The part of a body that has a name (`find_depth2_element_slice_by`, its predicate a lent name): the whole body if the root has the name,
// else the piece of the root's first child that has it. The reading is lenient.
ghost use Rattle.std.specs.Prelude.{◌≡◌};
ghost use Rattle.table.specs.Row.{cut};
ghost use Rattle.document.specs.Scope.{children_of};
ghost use Rattle.decode.specs.View.{view_of};
ghost use Rattle.decode.specs.Element.{child_of};
ghost use Rattle.readings.specs.Find as readings;
ghost use Rattle.readings.specs.Find.{find_in, part_of, refusal_of};
ghost use Rattle.opening.specs.Opening.{body_of, upload_of};
ghost use Rattle.scalar.specs.Find.{FindingIs, first_piece};

use decode::element::Element;
use document::part::Piece;
use refusal::Refusal;
use table::Table;

// The piece of the first child of an element that has the name.
fn child_in(root: &Element, name: &[u8]) -> Result<Piece, Refusal>
    ensures { FindingIs (body_of root.now)
        (first_piece (body_of root.now) (view_of root.now.view) name.now (children_of (child_of root.now))) result }
{
    let mut scope = *root;
    while let Ok(child) = scope.next_tag() {
        let past = child.drain();
        if child.local() == name {
            return Ok(child.piece(past));
        }
        scope = root.from_place(past.at);
    }
    Err(Refusal::NoSuchElement)
}

// The whole body if the root has the name, else the piece of its first child that has it.
fn find_in(root: &Element, name: &[u8]) -> Result<Piece, Refusal>
    ensures { FindingIs (body_of root.now)
        (find_in (body_of root.now) (view_of root.now.view) name.now (child_of root.now)) result }
{
    if root.local() == name {
        Ok(Piece {
            start: 0,
            len: root.view.table.body.len() as u32,
        })
    } else {
        child_in(root, name)
    }
}

// What the search finds: a part of the body, or 1 or 13.
pub fn finding_of(table: Table, name: &[u8]) -> Result<Piece, Refusal>
    ensures { FindingIs table.entry.body.now
        (readings.find (upload_of table.entry) name.now) result }
{
    let Some(valid) = table.check() else {
        return Err(Refusal::Table);
    };
    // "13 also without a root"
    let Ok(root) = opening::root(false, valid) else {
        return Err(Refusal::NoSuchElement);
    };
    find_in(&root, name)
}

// The part of the body that has the name; an empty part where there is none.
pub fn find<'a>(table: Table<'a>, name: &[u8]) -> &'a [u8]
    ensures { result.now ≡ cut table.entry.body.now
        (part_of (readings.find (upload_of table.entry) name.now)).start
        (part_of (readings.find (upload_of table.entry) name.now)).len }
{
    match finding_of(table, name) {
        Ok(piece) => {
            let from = piece.start as usize;
            &table.body[from..from + piece.len as usize]
        }
        Err(_) => &[],
    }
}

// The sister question, why the part is empty: 1 or 13; 0 where it is not.
pub fn find_number(table: Table, name: &[u8]) -> u32
    ensures { result ≡ refusal_of (readings.find (upload_of table.entry) name.now) }
{
    match finding_of(table, name) {
        Ok(_) => 0,
        Err(why) => why.number(),
    }
}
