// "Unwrapped: 9, then one piece (the root element alone ..) or none, 10."
ghost use Rattle.std.specs.Prelude.{◌≡◌};
ghost use Rattle.readings.specs.Structure.{root_piece, unwrapped_plan};
ghost use Rattle.codec.specs.Structure.{structure_said};
ghost use Rattle.output.specs.Held.{Does, Enters};
ghost use Rattle.opening.specs.Opening.{body_of, opened_of};
ghost use Rattle.structure.specs.Unwrapped.{EndIs};

use codec::structure::StructureSheet;
use decode::element::Element;
use document::part::Piece;
use output::Output;
use refusal::Refusal;

// Where a root ends: at the position of the row that closes it, whatever its name, or where the view ends.
fn root_end(root: &Element) -> usize
    ensures { EndIs root.now result }
{
    let mut deep = 0;
    for k in root.start.row..root.view.count {
        deep = root.view.kind(k).open_after(deep);
        if deep == 0 {
            return root.view.table.position(k);
        }
    }
    root.view.ends
}

// The piece of a root by its rows.
fn root_piece(root: &Element) -> Piece
    ensures { result ≡ root_piece (body_of root.now) (opened_of root.now) }
{
    let start = root.view.table.begin(root.start.row);
    let len = root_end(root).saturating_sub(start);
    Piece {
        start: start as u32,
        len: len as u32,
    }
}

// An unwrapped structure: 9, then the root as one piece, or nothing where its local name resolves to no member.
pub fn read_unwrapped(
    root: &Element,
    sheet: &StructureSheet,
    out: &mut Output,
) -> Result<(), Refusal>
    ensures does { Does (unwrapped_plan (body_of root.now) (structure_said sheet.now) (opened_of root.now)) out.old out.new result }
    ensures enters { Enters (unwrapped_plan (body_of root.now) (structure_said sheet.now) (opened_of root.now)) out.old out.new result }
{
    if root.view.ill_formed {
        return Err(Refusal::IllFormed);
    }
    match sheet.resolve_member(root.local()) {
        Some(i) => out.write_piece(i as u32, root_piece(root)),
        None => Ok(()),
    }
}
