// The exports for C and Rust (include/falzheod.h, rust/): each calls the operation of `falzheod` that has its name, and promises the same,
// word for word, to which tools/exports.py holds it. A crate is a library or a static library, so this one stands above `falzheod`, on
// which alone it rests; what an operation is, is said there.
#![tactic(auto)]

ghost use Rattle.std.specs.Prelude.{◌≡◌};
ghost use Rattle.lists.specs.Tests.{yes_no};
ghost use Rattle.reference.specs.Text.{validated};
ghost use Rattle.utf8.specs.Table.{is_utf8};
ghost use Rattle.table.specs.Row.{rows_of};
ghost use Rattle.xml.specs.Drain.{drained, drain_place};
ghost use Rattle.falzheod.specs.Numbers.{ValidateCall, UnescapeCall, DrainCall};

pub mod aggregates;
pub mod scalars;

#[unsafe(no_mangle)]
pub extern "C" fn falzheod_validate_references(text: &[u8], place: &mut usize) -> u32
    ensures validated { ValidateCall (validated text.now) place.new result }
{
    falzheod::falzheod_validate_references(text, place)
}

#[unsafe(no_mangle)]
pub extern "C" fn falzheod_unescape(
    text: &[u8],
    out: &mut [u8],
    length: &mut usize,
    place: &mut usize,
) -> u32
    ensures unescaped { UnescapeCall text.now out.old out.new length.new
        place.new result }
{
    falzheod::falzheod_unescape(text, out, length, place)
}

#[unsafe(no_mangle)]
pub extern "C" fn falzheod_is_utf8(text: &[u8]) -> u32
    ensures well_formed { result ≡ yes_no (is_utf8 text.now) }
{
    falzheod::falzheod_is_utf8(text)
}

#[unsafe(no_mangle)]
pub extern "C" fn falzheod_drain(
    body: &[u8],
    rows: &[u32],
    end: u32,
    row: &mut usize,
    cause: &mut u32,
    place: &mut usize,
) -> u32
    ensures drained { DrainCall (drained body.now rows.now end) row.new cause.new result }
    ensures place { place.new ≡ drain_place body.now (rows_of rows.now)
        (drained body.now rows.now end) }
{
    falzheod::falzheod_drain(body, rows, end, row, cause, place)
}
