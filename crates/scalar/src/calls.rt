// Each answer as 01's number and values, for a caller that has no enums: 0 where the operation finished. A value is left alone by a
// refusal; a length, and the start of a part, are 0. A reading of a body tells the place of the failing `&` beside the number, and 0 where
// the number is not 7.
ghost use Rattle.std.specs.Prelude.{◌≡◌};
ghost use Rattle.document.specs.Part.{copied_as};
ghost use Rattle.scalar.specs.Answers.{answer, span_as};
ghost use Rattle.scalar.specs.Calls.{BooleanCall, FindCall, IntegerCall, LengthCall};
ghost use Rattle.scalar.specs.Calls.{BooleanRead, IntegerRead, LengthRead, place_of};

use document::part::Piece;
use refusal::Refusal;

// A boolean, as 1 or 0.
pub fn give_boolean(x: Result<bool, Refusal>, value: &mut u32) -> u32
    ensures { BooleanCall (answer x) value.old value.new result }
{
    match x {
        Ok(b) => {
            *value = b as u32;
            0
        }
        Err(why) => why.number(),
    }
}

// An integer.
pub fn give_integer(x: Result<i32, Refusal>, value: &mut i32) -> u32
    ensures { IntegerCall (answer x) value.old value.new result }
{
    match x {
        Ok(z) => {
            *value = z;
            0
        }
        Err(why) => why.number(),
    }
}

// How many bytes of a lent buffer were written.
pub fn give_length(x: Result<usize, Refusal>, length: &mut usize) -> u32
    ensures { LengthCall (copied_as x) length.new result }
{
    *length = x.unwrap_or(0);
    match x {
        Ok(_) => 0,
        Err(why) => why.number(),
    }
}

// Where a part starts, and its length, which may be any offsets.
pub fn give_span(x: Result<(usize, usize), Refusal>, start: &mut usize, length: &mut usize) -> u32
    ensures { FindCall (span_as x) start.new length.new result }
{
    let (from, len, number) = match x {
        Ok((from, len)) => (from, len, 0),
        Err(why) => (0, 0, why.number()),
    };
    *start = from;
    *length = len;
    number
}

// Where a part of the body starts, and its length.
pub fn give_part(x: Result<Piece, Refusal>, start: &mut usize, length: &mut usize) -> u32
    ensures { FindCall (answer x) start.new length.new result }
{
    let span = match x {
        Ok(piece) => Ok((piece.start as usize, piece.len as usize)),
        Err(why) => Err(why),
    };
    give_span(span, start, length)
}

// The place beside the number of an answer, as an offset: 0 where it is no refusal.
fn place_of<T: Copy>(x: Result<T, Refusal>) -> usize
    ensures { result ≡ place_of (answer x) }
{
    match x {
        Ok(_) => 0,
        Err(why) => why.place() as usize,
    }
}

// A boolean of a body, and the place.
pub fn give_read_boolean(x: Result<bool, Refusal>, value: &mut u32, place: &mut usize) -> u32
    ensures { BooleanRead (answer x) value.old value.new place.new result }
{
    *place = place_of(x);
    give_boolean(x, value)
}

// An integer of a body, and the place.
pub fn give_read_integer(x: Result<i32, Refusal>, value: &mut i32, place: &mut usize) -> u32
    ensures { IntegerRead (answer x) value.old value.new place.new result }
{
    *place = place_of(x);
    give_integer(x, value)
}

// How many bytes were written of a text of a body, and the place.
pub fn give_read_length(x: Result<usize, Refusal>, length: &mut usize, place: &mut usize) -> u32
    ensures { LengthRead (copied_as x) length.new place.new result }
{
    *place = place_of(x);
    give_length(x, length)
}
