// The operations on a text.
use anyhow::{Context, Result};
use falzheod::scalars::falzheod_text_integer;
use reference::UnescapeError;

// As long as the longest text here; a result is never longer than its text.
const ROOM: usize = 64;

// Without a text of them, which would need memory.
fn print_hex(rt: &impl Print, bytes: &[u8]) -> Result<()> {
    for byte in bytes {
        print!(rt; "{byte:02x}")?;
    }
    Ok(())
}

/// The text, whether its references are valid, and what it is without them; a refusal by 01's number, with the place of the failing `&`.
pub(crate) fn print_references(rt: &impl Print, text: &str) -> Result<()> {
    print!(rt; "{text} validate: ")?;
    match unescape::validate_references(text.as_bytes()) {
        Ok(()) => print!(rt; "valid")?,
        Err(bad) => print!(rt; "7 at {}", bad.at)?,
    }
    print!(rt; ", unescape: ")?;
    let mut out = [0; ROOM];
    match unescape::unescape(text.as_bytes(), &mut out) {
        Ok(n) => {
            let bytes = out.get(..n).context("a result longer than its room")?;
            print_hex(rt, bytes)?;
            println!(rt)?
        }
        Err(UnescapeError::BadReference { at }) => println!(rt; "7 at {at}")?,
        Err(UnescapeError::NoRoom) => println!(rt; "10")?,
    }
    Ok(())
}

/// The text, the number of its integer reading, and whether the value is then the one expected.
pub(crate) fn print_integer(rt: &impl Print, text: &str, expected: i32) -> Result<()> {
    let mut value = 0;
    let number = falzheod_text_integer(text.as_bytes(), &mut value);
    let remark = if value == expected {
        ", value as expected"
    } else {
        ""
    };
    println!(rt; "{text} integer: {number}{remark}")?;
    Ok(())
}
