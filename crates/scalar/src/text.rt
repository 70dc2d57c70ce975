// Booleans, integers and strings from a text that was taken from an entry: nothing is trimmed.
ghost use Rattle.std.specs.Prelude.{◌≡◌, ◌≤◌, drop, length};
ghost use Rattle.document.specs.Part.{CopyIs};
ghost use Rattle.document.specs.Text.{string_in};
ghost use Rattle.readings.specs.Scalar.{boolean_of, digits_of, integer_of, negative, positive};
ghost use Rattle.scalar.specs.Answers.{answer};
ghost use Rattle.scalar.specs.Digits.{bounded, integer_or};

use refusal::Refusal;

// `true` or `false`, byte for byte.
pub fn boolean_of(text: &[u8]) -> Result<bool, Refusal>
    ensures { answer result ≡ boolean_of text.now }
{
    if text == b"true".as_slice() {
        Ok(true)
    } else if text == b"false".as_slice() {
        Ok(false)
    } else {
        Err(Refusal::NotBoolean)
    }
}

// The number that the digits from a place on spell, if it is at most 2^31: a greater one is in no range, and no more of them are read.
#[tactic(auto, using(crate::proofs::Texts::digits_laws))]
fn digits_from(text: &[u8], from: usize) -> Option<u32>
    requires { from ≤ length text.now }
    ensures { result ≡ bounded (digits_of (drop from text.now)) }
{
    if from == text.len() {
        return None;
    }
    let mut n: u64 = 0;
    for i in from..text.len() {
        let b = text[i];
        if b < b'0' || b > b'9' {
            return None;
        }
        n = n * 10 + (b - b'0') as u64;
        if n > 0x8000_0000 {
            return None;
        }
    }
    Some(n as u32)
}

// A number without a sign or with a `+`.
#[tactic(auto, using(crate::proofs::Texts::sign_laws))]
fn positive_of(n: Option<u32>) -> Option<i32>
    ensures { integer_or result ≡ positive n }
{
    let n = n?;
    if n <= 0x7fff_ffff {
        Some(n as i32)
    } else {
        None
    }
}

// A number with a `-`. The least one has no positive counterpart, so that one is taken off before and after the sign is changed.
#[tactic(auto, using(crate::proofs::Texts::sign_laws))]
fn negative_of(n: Option<u32>) -> Option<i32>
    ensures { integer_or result ≡ negative n }
{
    let n = n?;
    if n == 0 {
        Some(0)
    } else if n <= 0x8000_0000 {
        Some(-1 - (n - 1) as i32)
    } else {
        None
    }
}

// An optional sign, one or more digits, in the range of 32 bits.
#[tactic(auto, using(crate::proofs::Texts::integer_laws))]
fn signed_of(text: &[u8]) -> Option<i32>
    ensures { integer_or result ≡ integer_of text.now }
{
    if text.is_empty() {
        None
    } else if text[0] == b'+' {
        positive_of(digits_from(text, 1))
    } else if text[0] == b'-' {
        negative_of(digits_from(text, 1))
    } else {
        positive_of(digits_from(text, 0))
    }
}

// The same, with why there is none.
pub fn integer_of(text: &[u8]) -> Result<i32, Refusal>
    ensures { answer result ≡ integer_of text.now }
{
    match signed_of(text) {
        Some(n) => Ok(n),
        None => Err(Refusal::NotInteger),
    }
}

// The text itself, at the front of a lent buffer.
pub fn string_of(text: &[u8], out: &mut [u8]) -> Result<usize, Refusal>
    ensures { CopyIs (string_in (length out.old) text.now) out.old out.new result }
{
    if text.len() <= out.len() {
        Ok(slices::put(out, 0, text))
    } else {
        Err(Refusal::NoRoom)
    }
}
