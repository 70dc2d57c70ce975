// The port of src/unescape.rs: `validate_references` says whether each reference of a text is right, `unescape` replaces them.
// What both answer is defined in `reference`; the crate rests on it, on `utf8` for the bytes of a character and on `slices` for runs of
// plain bytes; specs/ has the laws of the loops.
#![tactic(auto)]

ghost use Rattle.std.specs.Prelude.{◌≡◌, false, eqb, ◌+◌, ◌-◌, ◌≤◌, ◌<◌, length, get_or, drop};
ghost use Rattle.reference.specs.Number.{digit, digits};
ghost use Rattle.reference.specs.Entity.{numeric, reader, xml_char, allowed};
ghost use Rattle.reference.specs.Text.{reference, unescaped, validated, filled, Unescape};
ghost use Rattle.lists.specs.Characters.{ampersand, hash};
ghost use Rattle.lists.specs.Tests.{pick, within};
ghost use Rattle.lists.specs.Find.{NextAt};
ghost use Rattle.unescape.specs.Parse.{spelt, PastSign, only_ref, named_ref, packed, name_value};
ghost use Rattle.unescape.specs.Loops.{size_of};
ghost use Rattle.unescape.specs.Fill.{Room};

mod name;

use crate::name::{
    AMP, AMP_BYTES, AMP_VALUE, APO_BYTES, APOS, APOS_VALUE, END_BYTE, GT, GT_END_BYTES, GT_VALUE,
    LT, LT_END_BYTES, LT_VALUE, QUO_BYTES, QUOT, QUOT_VALUE, S_END_BYTES, T_END_BYTES,
};
use reference::{BadReference, Reference, UnescapeError};

// A digit of a range, less what is before the range's digits; or the other value.
fn digit_in(d: u64, low: u64, high: u64, less: u64, other: u64) -> u64
    requires { less ≤ low }
    ensures { result ≡ pick (within low high d) (d - less) other }
{
    if low <= d && d <= high {
        d - less
    } else {
        other
    }
}

// The value of a digit, or 16: with no branch, since the digits of a text follow no rule.
fn digit_of(b: u8) -> u64
    ensures { result ≡ digit b }
{
    let d = b as u64;
    let small = digit_in(d, 97, 102, 87, 16);
    let letter = digit_in(d, 65, 70, 55, small);
    digit_in(d, 48, 57, 48, letter)
}

// The digits of a base from a place on up to a `;`, of a reference that begins at another place.
fn digits_at(text: &[u8], from: usize, start: usize, base: u64) -> Option<Reference>
    requires { (from ≤ start) × (start ≤ length text.now) × (1 ≤ base) × (base ≤ 16) }
    ensures { result ≡ spelt (digits base) (start - from) (drop start text.now) }
{
    let mut acc: u64 = 0;
    for i in start..text.len() {
        let d = digit_of(text[i]);
        if d >= base {
            if text[i] != b';' || i == start {
                return None;
            }
            return Some(Reference {
                code: acc as u32,
                len: i - from + 1,
            });
        }
        acc = acc * base + d;
        if acc > 0xffff_ffff {
            return None;
        }
    }
    None
}

// Past a `+`, if one may stand there.
fn past_sign(strict: bool, text: &[u8], start: usize) -> usize
    requires { start ≤ length text.now }
    ensures { PastSign strict text.now start result }
{
    if !strict && start < text.len() && text[start] == b'+' {
        start + 1
    } else {
        start
    }
}

// The reference by number, from its `#` on.
fn numeric_at(strict: bool, text: &[u8], from: usize) -> Option<Reference>
    requires { (from < length text.now) × (get_or text.now from 0 ≡ hash) }
    ensures { result ≡ spelt (numeric (reader strict)) 0 (drop from text.now) }
{
    if from + 1 == text.len() {
        return None;
    }
    if text[from + 1] == b'x' {
        let hex = past_sign(strict, text, from + 2);
        return digits_at(text, from, hex, 16);
    }
    let start = past_sign(strict, text, from + 1);
    digits_at(text, from, start, 10)
}

// Whether XML allows a character.
fn is_xml_char(n: u32) -> bool
    ensures { result ≡ xml_char n }
{
    matches!(n, 9 | 10 | 13 | 0x20..=0xd7ff | 0xe000..=0xfffd | 0x10000..=0x10ffff)
}

fn is_allowed(strict: bool, n: u32) -> bool
    ensures { result ≡ allowed strict n }
{
    if strict {
        is_xml_char(n)
    } else {
        utf8::is_scalar(n)
    }
}

// A reference, if its character is allowed.
fn only_allowed(strict: bool, x: Option<Reference>) -> Option<Reference>
    ensures { result ≡ only_ref (allowed strict) x }
{
    match x {
        Some(r) if is_allowed(strict, r.code) => x,
        _ => None,
    }
}

// The reference by name that a few last bytes begin with.
fn named_last(rest: &[u8]) -> Option<Reference>
    ensures { result ≡ named_ref rest.now }
{
    if rest.starts_with(b"lt;") {
        Some(Reference { code: LT, len: 3 })
    } else if rest.starts_with(b"gt;") {
        Some(Reference { code: GT, len: 3 })
    } else if rest.starts_with(b"amp;") {
        Some(Reference { code: AMP, len: 4 })
    } else if rest.starts_with(b"quot;") {
        Some(Reference { code: QUOT, len: 5 })
    } else if rest.starts_with(b"apos;") {
        Some(Reference { code: APOS, len: 5 })
    } else {
        None
    }
}

// A value, if a number is another; or the other value.
fn when(w: u64, name: u64, value: u64, other: u64) -> u64
    ensures { result ≡ pick (eqb w name) value other }
{
    if w == name { value } else { other }
}

// The same, of two numbers.
fn when_both(w: u64, name: u64, v: u64, end: u64, value: u64, other: u64) -> u64
    ensures { result ≡ pick (pick (eqb w name) (eqb v end) false) value other }
{
    if w == name && v == end { value } else { other }
}

// The character and the length of a name as one number, its code and 256 times the length, or 0: with no branch, since the names of a text
// follow no rule. w is the first three bytes, b the fourth, v the fourth and the fifth, each as a number with its low byte first.
fn name_value(w: u64, b: u64, v: u64) -> u64
    ensures { result ≡ name_value w b v }
{
    let apos = when_both(w, APO_BYTES, v, S_END_BYTES, APOS_VALUE, 0);
    let quot = when_both(w, QUO_BYTES, v, T_END_BYTES, QUOT_VALUE, apos);
    let amp = when_both(w, AMP_BYTES, b, END_BYTE, AMP_VALUE, quot);
    let gt = when(w, GT_END_BYTES, GT_VALUE, amp);
    when(w, LT_END_BYTES, LT_VALUE, gt)
}

// The reference by name at a place, as one number.
fn name_at(text: &[u8], from: usize) -> u64
    requires { 5 ≤ length text.now - from }
    ensures { result ≡ packed (named_ref (drop from text.now)) }
{
    let w = text[from] as u64 + 256 * (text[from + 1] as u64 + 256 * text[from + 2] as u64);
    let b = text[from + 3] as u64;
    name_value(w, b, b + 256 * text[from + 4] as u64)
}

// The reference by name at a place.
fn named_at(text: &[u8], from: usize) -> Option<Reference>
    requires { from ≤ length text.now }
    ensures { result ≡ named_ref (drop from text.now) }
{
    if text.len() - from < 5 {
        return named_last(&text[from..]);
    }
    let r = name_at(text, from);
    if r == 0 {
        return None;
    }
    Some(Reference {
        code: (r % 256) as u32,
        len: (r / 256) as usize,
    })
}

// The reference whose bytes after `&` stand from a place on.
fn reference_from(strict: bool, text: &[u8], from: usize) -> Option<Reference>
    requires { from ≤ length text.now }
    ensures { result ≡ reference strict (drop from text.now) }
{
    if from == text.len() {
        return None;
    }
    if text[from] == b'#' {
        return only_allowed(strict, numeric_at(strict, text, from));
    }
    named_at(text, from)
}

// Whether each reference of a text is right, or the place of the first `&` that begins none. The next `&` is looked for from right after
// the last one, so that the search waits for no reference to be read.
pub fn validate_references(text: &[u8]) -> Result<(), BadReference>
    ensures { result ≡ validated text.now }
{
    let mut i = 0;
    let mut seek = 0;
    while i < text.len() {
        if text[i] == b'&' {
            let from = i + 1;
            let Some(r) = reference_from(true, text, from) else {
                return Err(BadReference { at: i });
            };
            seek = from;
            i = from + r.len;
        } else {
            i = slices::find(text, seek, b'&');
        }
    }
    Ok(())
}

// How many bytes a text comes to, or the place of the first `&` that begins no reference.
pub fn measure(text: &[u8]) -> Result<usize, BadReference>
    ensures { result ≡ size_of (unescaped text.now) }
{
    let mut size = 0;
    let mut i = 0;
    let mut seek = 0;
    while i < text.len() {
        if text[i] == b'&' {
            let from = i + 1;
            let Some(r) = reference_from(false, text, from) else {
                return Err(BadReference { at: i });
            };
            size += utf8::encoded_len(r.code);
            seek = from;
            i = from + r.len;
        } else {
            let next = slices::find(text, seek, b'&');
            size += next - i;
            i = next;
        }
    }
    Ok(size)
}

// Writes what a text comes to, for which there is room.
pub fn fill(text: &[u8], out: &mut [u8])
    requires { Room (unescaped text.now) (length out.old) }
    ensures { out.new ≡ filled (unescaped text.now) out.old }
{
    let mut n = 0;
    let mut i = 0;
    let mut seek = 0;
    while i < text.len() {
        if text[i] == b'&' {
            let from = i + 1;
            let r = reference_from(false, text, from).unwrap();
            n = utf8::put_char(out, n, r.code);
            seek = from;
            i = from + r.len;
        } else {
            let next = slices::find(text, seek, b'&');
            n = slices::put(out, n, &text[i..next]);
            i = next;
        }
    }
}

// Copies a text in which no `&` stands.
fn copy_plain(text: &[u8], out: &mut [u8]) -> Result<usize, UnescapeError>
    requires { NextAt text.now ampersand 0 (length text.now) }
    ensures { Unescape text.now out.old out.new result }
{
    if text.len() > out.len() {
        return Err(UnescapeError::NoRoom);
    }
    Ok(slices::put(out, 0, text))
}

// Measures first, so that a refusal has written nothing.
fn replace(text: &[u8], out: &mut [u8]) -> Result<usize, UnescapeError>
    ensures { Unescape text.now out.old out.new result }
{
    let n = measure(text)?;
    if n > out.len() {
        return Err(UnescapeError::NoRoom);
    }
    fill(text, out);
    Ok(n)
}

// Replaces each reference of a text by its character, into out.
pub fn unescape(text: &[u8], out: &mut [u8]) -> Result<usize, UnescapeError>
    ensures { Unescape text.now out.old out.new result }
{
    // No `&`, so there is nothing to replace: one pass less.
    if slices::find(text, 0, b'&') == text.len() {
        copy_plain(text, out)
    } else {
        replace(text, out)
    }
}
