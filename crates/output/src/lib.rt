// What the readings write: entries, six numbers each, into one lent buffer, and texts into another. What is written is defined in
// `readings` (Output.antt, Structure.antt); each method refuses where the definition has no room, and then leaves both buffers as they
// were. The crate rests on `document` for the texts and pieces of a body, on `slices` for a copy, and on `refusal` for numbers.
#![tactic(auto)]

ghost use Rattle.std.specs.Prelude.{◌≡◌, ◌+◌, ◌*◌, ◌/◌, ◌^◌, ◌≤◌, ◌<◌, length};
ghost use Rattle.std.proofs.lemmas.List.Edits.{sets};
ghost use Rattle.output.specs.Kept.{flat, Inside};
ghost use Rattle.output.specs.Plans.{put_entry, put_piece, put_failed, put_measured, put_text, put_scalar};
ghost use Rattle.output.specs.Plans.{put_key_text, put_key_piece, put_group};
ghost use Rattle.readings.specs.Output.{six_numbers};
ghost use Rattle.output.specs.Entry.{entry_of};
ghost use Rattle.output.specs.Held.{Begun, Does, Enters, PlaceFor, Pushed, Fits, has_entry};

pub mod entry;
pub mod kept;

use crate::entry::{Entry, Kind};
use crate::kept::{Kept, flat_len, put_flat};
use document::part::{Measured, Piece, Text};
use refusal::Refusal;

// Places in the text buffer are told as 32-bit numbers, so no more of it is written. No body comes to so many bytes of text.
const MOST: usize = 0xffff_ffff;

// Stores the six numbers of an entry, one by one: a copy of all would read them right after they are written, and wait.
fn store(entries: &mut [u32], k: usize, entry: Entry)
    requires { k * 6 + 6 ≤ length entries.old }
    ensures { entries.new ≡ sets entries.old (k * 6) (six_numbers (entry_of entry)) }
{
    let at = k * 6;
    let numbers = entry.numbers();
    entries[at] = numbers[0];
    entries[at + 1] = numbers[1];
    entries[at + 2] = numbers[2];
    entries[at + 3] = numbers[3];
    entries[at + 4] = numbers[4];
    entries[at + 5] = numbers[5];
}

// The two lent buffers, and how much of them is written: how many entries, and how many text bytes.
#[derive(Drop)]
pub struct Output<'a> {
    pub entries: &'a mut [u32],
    pub texts: &'a mut [u8],
    pub count: usize,
    pub used: usize,
}

impl<'a> Output<'a> {
    // Nothing is written yet.
    pub fn new(entries: &'a mut [u32], texts: &'a mut [u8]) -> Output<'a>
        ensures { Begun entries.entry texts.entry result }
    {
        Output {
            entries,
            texts,
            count: 0,
            used: 0,
        }
    }

    // Whether there is room for an entry more.
    fn has_entry(&self) -> bool
        ensures { result ≡ has_entry self.now }
    {
        self.count < self.entries.len() / 6
    }

    // Tests the room for an entry with so many bytes of text, and answers where these begin.
    fn place(&self, len: usize) -> Result<u32, Refusal>
        ensures { PlaceFor self.now len result }
    {
        let room = self.texts.len().min(MOST);
        if self.has_entry() && self.used <= room && len <= room - self.used {
            return Ok(self.used as u32);
        }
        Err(Refusal::NoRoom)
    }

    // Stores an entry, and counts it.
    fn enter(&mut self, entry: Entry)
        requires { self.old.count < length self.old.entries.now / 6 }
        ensures { Pushed entry 0 self.old self.new }
    {
        store(self.entries, self.count, entry);
        self.count += 1;
    }

    // And counts its bytes of text.
    fn push(&mut self, entry: Entry, len: usize)
        requires { Fits self.old len }
        ensures { Pushed entry len self.old self.new }
    {
        self.enter(entry);
        self.used += len;
    }

    // An entry without text: it needs room for itself alone, whatever texts there are.
    fn write_entry(&mut self, entry: Entry) -> Result<(), Refusal>
        ensures does { Does (put_entry entry) self.old self.new result }
        ensures enters { Enters (put_entry entry) self.old self.new result }
    {
        if !self.has_entry() {
            return Err(Refusal::NoRoom);
        }
        self.enter(entry);
        Ok(())
    }

    // A piece of the body, for a member.
    pub fn write_piece(&mut self, member: u32, piece: Piece) -> Result<(), Refusal>
        ensures does { Does (put_piece member piece) self.old self.new result }
        ensures enters { Enters (put_piece member piece) self.old self.new result }
    {
        let entry = Entry::keyless(Kind::Piece, member, piece.start, piece.len);
        self.write_entry(entry)
    }

    // A text that failed, for a member: the refusal's number, and the place beside it.
    pub fn write_failed(&mut self, member: u32, why: Refusal) -> Result<(), Refusal>
        ensures does { Does (put_failed member why) self.old self.new result }
        ensures enters { Enters (put_failed member why) self.old self.new result }
    {
        let entry = Entry::keyless(Kind::Failed, member, why.number(), why.place());
        self.write_entry(entry)
    }

    // A text that was measured, for a member.
    fn write_measured(&mut self, member: u32, text: Measured) -> Result<(), Refusal>
        ensures { Does (put_measured member text.entry) self.old self.new result }
    {
        let start = self.place(text.len)?;
        text.fill(&mut self.texts[self.used..]);
        self.push(
            Entry::keyless(Kind::Text, member, start, text.len as u32),
            text.len,
        );
        Ok(())
    }

    // A text, for a member, or 7: an item of a string list. 7 comes before 10.
    pub fn write_text(&mut self, member: u32, text: Text) -> Result<(), Refusal>
        ensures { Does (put_text member text.entry) self.old self.new result }
    {
        let measured = text.measure()?;
        self.write_measured(member, measured)
    }

    // A text, for a member, or an entry that says why there is none: a scalar of a structure.
    pub fn write_scalar(&mut self, member: u32, text: Result<Text, Refusal>) -> Result<(), Refusal>
        ensures { Does (put_scalar member text.entry) self.old self.new result }
    {
        match text.and_then(Text::measure) {
            Ok(measured) => self.write_measured(member, measured),
            Err(why) => self.write_failed(member, why),
        }
    }

    // A map entry: the key, and a piece as its value.
    pub fn write_key_piece(&mut self, key: Measured, piece: Piece) -> Result<(), Refusal>
        ensures { Does (put_key_piece key.entry piece) self.old self.new result }
    {
        let start = self.place(key.len)?;
        key.fill(&mut self.texts[self.used..]);
        let entry = Entry {
            kind: Kind::Piece,
            member: 0,
            key_start: start,
            key_len: key.len as u32,
            start: piece.start,
            len: piece.len,
        };
        self.push(entry, key.len);
        Ok(())
    }

    // A map entry: the key, then the value. Room is tested for both together.
    pub fn write_key_text(&mut self, key: Measured, value: Measured) -> Result<(), Refusal>
        ensures { Does (put_key_text key.entry value.entry) self.old self.new result }
    {
        let both = key.len + value.len;
        let start = self.place(both)?;
        key.fill(&mut self.texts[self.used..]);
        let at = self.used + key.len;
        value.fill(&mut self.texts[at..]);
        let entry = Entry {
            kind: Kind::Text,
            member: 0,
            key_start: start,
            key_len: key.len as u32,
            start: at as u32,
            len: value.len as u32,
        };
        self.push(entry, both);
        Ok(())
    }

    // The group of a member: measured first, then copied once.
    pub fn write_group(&mut self, body: &[u8], kept: &[Kept], member: u32) -> Result<(), Refusal>
        requires inside { Inside body.now kept.now }
        requires kept_len_bound { length kept.now < 2 ^ 32 }
        ensures { Does (put_group member (flat body.now kept.now member)) self.old self.new result }
    {
        let len = flat_len(kept, member);
        let start = self.place(len)?; // the groups before it stay written
        put_flat(body, kept, member, self.texts, self.used);
        self.push(Entry::keyless(Kind::Group, member, start, len as u32), len);
        Ok(())
    }
}
