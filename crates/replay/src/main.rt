// Replays recorded answers of the Rust against the proved functions. Standard input has an answer a line, as src/answer.rs says. The
// program says how many answers it replayed and how many differ, and names the first lines that differ or that are no recorded answer,
// so its output is the expected one only where all agree. A failed read is the end of the input, and the counts show that answers are
// missing; output that cannot be written is let go, and what is expected of it is missing too. The status is 0 in either case, and 1 where
// memory runs out, of which a longer input or a longer line takes no more. It rests on `unescape` and `falzheod`, and on the recording
// being the Rust's; that the input is read as it stands rests on the system's calls.
#![tactic(auto)]

mod answer;
mod drain;
mod field;
mod lent;
mod reading;
mod scalars;
mod text;

use answer::{Kind, LONGEST_LINE, Replayed};
use field::LineError;
use std::fmt;
use std::io::Read;

// So many lines are named, and no more.
const NAMED: u64 = 10;

// So much of the input is read before any of it is replayed.
const CHUNK: usize = 65536;

// Of a line no more is held than shows that it is too long.
const HELD: usize = LONGEST_LINE + 1;

/// The lines so far, by what came of them.
#[derive(Clone, Copy, Debug, Default)]
struct Tally {
    lines: u64,
    unescape: u64,
    validate: u64,
    drain: u64,
    reading: u64,
    differences: u64,
    malformed: u64,
}

impl Tally {
    // Names the last line and what is wrong with it, where few lines were named before.
    fn name(&self, rt: &impl Print, fault: &str) {
        if self.differences < NAMED && self.malformed < NAMED {
            // The line is counted all the same where it cannot be named.
            let _ = println!(rt; "line {}: {fault}", self.lines);
        }
    }

    fn count(&mut self, rt: &impl Print, replayed: Replayed) {
        let count = match replayed.kind {
            Kind::Unescape => &mut self.unescape,
            Kind::Validate => &mut self.validate,
            Kind::Drain => &mut self.drain,
            Kind::Reading => &mut self.reading,
        };
        *count = count.saturating_add(1);
        if !replayed.agrees {
            self.name(rt, "our answer is not the Rust's");
            self.differences = self.differences.saturating_add(1);
        }
    }

    fn count_malformed(&mut self, rt: &impl Print) {
        self.name(rt, "not a recorded answer");
        self.malformed = self.malformed.saturating_add(1);
    }

    // A line that is at its end.
    fn replay(&mut self, rt: &(impl Print + AllocGlobal), line: &[u8]) -> Result<(), LineError> {
        self.lines = self.lines.saturating_add(1);
        match answer::replay(rt.alloc(), line) {
            Ok(replayed) => self.count(rt, replayed),
            Err(LineError::NotRecorded) => self.count_malformed(rt),
            Err(LineError::OutOfMemory) => return Err(LineError::OutOfMemory),
        }
        Ok(())
    }
}

impl fmt::Display for Tally {
    fn fmt<W: fmt::Write>(&self, f: &mut fmt::Formatter<W>) -> fmt::Result {
        write!(
            f,
            "replayed {} unescape, {} validate, ",
            self.unescape, self.validate
        )?;
        write!(
            f,
            "{} drain and {} reading answers of the Rust: ",
            self.drain, self.reading
        )?;
        write!(f, "{} differences", self.differences)?;
        if self.malformed > 0 {
            write!(
                f,
                "\nlines that are not recorded answers: {}",
                self.malformed
            )?;
        }
        Ok(())
    }
}

// Holds more of a line, up to so much as shows that it is too long.
fn hold(line: &mut Vec<u8>, more: &[u8]) -> Result<(), LineError> {
    let room = HELD.saturating_sub(line.len());
    line.extend_from_slice(more.get(..room).unwrap_or(more))?;
    Ok(())
}

// Replays the lines that end in a chunk of the input, and holds what it has of the next one.
fn take_chunk(
    rt: &(impl Print + AllocGlobal),
    tally: &mut Tally,
    line: &mut Vec<u8>,
    chunk: &[u8],
) -> Result<(), LineError> {
    for piece in chunk.split_inclusive(|&b| b == b'\n') {
        match piece {
            [rest @ .., b'\n'] => {
                hold(line, rest)?;
                tally.replay(rt, line)?;
                line.clear();
            }
            rest => hold(line, rest)?,
        }
    }
    Ok(())
}

// The input is over where a chunk gets nothing of it. A failed read ends a chunk as the end of the input does, so what came before it is
// replayed.
fn main(rt: HostRuntime) -> anyhow::Result<()> {
    let mut input = rt.reader();
    let mut chunk = Vec::with_capacity(rt.alloc(), CHUNK)?;
    let mut line = Vec::with_capacity(rt.alloc(), HELD)?;
    let mut tally = Tally::default();
    for _ in 0..u64::MAX {
        chunk.clear();
        let _ = input.by_ref().take(CHUNK as u64).read_to_end(&mut chunk);
        if chunk.is_empty() {
            break;
        }
        take_chunk(&rt, &mut tally, &mut line, &chunk)?;
    }
    if !line.is_empty() {
        tally.replay(&rt, &line)?;
    }
    let _ = println!(rt; "{tally}");
    Ok(())
}
