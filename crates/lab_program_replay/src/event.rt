//! The events of a replay, read from their text.
ghost use Rattle.std.specs.Prelude.{◌≡◌, ℕ, ◌+◌, ◌^◌, ◌<◌, ◌≤◌, ◌==◌, nat_le, Some, IfSome, IfOk, IfErr, length, take, option_map};
ghost use Rattle.std.specs.List.{position, range_with_len};
ghost use Rattle.std.specs.Io.KnownBytes.{Consumes, IsAtEnd};
ghost use Rattle.lab_forms_texts.specs.Moment.{is_moment};
ghost use Rattle.lab_program_replay.specs.Event.{cut_at, number_where, lab_code, last_first_word, most_line, numbered, founding_of, heading_of, next_event};
ghost use Rattle.lab_program_replay.specs.Fault.{IsInputFault};
ghost use Rattle.lab_program_replay.specs.Private.Reading.{GivesReading, TakesAtMost, TakesByte, TakesBytes, TakesLine, heading_said};
ghost use Rattle.lab_program_replay.specs.Reading.{TakesNext};

use crate::fault::ReplayFault;
use lab_desk::Event;
use lab_desk_foundings::BODY_LIMIT;
use lab_forms_texts::{LabCode, Moment, OutOfMemory, Series, Tick};
use std::alloc::Global;
use std::io;
use std::io::{BufRead, Read};

/// The greatest first word, seven below the greatest word.
const LAST_FIRST_WORD: u64 = u64::MAX - 7;

/// The most bytes of an event: those of a founding's body.
const MOST_BYTES: u64 = BODY_LIMIT as u64;

/// The most bytes of an event's line before its line feed. Leading zeros may be many, and memory is
/// bounded.
const MOST_LINE: usize = 1_000;

/// What the line of an event says. It isn't printed, because tokens are made of its words.
#[derive(Drop)]
struct Heading {
    /// The laboratory that is founded; `None` for a call.
    founded: Option<LabCode>,
    /// The moment, and the random words.
    tick: Tick,
    /// How many bytes follow the line.
    length: usize,
}

impl Heading {
    ghost use Rattle.lab_program_replay.specs.Reading.{event_said};

    // The event, with its bytes.
    fn event(self, bytes: Vec<u8>) -> Event
        ensures { event_said result
            ≡ record {
              founded = self.founded;
              moment = self.tick.moment;
              words = self.tick.words;
              bytes = bytes.items;
            } }
    {
        let tick = self.tick;
        let bytes = Series::from_vec(bytes);
        match self.founded {
            Some(lab) => Event::Found {
                lab,
                tick,
                body: bytes,
            },
            None => Event::Call { tick, bytes },
        }
    }
}

// The place of the first such byte.
fn place_of(text: &[u8], byte: u8) -> Option<usize>
    ensures { result ≡ position (λ b. b == byte) text.now }
{
    text.iter().position(|b| *b == byte)
}

// The text before the first such byte, and the text after it.
fn parts_cut(text: &[u8], byte: u8) -> Option<(&[u8], &[u8])>
    ensures { option_map (λ parts. (parts.0.now, parts.1.now)) result ≡ cut_at byte text.now }
{
    let at = place_of(text, byte)?;
    Some((&text[..at], &text[at + 1..]))
}

// The number that decimal digits write, if it isn't above a greatest number.
fn number(text: &[u8], most: u64) -> Option<u64>
    ensures value { result ≡ number_where (λ n. nat_le n most) text.now }
    ensures within { IfSome result (λ n. n ≤ most) }
{
    if text.is_empty() {
        return None;
    }
    let mut value = 0u64;
    for byte in text {
        if !byte.is_ascii_digit() {
            return None;
        }
        value = value.checked_mul(10)?.checked_add(u64::from(*byte - b'0'))?;
    }
    (value <= most).then_some(value)
}

// The moment this many seconds after 1970.
fn moment(text: &[u8]) -> Option<Moment>
    ensures { result ≡ number_where is_moment text.now }
{
    let seconds = number(text, i64::MAX as u64)?;
    Moment::from_seconds(seconds as i64).ok()
}

// Eight words that follow one another.
fn words_from(first: u64) -> [u64; 8]
    requires { first ≤ last_first_word }
    ensures { result ≡ range_with_len first 8 }
{
    [
        first,
        first + 1,
        first + 2,
        first + 3,
        first + 4,
        first + 5,
        first + 6,
        first + 7,
    ]
}

// A laboratory's code.
fn lab(alloc: Global, text: &[u8]) -> Result<LabCode, ReplayFault>
    ensures { GivesReading (λ code. code) result (lab_code text.now) }
{
    let Ok(text) = str::from_utf8(text) else {
        return Err(ReplayFault::BadEvent);
    };
    Ok(LabCode::parse(alloc, text)?)
}

// The numbers at the end of a line.
#[tactic(auto, unfolding(crate::specs::Event::numbered))]
fn heading_numbered(founded: Option<LabCode>, text: &[u8]) -> Option<Heading>
    ensures { option_map heading_said result ≡ numbered founded text.now }
{
    let (seconds, text) = parts_cut(text, b' ')?;
    let (word, length) = parts_cut(text, b' ')?;
    let moment = moment(seconds)?;
    let words = words_from(number(word, LAST_FIRST_WORD)?);
    let length = number(length, MOST_BYTES)? as usize;
    let tick = Tick { moment, words };
    Some(Heading {
        founded,
        tick,
        length,
    })
}

// The line of a founding, from the laboratory on.
#[tactic(auto, unfolding(crate::specs::Event::founding_of))]
fn heading_of_founding(alloc: Global, text: &[u8]) -> Result<Heading, ReplayFault>
    ensures { GivesReading heading_said result (founding_of text.now) }
{
    let (code, text) = parts_cut(text, b' ').ok_or(ReplayFault::BadEvent)?;
    let code = lab(alloc, code)?;
    heading_numbered(Some(code), text).ok_or(ReplayFault::BadEvent)
}

// What a line says, without its line feed.
#[tactic(auto, unfolding(crate::specs::Event::heading_of))]
fn heading_of_line(alloc: Global, line: &[u8]) -> Result<Heading, ReplayFault>
    ensures { GivesReading heading_said result (heading_of line.now) }
{
    let (kind, text) = parts_cut(line, b' ').ok_or(ReplayFault::BadEvent)?;
    if kind == b"found".as_slice() {
        heading_of_founding(alloc, text)
    } else if kind == b"call".as_slice() {
        heading_numbered(None, text).ok_or(ReplayFault::BadEvent)
    } else {
        Err(ReplayFault::BadEvent)
    }
}

// Reads until the buffer is full or the input ends, and returns how many bytes were read.
fn fill<R: Read>(reader: &mut R, buffer: &mut [u8]) -> io::Result<usize>
    ensures within { IfOk result (λ n. n ≤ length buffer.new) }
    ensures taken { IfOk result
        (λ n. Consumes (R.remaining reader.old) (R.remaining reader.new) (take n buffer.new)) }
    ensures end { IfOk result (λ n. n < length buffer.new → IsAtEnd (R.remaining reader.new)) }
{
    let mut filled = 0;
    while filled < buffer.len() {
        let read = reader.read(&mut buffer[filled..])?;
        if read == 0 {
            break;
        }
        filled += read;
    }
    Ok(filled)
}

// The given number of bytes from the front of the input. If there are fewer, they aren't an event.
fn bytes<R: Read>(alloc: Global, reader: &mut R, count: usize) -> Result<Vec<u8>, ReplayFault>
    ensures taken { IfSome (R.remaining reader.old)
        (λ input. TakesBytes count input (R.remaining reader.new) result) }
    ensures fault { IfErr result IsInputFault }
{
    let mut bytes = vec![in alloc; 0u8; count]?;
    let read = fill(reader, &mut bytes)?;
    if read < count {
        return Err(ReplayFault::BadEvent);
    }
    Ok(bytes)
}

// Takes the next byte from the input; `None` at its end.
fn byte<R: Read>(reader: &mut R) -> Result<Option<u8>, ReplayFault>
    ensures taken { IfSome (R.remaining reader.old)
        (λ input. TakesByte input (R.remaining reader.new) result) }
    ensures fault { IfErr result IsInputFault }
{
    let mut byte = [0u8];
    if reader.read(&mut byte)? == 0 {
        return Ok(None);
    }
    Ok(Some(byte[0]))
}

// Takes the next line from the input, without its line feed; `None` at the input's end. A text
// without a line feed within a line's length isn't a line, and no more of the input is taken.
fn line<B: BufRead>(alloc: Global, reader: &mut B) -> Result<Option<Vec<u8>>, ReplayFault>
    ensures taken { IfSome (B.remaining reader.old)
        (λ input. TakesLine input (B.remaining reader.new) result) }
    ensures fault { IfErr result IsInputFault }
    ensures bounded { TakesAtMost (most_line + 1)
        (B.remaining reader.old) (B.remaining reader.new) }
{
    let mut line = Vec::new(alloc);
    while line.len() <= MOST_LINE {
        match byte(reader)? {
            None if line.is_empty() => return Ok(None),
            None => return Err(ReplayFault::BadEvent),
            Some(b'\n') => return Ok(Some(line)),
            Some(byte) => line.push(byte).map_err(OutOfMemory::from)?,
        }
    }
    Err(ReplayFault::BadEvent)
}

/// Takes the next event from the input. Returns `None` at its end.
///
/// # Errors
/// What comes next isn't an event, the input failed, or memory ran out.
pub fn next_event<B: BufRead>(alloc: Global, reader: &mut B) -> Result<Option<Event>, ReplayFault>
    ensures taken { IfSome (B.remaining reader.old)
        (λ input. TakesNext (next_event input) (B.remaining reader.new) result) }
    ensures fault { IfErr result IsInputFault }
{
    let Some(line) = line(alloc, reader)? else {
        return Ok(None);
    };
    let heading = heading_of_line(alloc, &line)?;
    let bytes = bytes(alloc, reader, heading.length)?;
    Ok(Some(heading.event(bytes)))
}
