#![tactic(auto)]

ghost use Rattle.std.specs.Prelude.{◌≡◌, ◌+◌, ◌*◌, ◌/◌, ◌<◌, ◌≤◌, ◌++◌, length, take, drop, Some};
ghost use Rattle.std.specs.Result.{result_err};
ghost use Rattle.frames.specs.Reading.{read_as};
ghost use Rattle.lines.specs.Digits.{digit_of, digit_value, value_of, two_digits, line_of, bytes_in, digits_end};
ghost use Rattle.lines.specs.declared.LineFault.TheVariants as fault;
ghost use Rattle.lines.specs.Rows.{line_row, line_fault_words};
ghost use Rattle.lines.specs.Reads.{line_fault, refused_or};
ghost use Rattle.lines.specs.Calls.{frame_fault, write_fault, bytes_fault, read_fault, kept_or, WroteLine, ReadBytes, ReadFrame};
ghost use Rattle.lines.specs.Tested.{Framed, Writable, Readable, FrameReadable};
ghost use Rattle.lines.specs.Laws.{LineReadsBack, LineWritesBack, OneLine, ContentsHaveLine, OneLineForContents};
ghost use Rattle.lines.specs.Examples.{WorkedLines};

use frames::{FRAME_MAX, FrameFault, Plan, Refusal};
use reading::read;
use std::fmt;

/// The bytes of the longest frame.
pub const FRAME_ROOM: usize = FRAME_MAX;

/// The characters of the longest frame's line.
pub const LINE_ROOM: usize = 2 * FRAME_ROOM;

/// Why a line is not written or not read.
#[derive(Clone, Copy, Debug, PartialEq, Eq)]
pub enum LineFault {
    /// The buffer has no room for the longest frame, or its line.
    Short,
    /// The line is empty, odd, too long or has a character that is no digit.
    Line { column: usize },
    /// The bytes are no frame of the plan.
    Frame(FrameFault),
}

impl Refusal for LineFault {
    ghost number = { line_row };

    fn row(&self) -> u8 {
        match *self {
            LineFault::Short => 1,
            LineFault::Line { .. } => 8,
            LineFault::Frame(frame_fault) => frame_fault.row(),
        }
    }
}

impl From<FrameFault> for LineFault {
    ghost from_gives = { λ e r. r ≡ fault.Frame e };

    fn from(fault: FrameFault) -> LineFault {
        LineFault::Frame(fault)
    }
}

impl fmt::Display for LineFault {
    ghost output = { λ e. Some (line_fault_words e) };

    fn fmt<W: fmt::Write>(&self, f: &mut fmt::Formatter<W>) -> fmt::Result {
        match *self {
            LineFault::Short => write!(f, "short"),
            LineFault::Line { column } => write!(f, "column {column}, line"),
            LineFault::Frame(frame_fault) => write!(f, "{frame_fault}"),
        }
    }
}

/// The two digits of a byte, the higher first.
pub fn two_digits(byte: u8) -> [u8; 2]
    ensures { result ≡ two_digits byte }
{
    [digit(byte / 16), digit(byte % 16)]
}

/// The digit of a value of 0 to 15.
fn digit(value: u8) -> u8
    requires { value < 16 }
    ensures { result ≡ digit_of value }
{
    if value < 10 {
        b'0' + value
    } else {
        b'A' - 10 + value
    }
}

/// The value of a character that is a digit, 0-9 or A-F; the library's digits take small letters too.
pub fn digit_value(character: u8) -> Option<u8>
    ensures { result ≡ digit_value character }
{
    match character {
        b'0'..=b'9' => Some(character - b'0'),
        b'A'..=b'F' => Some(character - b'A' + 10),
        _ => None,
    }
}

/// Writes the line of a frame of the plan to the front of a buffer, and answers the line's length.
#[tactic(auto, using(crate::proofs::Back::reads_back, crate::proofs::Back::have_line))]
pub fn write_line(plan: &Plan, bytes: &[u8], out: &mut [u8]) -> Result<usize, LineFault>
    ensures answer { result ≡ refused_or (write_fault plan.now bytes.now (length out.old)) (2 * length bytes.now) }
    ensures buffer { out.new ≡ kept_or (write_fault plan.now bytes.now (length out.old)) out.old (line_of bytes.now ++ drop (2 * length bytes.now) out.old) }
    ensures wrote { WroteLine bytes.now result out.new }
    ensures back { LineReadsBack }
    ensures each { ContentsHaveLine }
{
    check_write(plan, bytes, out.len())?;
    put_line(bytes, out);
    Ok(2 * bytes.len())
}

/// Reads a line to the front of a buffer, and answers how many bytes it holds.
pub fn line_bytes(line: &[u8], out: &mut [u8]) -> Result<usize, LineFault>
    ensures answer { result ≡ refused_or (bytes_fault line.now (length out.old)) (length line.now / 2) }
    ensures buffer { out.new ≡ kept_or (bytes_fault line.now (length out.old)) out.old (bytes_in line.now ++ drop (length line.now / 2) out.old) }
    ensures bytes { ReadBytes line.now result out.new }
    ensures back { LineWritesBack }
    ensures alone { OneLine }
{
    check_bytes(line, out.len())?;
    put_bytes(line, out);
    Ok(line.len() / 2)
}

/// Reads the line of a frame of the plan to the front of a buffer, and answers the frame's length.
pub fn read_line(plan: &Plan, line: &[u8], out: &mut [u8]) -> Result<usize, LineFault>
    ensures answer { result ≡ refused_or (read_fault plan.now line.now (length out.old)) (length line.now / 2) }
    ensures buffer { out.new ≡ kept_or (read_fault plan.now line.now (length out.old)) out.old (bytes_in line.now ++ drop (length line.now / 2) out.old) }
    ensures bytes { ReadBytes line.now result out.new }
    ensures frame { ReadFrame plan.now line.now result out.new }
    ensures alone { OneLineForContents }
    ensures worked { WorkedLines }
{
    check_read(plan, line, out.len())?;
    put_bytes(line, out);
    Ok(line.len() / 2)
}

/// Whether a frame's line is written to a buffer of this length.
fn check_write(plan: &Plan, bytes: &[u8], room: usize) -> Result<(), LineFault>
    ensures fault { result_err result ≡ write_fault plan.now bytes.now room }
    ensures tested { Writable bytes.now room result }
{
    if room < LINE_ROOM {
        return Err(LineFault::Short);
    }
    check_frame(plan, bytes)
}

/// Whether a line is read to a buffer of this length.
#[tactic(auto, using(crate::proofs::Faults::readable))]
fn check_bytes(line: &[u8], room: usize) -> Result<(), LineFault>
    ensures fault { result_err result ≡ bytes_fault line.now room }
    ensures tested { Readable line.now room result }
{
    if room < FRAME_ROOM {
        return Err(LineFault::Short);
    }
    check_line(line)
}

/// Whether the line of a frame of the plan is read to a buffer of this length.
fn check_read(plan: &Plan, line: &[u8], room: usize) -> Result<(), LineFault>
    ensures fault { result_err result ≡ read_fault plan.now line.now room }
    ensures tested { FrameReadable plan.now line.now room result }
{
    check_bytes(line, room)?;
    let mut bytes = [0; FRAME_ROOM];
    put_bytes(line, &mut bytes);
    check_frame(plan, &bytes[..line.len() / 2])
}

/// Whether bytes are a frame of the plan.
fn check_frame(plan: &Plan, bytes: &[u8]) -> Result<(), LineFault>
    ensures fault { result_err result ≡ frame_fault (read_as plan.now bytes.now) }
    ensures tested { Framed bytes.now result }
{
    read(plan, bytes)?;
    Ok(())
}

/// Whether a line is neither empty, odd nor too long and has digits alone; its fault is at the column where they end.
fn check_line(line: &[u8]) -> Result<(), LineFault>
    ensures { result_err result ≡ line_fault line.now }
{
    let column = digits_end(line);
    if column < line.len() || line.is_empty() || line.len() % 2 == 1 || line.len() > LINE_ROOM {
        return Err(LineFault::Line { column });
    }
    Ok(())
}

/// How many characters are digits, up to the first that is none.
fn digits_end(line: &[u8]) -> usize
    ensures { result ≡ digits_end line.now }
{
    line.iter()
        .position(|character| digit_value(*character).is_none())
        .unwrap_or(line.len())
}

/// Writes the digits of bytes to the front of a buffer that has room for them.
fn put_line(bytes: &[u8], out: &mut [u8])
    requires { 2 * length bytes.now ≤ length out.old }
    ensures buffer { out.new ≡ line_of bytes.now ++ drop (2 * length bytes.now) out.old }
    ensures front { take (2 * length bytes.now) out.new ≡ line_of bytes.now }
{
    // by their places, since of a slice written through `chunks_exact_mut` only the length is known afterwards
    for (i, byte) in bytes.iter().enumerate() {
        let [high, low] = two_digits(*byte);
        out[2 * i] = high;
        out[2 * i + 1] = low;
    }
}

/// Writes the bytes of digits to the front of a buffer that has room for them.
fn put_bytes(line: &[u8], out: &mut [u8])
    requires { length line.now / 2 ≤ length out.old }
    ensures buffer { out.new ≡ bytes_in line.now ++ drop (length line.now / 2) out.old }
    ensures front { take (length line.now / 2) out.new ≡ bytes_in line.now }
{
    // by their places, as in `put_line`
    let (pairs, _) = line.as_chunks::<2>();
    for (i, [high, low]) in pairs.iter().enumerate() {
        out[i] = 16 * value(*high) + value(*low);
    }
}

/// The value of a digit, and 0 for another character.
fn value(character: u8) -> u8
    ensures is { result ≡ value_of character }
    ensures small { result < 16 }
{
    digit_value(character).unwrap_or(0)
}
