ghost use Rattle.std.specs.Prelude.{◌≡◌, Some};
ghost use Rattle.lines.specs.declared.LineFault.TheVariants as line;
ghost use Rattle.inspect.specs.declared.texts.TextFault.TheVariants as fault;
ghost use Rattle.inspect.specs.Form.{text_row, digit_at, split_as, parted};
ghost use Rattle.inspect.specs.Means.{ReadsText};
ghost use Rattle.inspect.specs.Telling.{place_and_cause};

use frames::{Frame, FrameFault, Plan, PlanFault, Refusal};
use lines::{FRAME_ROOM, LineFault, digit_value, line_bytes};
use reading::read;
use std::fmt;

/// Why a text line holds no frame.
#[derive(Clone, Copy, Debug, PartialEq, Eq)]
pub(crate) enum TextFault {
    /// It does not begin with two digits and a space.
    Form { column: usize },
    /// The two digits are no plan's byte.
    Plan(PlanFault),
    /// What follows is no frame's line.
    Line(LineFault),
}

/// A text line by its parts.
#[derive(Clone, Copy, Debug, PartialEq, Eq)]
struct Split<'t> {
    byte: u8,
    line: &'t [u8],
}

impl Refusal for TextFault {
    ghost number = { text_row };

    fn row(&self) -> u8 {
        match *self {
            TextFault::Form { .. } => 8,
            TextFault::Plan(fault) => fault.row(),
            TextFault::Line(fault) => fault.row(),
        }
    }
}

/// The place of a fault, if it has one, and its cause.
impl fmt::Display for TextFault {
    ghost output = { λ e. Some (place_and_cause e) };

    fn fmt<W: fmt::Write>(&self, f: &mut fmt::Formatter<W>) -> fmt::Result {
        match *self {
            TextFault::Form { column } => write!(f, "column {column}, form"),
            TextFault::Plan(_) => write!(f, "plan"),
            TextFault::Line(fault) => write!(f, "{fault}"),
        }
    }
}

impl From<PlanFault> for TextFault {
    ghost from_gives = { λ e r. r ≡ fault.Plan e };

    fn from(fault: PlanFault) -> TextFault {
        TextFault::Plan(fault)
    }
}

impl From<LineFault> for TextFault {
    ghost from_gives = { λ e r. r ≡ fault.Line e };

    fn from(fault: LineFault) -> TextFault {
        TextFault::Line(fault)
    }
}

impl From<FrameFault> for TextFault {
    ghost from_gives = { λ e r. r ≡ fault.Line (line.Frame e) };

    fn from(fault: FrameFault) -> TextFault {
        TextFault::Line(LineFault::Frame(fault))
    }
}

/// The frame that a text line holds. Its bytes go to the buffer, from which it borrows.
pub(crate) fn read_text<'a>(
    text: &[u8],
    bytes: &'a mut [u8; FRAME_ROOM],
) -> Result<Frame<'a>, TextFault>
    ensures { ReadsText text.now result }
{
    let split = split_text(text)?;
    let plan = Plan::new(split.byte / 16, split.byte % 16)?;
    let n = line_bytes(split.line, bytes)?;
    Ok(read(&plan, &bytes[..n])?)
}

/// The parts of a text line: two digits, a space, and the rest.
fn split_text(text: &[u8]) -> Result<Split<'_>, TextFault>
    ensures { parted result ≡ split_as text.now }
{
    let high = digit_at(text, 0)?;
    let low = digit_at(text, 1)?;
    let [_, _, b' ', line @ ..] = text else {
        return Err(TextFault::Form { column: 2 });
    };
    Ok(Split {
        byte: 16 * high + low,
        line,
    })
}

/// The value of the digit at a column.
fn digit_at(text: &[u8], column: usize) -> Result<u8, TextFault>
    ensures { result ≡ digit_at text.now column }
{
    let character = text.get(column).ok_or(TextFault::Form { column })?;
    digit_value(*character).ok_or(TextFault::Form { column })
}
