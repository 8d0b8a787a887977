#![tactic(auto)]

ghost use Rattle.std.specs.Prelude.{◌≡◌, Decides, OnOk, IfOk};
ghost use Rattle.frames.specs.Contents.Content.{order, token};
ghost use Rattle.writing.specs.declared.WriteFault.TheVariants as refused;
ghost use Rattle.writing.specs.Parted.{drafted};
ghost use Rattle.writing.specs.Written.{write_row, content_fault, draft_fault, fault_of, Writes};
ghost use Rattle.writing.specs.Checked.{Faultless, Sound, LawfulDraft};

use frames::{Entry, FRAME_MAX, FrameFault, FrameKind, Plan, Refusal};

mod bytes;
mod checks;
mod counted;
mod walk;

use bytes::{write_entry, write_parts};
use checks::{check_contents, check_order};
use counted::Counted;

/// The bytes of an order frame before its entry.
const ORDER_HEAD: usize = 2;

/// The bytes of a token's head.
const HEAD: usize = 10;

/// Why contents were not written.
#[derive(Clone, Copy, Debug, PartialEq, Eq)]
pub enum WriteFault {
    /// The buffer has under 1,060 bytes.
    Short,
    /// The contents would not read back.
    Frame(FrameFault),
}

/// A token to be written.
/// Its decisions stand as all their entries beside their lengths, since the logs keep them in tables of fixed size.
#[derive(Clone, Copy, Debug, PartialEq, Eq)]
pub struct Draft<'a> {
    pub sender: u8,
    pub stamp: u32,
    pub votes: u8,
    pub proposal: &'a [Entry],
    pub lengths: &'a [u8],
    pub entries: &'a [Entry],
}

impl Refusal for WriteFault {
    ghost number = { write_row };

    fn row(&self) -> u8 {
        match *self {
            WriteFault::Short => 1,
            WriteFault::Frame(fault) => fault.row(),
        }
    }
}

impl From<FrameFault> for WriteFault {
    ghost from_gives = { λ fault e. e ≡ refused.Frame fault };

    fn from(fault: FrameFault) -> WriteFault {
        WriteFault::Frame(fault)
    }
}

/// Writes an order frame to the front of a buffer, and answers its length.
pub fn write_order(plan: &Plan, entry: &Entry, out: &mut [u8]) -> Result<usize, WriteFault>
    ensures { Writes plan.now (order entry.now) (content_fault plan.now (order entry.now)) out.old out.new result }
{
    if out.len() < FRAME_MAX {
        return Err(WriteFault::Short);
    }
    check_order(plan, entry)?;
    out[0] = FrameKind::Order as u8;
    out[1] = plan.byte();
    write_entry(out, ORDER_HEAD, entry);
    Ok(11)
}

/// The first fault of a draft: the place and the cause that its bytes would have. An `Option`, since it is a question
/// about a draft and refuses nothing; calls that refuse go by `check_draft`.
pub fn draft_fault(plan: &Plan, draft: &Draft) -> Option<FrameFault>
    ensures value { result ≡ draft_fault plan.now draft.now }
    ensures sound { Faultless result (Sound plan.now draft.now) }
{
    check_draft(plan, draft).err()
}

/// Whether a draft is a lawful token of the plan.
pub fn is_lawful(plan: &Plan, draft: &Draft) -> bool
    ensures { Decides result (LawfulDraft plan.now draft.now) }
{
    draft_fault(plan, draft).is_none()
}

/// Writes a token to the front of a buffer, and answers its length.
pub fn write_token(plan: &Plan, draft: &Draft, out: &mut [u8]) -> Result<usize, WriteFault>
    ensures { Writes plan.now (token (drafted draft.now)) (draft_fault plan.now draft.now) out.old out.new result }
{
    if out.len() < FRAME_MAX {
        return Err(WriteFault::Short);
    }
    let counted = check_draft(plan, draft)?;
    Ok(write_parts(out, plan, &counted))
}

/// Checks a draft's counts, and then the bytes that it would have.
fn check_draft<'a>(plan: &Plan, draft: &'a Draft<'a>) -> Result<Counted<'a>, FrameFault>
    ensures value { fault_of result ≡ draft_fault plan.now draft.now }
    ensures sound { OnOk result (Sound plan.now draft.now) }
    ensures same { IfOk result (λ c. c.draft.now ≡ draft.now) }
{
    let counted = Counted::of(draft)?;
    check_contents(plan, &counted)?;
    Ok(counted)
}
