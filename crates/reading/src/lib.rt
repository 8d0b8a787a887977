#![tactic(auto)]

ghost use Rattle.std.specs.Prelude.{◌≡◌, ◌≤◌, length};
ghost use Rattle.frames.specs.Reading.{out_of_range, bad_round, bad_votes, bad_proposed, bad_decided, read_as, order_as, token_as};
ghost use Rattle.reading.specs.Walking.{Started, byte_as};
ghost use Rattle.frames.specs.Laws.{OneWriting};
ghost use Rattle.frames.specs.declared.Cause.TheVariants as cause;
ghost use Rattle.frames.specs.Views.{viewed, shown_as, ShowsLawful};

use frames::{Cause, Frame, FrameFault, FrameKind, Plan};

mod head;
mod ids;
mod reader;

pub use head::Head;
pub use ids::FrameIds;
use reader::Reader;

/// Reads a frame for a plan, from the front, up to the first byte at fault.
/// What is read are lawful contents, and the bytes are just what those are written as: no other bytes read as them.
pub fn read<'a>(plan: &Plan, bytes: &'a [u8]) -> Result<Frame<'a>, FrameFault>
    ensures answer { viewed result ≡ shown_as (read_as plan.now bytes.now) }
    ensures lawful { ShowsLawful plan.now bytes.now result }
    ensures alone { OneWriting }
{
    read_kind(plan, bytes)
}

/// A fault of a frame, at a place.
pub fn fault_at(place: usize, cause: Cause) -> FrameFault
    ensures place { result.place ≡ place }
    ensures cause { result.cause ≡ cause }
{
    FrameFault { place, cause }
}

/// Reads by the kind byte; `read` says more of the same answer.
fn read_kind<'a>(plan: &Plan, bytes: &'a [u8]) -> Result<Frame<'a>, FrameFault>
    ensures { viewed result ≡ shown_as (read_as plan.now bytes.now) }
{
    match read_start(plan, bytes)? {
        FrameKind::Order => read_order(plan, bytes),
        FrameKind::Token => read_token(plan, bytes),
    }
}

/// The kind of a frame, whose second byte is the plan's.
fn read_start(plan: &Plan, bytes: &[u8]) -> Result<FrameKind, FrameFault>
    ensures { Started plan.now bytes.now result }
{
    let kind_byte = byte_at(bytes, 0)?;
    let kind = FrameKind::try_from(kind_byte).map_err(|cause| fault_at(0, cause))?;
    let plan_byte = byte_at(bytes, 1)?;
    if plan_byte != plan.byte() {
        return Err(fault_at(1, Cause::Plan));
    }
    Ok(kind)
}

/// The byte at a place of a frame, which may end before.
fn byte_at(bytes: &[u8], place: usize) -> Result<u8, FrameFault>
    ensures { result ≡ byte_as bytes.now place }
{
    bytes.get(place).copied().ok_or(ends_early(bytes))
}

/// The fault of a frame that ends before a byte that is wanted.
fn ends_early(bytes: &[u8]) -> FrameFault
    ensures place { result.place ≡ length bytes.now }
    ensures cause { result.cause ≡ cause.Length }
{
    fault_at(bytes.len(), Cause::Length)
}

/// Reads an order frame whose kind and plan byte are right.
fn read_order<'a>(plan: &Plan, bytes: &'a [u8]) -> Result<Frame<'a>, FrameFault>
    requires { 2 ≤ length bytes.now }
    ensures { viewed result ≡ shown_as (order_as plan.now bytes.now) }
{
    let mut reader = Reader::new(plan, bytes, 2);
    reader.entries(1)?;
    reader.end()?;
    Ok(Frame::Order { entry: &bytes[2..] })
}

/// Reads a token whose kind and plan byte are right. The pattern of its head is the format as it is written.
fn read_token<'a>(plan: &Plan, bytes: &'a [u8]) -> Result<Frame<'a>, FrameFault>
    ensures { viewed result ≡ shown_as (token_as plan.now bytes.now) }
{
    Head::of(bytes).test(plan, bytes.len())?;
    let [
        kind,
        plan_byte,
        sender,
        r3,
        r2,
        r1,
        r0,
        votes,
        proposed,
        decided,
        rest @ ..,
    ] = bytes
    else {
        return Err(ends_early(bytes));
    };
    let stamp = u32::from_be_bytes([*r3, *r2, *r1, *r0]);
    let mut reader = Reader::new(plan, bytes, 10);
    reader.entries(*proposed)?;
    let middle = reader.at;
    reader.decisions(*decided)?;
    reader.end()?;
    let (proposal, decisions) = rest.split_at(middle - 10);
    Ok(Frame::Token {
        sender: *sender,
        stamp,
        votes: *votes,
        proposal,
        decided: *decided,
        decisions,
    })
}

/// Whether a token's round, told by its stamp, is out of range or not one of this sender's.
pub fn bad_round(plan: &Plan, sender: u8, stamp: u32) -> bool
    ensures { result ≡ bad_round plan.now sender stamp }
{
    if stamp > 1_000_000 {
        return true;
    }
    if stamp == 0 {
        return (sender as u16 + plan.tolerance() as u16) < plan.boxes() as u16;
    }
    (stamp - 1) % plan.boxes() as u32 != sender as u32
}

/// Whether a token's votes are not 1 to f, or a dummy's not 0.
pub fn bad_votes(plan: &Plan, stamp: u32, votes: u8) -> bool
    ensures { result ≡ bad_votes plan.now stamp votes }
{
    if stamp == 0 {
        return votes > 0;
    }
    votes < 1 || votes > plan.tolerance()
}

/// Whether this many entries may not be proposed: some by a dummy, none with votes above 1.
pub fn bad_proposed(stamp: u32, votes: u8, proposed: usize) -> bool
    ensures { result ≡ bad_proposed stamp votes proposed }
{
    if stamp == 0 {
        return proposed > 0;
    }
    votes > 1 && proposed == 0
}

/// Whether this many decisions may not stand in a token: some in a dummy.
pub fn bad_decided(stamp: u32, decided: usize) -> bool
    ensures { result ≡ bad_decided stamp decided }
{
    stamp == 0 && decided > 0
}

/// Whether an id is none of the plan's: its box is n or above, or its serial is 0.
pub fn out_of_range(plan: &Plan, id: u8) -> bool
    ensures { result ≡ out_of_range plan.now id }
{
    id / 16 >= plan.boxes() || id % 16 == 0
}
