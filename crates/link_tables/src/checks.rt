//! Refusals that the tables have in common.
ghost use Rattle.std.specs.Prelude.{◌≡◌, length};
ghost use Rattle.links.specs.Calls.{answer, box_fault, buffer_fault};

use links::{BOXES, LONGEST, LinkFault};

pub(crate) fn check_box(to: u8) -> Result<(), LinkFault>
    ensures { result ≡ answer (box_fault to) tt }
{
    if to as usize >= BOXES {
        return Err(LinkFault::Box);
    }
    Ok(())
}

pub(crate) fn check_buffer(out: &[u8]) -> Result<(), LinkFault>
    ensures { result ≡ answer (buffer_fault out.now) tt }
{
    if out.len() < LONGEST {
        return Err(LinkFault::Short);
    }
    Ok(())
}
