ghost use Rattle.std.specs.Prelude.{◌≡◌};
ghost use Rattle.machines.specs.Telling.{told_all};

use crate::Machine;

/// Tells a machine each of the bodies, in their order.
pub fn tell_all<M: Machine>(machine: &mut M, bodies: &[[u8; 8]])
    ensures { M.Machine.reading machine.new ≡ told_all M.Machine.told (M.Machine.reading machine.old) bodies.now }
{
    for body in bodies {
        machine.tell(body);
    }
}

/// The machine once it is told each of the bodies, in their order.
pub(crate) fn told<M: Machine>(mut machine: M, bodies: &[[u8; 8]]) -> M
    ensures { M.Machine.reading result ≡ told_all M.Machine.told (M.Machine.reading machine) bodies.now }
{
    tell_all(&mut machine, bodies);
    machine
}
