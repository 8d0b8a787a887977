ghost use Rattle.std.specs.Prelude.{◌+◌, ◌*◌, ◌≤◌};

/// An array's plan: n boxes in a ring, of which f may fail. Only a checked pair of numbers becomes one.
#[derive(Debug, PartialEq, Eq, Drop)]
pub struct Plan {
    pub(crate) n: u8,
    pub(crate) f: u8,
    ghost least: { 3 ≤ n },
    ghost most: { n ≤ 7 },
    ghost some: { 1 ≤ f },
    ghost few: { f ≤ 2 },
    ghost enough: { f * (f + 1) + 1 ≤ n },
}
