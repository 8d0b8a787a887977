ghost use Rattle.std.specs.Prelude.{◌≡◌, Decides};
ghost use Rattle.std.proofs.Common.{rules};
ghost use Rattle.std.proofs.lemmas.Bool.Decides.{Decides-eqb};
ghost use Rattle.std.proofs.lemmas.Slice.Eq.{slice_eq-Decides};

use frames::Entry;

/// A type whose equality is exact: two values are equal just where they are the same.
pub trait Exact: PartialEq {
    ghost exact: { (a b : Self) → Decides (Self.eq a b) (a ≡ b) };
}

impl Exact for u8 {
    ghost exact = { Prim.search (rules, Decides-eqb) };
}

impl Exact for Entry {
    ghost exact = { Prim.search (rules, slice_eq-Decides Decides-eqb) };
}
