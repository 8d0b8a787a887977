//! A box handed frames, worked by hand.

#![tactic(auto)]

#[cfg(test)]
mod hands;
