//! Tables for the machines: each kind of order at its limits and one past them, in each mode, and
//! machines whose fields are out of range.

#![tactic(auto)]

#[cfg(test)]
mod domes;
#[cfg(test)]
mod heads;
