/// The right to pass the token of one round. It is not `Drop`, so it cannot be let go: it is passed or forfeited.
#[derive(Debug, PartialEq, Eq)]
pub struct Turn {
    pub(crate) seat: u8,
    pub(crate) round: u32,
}

impl Turn {
    /// The turn is over.
    pub(crate) fn end(self) {
        let Turn { seat: _, round: _ } = self;
    }
}
