ghost use Rattle.std.specs.Prelude.{◌≡◌};
ghost use Rattle.inspect.specs.Counting.{one_frame, one_fault};

/// How many text lines held a frame, and how many a fault.
#[derive(Clone, Copy, Debug, Default, PartialEq, Eq)]
pub(crate) struct Tally {
    pub(crate) frames: u64,
    pub(crate) faults: u64,
}

impl Tally {
    /// Counts a frame.
    pub(crate) fn count_frame(&mut self)
        ensures { self.new ≡ one_frame self.old }
    {
        self.frames = self.frames.saturating_add(1);
    }

    /// Counts a fault.
    pub(crate) fn count_fault(&mut self)
        ensures { self.new ≡ one_fault self.old }
    {
        self.faults = self.faults.saturating_add(1);
    }
}
