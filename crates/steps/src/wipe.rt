// A guard on the work area.
ghost use Rattle.steps.specs.Buffers.{wiped};
ghost use Rattle.std.specs.Prelude.{◌≡◌};

// Holds the work area and clears it at its end.
pub(crate) struct Wipe<'a> {
    pub(crate) work: &'a mut [u8],
}

impl Drop for Wipe<'_> {
    fn drop(self)
        ensures { self.exit.0.now ≡ wiped self.entry.work.now }
    {
        let Wipe { work } = self;
        work.fill(0);
    }
}
