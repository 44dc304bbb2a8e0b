ghost use Rattle.std.specs.Prelude.{◌≡◌, length, replicate};

// A guard over lent work bytes, as a rule of the project asks: all of them are zero once it is let go, on whatever way.
pub struct Wipe<'a>(pub &'a mut [u8]);

impl Drop for Wipe<'_> {
    fn drop(self)
        ensures { self.exit.0.now ≡ replicate (length self.entry.0.now) 0 }
    {
        self.0.fill(0);
        let Wipe(_) = self;
    }
}
