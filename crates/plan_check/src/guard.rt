// A guard over lent bytes: whichever way a call ends, they are all zero once the guard has ended.
ghost use Rattle.std.specs.Prelude.{◌≡◌, length, replicate};

// Holds the lent bytes of a workspace while a call works on them.
pub struct Guard<'a> {
    pub bytes: &'a mut [u8],
}

impl Drop for Guard<'_> {
    fn drop(self)
        ensures { self.exit.0.now ≡ replicate (length self.entry.bytes.now) 0 }
    {
        clear(self.bytes);
        let Guard { bytes: _ } = self;
    }
}

// Writes zero into every byte.
pub fn clear(bytes: &mut [u8])
    ensures { bytes.new ≡ replicate (length bytes.old) 0 }
{
    bytes.fill(0);
}
