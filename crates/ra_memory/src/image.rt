ghost use Rattle.std.specs.Prelude.{◌≡◌, ◌+◌, ℕ, List};
ghost use Rattle.ra_memory.specs.Image.{raw, IsReadWidth};
ghost use base.Fml.{GName};

/// Bytes that are read a number at a time, and count it: docs/DEFINITIONS.md, "Images and histories".
pub trait Image {
    /// The bytes that are read.
    ghost bytes: { Self → List ℕ };

    /// How many reads were counted.
    ghost reads: { Self → ℕ };

    /// Which counter it is that counts.
    ghost counter: { Self → GName };

    /// The little-endian number of `width` bytes from `at` on, with 0 for a byte past the end. It
    /// is one read. The width is 1, 2 or 4.
    fn read(&mut self, at: u32, width: u8) -> u32
        requires { IsReadWidth width }
        ensures number { result ≡ raw width (bytes self.old) at }
        ensures counts { reads self.new ≡ reads self.old + 1 }
        ensures bytes_stay { bytes self.new ≡ bytes self.old }
        ensures counter_stays { counter self.new ≡ counter self.old };
}
