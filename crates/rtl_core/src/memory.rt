//! The interface of a memory.
ghost use Rattle.std.specs.Prelude.{◌≡◌};
ghost use Rattle.rtl_core.specs.Contents.{Contents, byte_of, is_writable, put};

/// A finite map from addresses to a byte and whether it may be written.
pub trait Memory {
    /// What it maps.
    ghost contents: { Self → Contents };

    /// What each call asks and keeps.
    ghost whole: { Self → Type 0 };

    /// What each call that may store asks and keeps.
    ghost ready: { Self → Type 0 };

    /// How a later value stands to an earlier one.
    ghost follows: { Self → Self → Type 0 };

    /// The byte at an address; `None` exactly where none is mapped.
    fn load8(&self, a: u32) -> Option<u8>
        requires { whole self.now }
        ensures { result ≡ byte_of (contents self.now a) };

    /// Whether a byte is mapped at an address and may be written.
    fn writable8(&self, a: u32) -> bool
        requires { whole self.now }
        ensures { result ≡ is_writable (contents self.now a) };

    /// Writes one byte; `false` exactly where it may not be written, and then nothing changed.
    fn store8(&mut self, a: u32, v: u8) -> bool
        requires whole { whole self.old }
        requires ready { ready self.old }
        ensures written { result ≡ is_writable (contents self.old a) }
        ensures contents { contents self.new ≡ put (contents self.old) a v }
        ensures whole { whole self.new }
        ensures ready { ready self.new }
        ensures follows { follows self.old self.new };

    ghost follows_itself: { (m : Self) → follows m m };

    ghost follows_on: { (a b c : Self) → follows a b → follows b c → follows a c };
}
