// What a sink is.
ghost use Rattle.std.specs.Prelude.{◌<◌, ◌∷◌, [], ℕ, List, length};
ghost use Rattle.rules.specs.Lines.{digits};
ghost use Rattle.put.specs.Sinks.{SinkLaws};

/// What takes bytes one after another: one walk over a text stores it, counts it or compares it, as the sink does.
pub trait Sink {
    // So many bytes may be put.
    ghost fits: { ℕ → Self → Type 0 };

    // What it is once a text is put.
    ghost puts: { List ℕ → Self → Self → Type 0 };

    /// Puts one byte.
    fn byte(&mut self, b: u8)
        requires { fits 1 self.old }
        ensures { puts (b ∷ []) self.old self.new };

    /// Puts a text.
    fn bytes(&mut self, text: &[u8])
        requires { fits (length text.now) self.old }
        ensures { puts text.now self.old self.new };

    /// Puts the digits of an index.
    fn decimal(&mut self, n: u32)
        requires below_256 { n < 256 }
        requires room { fits (length (digits n)) self.old }
        ensures { puts (digits n) self.old self.new };

    ghost laws: { SinkLaws fits puts };
}
