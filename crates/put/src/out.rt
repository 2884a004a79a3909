// The sink that stores in lent memory.
ghost use Rattle.std.specs.Prelude.{◌≡◌};

use crate::put;
use crate::sink::Sink;

/// Stores what is put in the lent bytes from the place `at` on; what has no room is dropped, and only counted.
#[derive(Drop)]
pub struct Out<'a> {
    pub bytes: &'a mut [u8],
    pub at: usize,
}

impl<'a> Out<'a> {
    /// From the start.
    pub fn new(bytes: &'a mut [u8]) -> Out<'a>
        ensures same_memory { result.bytes.ghost_name ≡ bytes.entry.ghost_name }
        ensures holds { result.bytes.now ≡ bytes.old }
        ensures place { result.at ≡ 0 }
    {
        Out { bytes, at: 0 }
    }
}

impl<'a> Sink for Out<'a> {
    ghost use Rattle.put.specs.Sunk.{out_fits, Stores, out_laws};

    ghost fits = { out_fits };

    ghost puts = { Stores };

    ghost laws = { out_laws };

    fn byte(&mut self, b: u8) {
        self.at = put::byte(self.bytes, self.at, b);
    }

    fn bytes(&mut self, text: &[u8]) {
        self.at = put::bytes(self.bytes, self.at, text);
    }

    fn decimal(&mut self, n: u32) {
        self.at = put::decimal(self.bytes, self.at, n);
    }
}
