// The sink that only counts.
use crate::sink::Sink;

/// Counts what is put.
#[derive(Clone, Copy, Debug, PartialEq, Eq)]
pub struct Count {
    pub at: usize,
}

impl Sink for Count {
    ghost use Rattle.put.specs.Sunk.{count_fits, Counts, count_laws};

    ghost fits = { count_fits };

    ghost puts = { Counts };

    ghost laws = { count_laws };

    fn byte(&mut self, _b: u8) {
        self.at += 1;
    }

    fn bytes(&mut self, text: &[u8]) {
        self.at += text.len();
    }

    fn decimal(&mut self, n: u32) {
        self.at += text::digits(n) as usize;
    }
}
