// A text that is often short.
ghost use Rattle.std.specs.Prelude.{length};

use crate::sink::Sink;

/// Puts a text that is often short, or empty: where it is, byte by byte, since a copy costs a call.
pub fn short<S: Sink>(to: &mut S, text: &[u8])
    requires { S.fits (length text.now) to.old }
    ensures { S.puts text.now to.old to.new }
{
    if text.len() < 8 {
        for &b in text {
            to.byte(b);
        }
    } else {
        to.bytes(text);
    }
}
