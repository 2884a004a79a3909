// The labels of the nodes that were noted of a text, as they stand in the text.
ghost use Rattle.std.specs.Prelude.{get_or};
ghost use Rattle.graph_scan.specs.Held.{label_at, plan_by, Ordered};

use graphs::Labels;
use put::Sink;

/// The nodes that were noted of a text, in order.
#[derive(Clone, Copy)]
pub struct Noted<'a> {
    pub text: &'a [u8],
    pub seen: &'a [usize; 1024],
    pub order: &'a [usize; 256],
    pub nodes: usize,
    ghost noted: { Ordered text.now seen.now order.now nodes },
}

impl Labels for Noted<'_> {
    ghost plan = { λ t. plan_by t.text.now t.seen.now t.order.now t.nodes };

    ghost label = { λ t k. label_at t.text.now t.seen.now (get_or t.order.now k 0) };

    fn put<S: Sink>(&self, to: &mut S, k: usize) {
        to.bytes(graph_scan::label(self.text, self.seen, self.order, self.nodes, k));
    }
}
