// Strips one after another: what the columns of a canvas and its rows have in common.
ghost use Rattle.std.specs.Prelude.{◌≡◌, ℕ, ◌*◌, ◌-◌, ◌≤◌, ◌<◌, ◌^◌, length, get_or, replicate};
ghost use Rattle.levels.specs.Filled.{filled};
ghost use Rattle.tree_view.specs.Sizes.{most, after, sum_at, Within};

/// Where each of N strips begins on the canvas, how wide or high it is, and where its centre is.
#[derive(Clone, Copy, Debug, PartialEq, Eq)]
pub struct Strips<const N: usize> {
    pub offset: [u32; N],
    pub size: [u32; N],
    pub center: [u32; N],
}

impl<const N: usize> Strips<N> {
    // Sets where each of the first `count` strips begins: the first at `start`, each next one after the one before it and the gap.
    pub(crate) fn line_up(&mut self, count: u32, start: u32, gap: u32)
        requires count_bound { count ≤ N }
        requires offsets_in_range { (k : ℕ) → k ≤ count → after (λ k. get_or self.old.size k 0) start gap k < 2 ^ 32 }
        ensures offset { self.new.offset ≡ filled (after (λ k. get_or self.old.size k 0) start gap) 0 count self.old.offset }
        ensures size { self.new.size ≡ self.old.size }
        ensures center { self.new.center ≡ self.old.center }
    {
        let mut at = start;
        for k in 0..count as usize {
            self.offset[k] = at;
            at += self.size[k] + gap;
        }
    }

    // Where the last of the first `count` strips ends (there is one).
    pub(crate) fn end(&self, count: u32) -> u32
        requires strips_some { (0 < count) × (count ≤ N) }
        requires end_in_range { sum_at self.now.offset self.now.size (count - 1) < 2 ^ 32 }
        ensures { result ≡ sum_at self.now.offset self.now.size (count - 1) }
    {
        let last = count as usize - 1;
        self.offset[last] + self.size[last]
    }
}

// Raises size[key[STEP * k]] to asked[k] + least, for every node k.
#[tactic(auto, using(crate::proofs::Sizes::spaced, crate::proofs::Sizes::whole))]
pub(crate) fn raise<const STEP: usize, const N: usize>(
    nodes: usize,
    key: &[u32],
    asked: &[u32; 256],
    least: u32,
    size: &mut [u32; N],
)
    requires keys_lent { (0 < STEP) × (STEP * nodes ≤ length key.now) }
    requires nodes_bound { nodes ≤ 256 }
    requires within { Within (λ k. get_or key.now (STEP * k) 0) (λ k. get_or asked.now k 0) nodes N 1025 }
    requires least_bound { least ≤ 256 }
    requires sizes_start_at_least { size.old ≡ replicate N least }
    ensures { size.new ≡ filled (most (λ k. get_or key.now (STEP * k) 0) (λ k. get_or asked.now k 0) least nodes) 0 N size.old }
{
    for k in 0..nodes {
        let i = key[STEP * k] as usize;
        size[i] = size[i].max(asked[k] + least);
    }
}
