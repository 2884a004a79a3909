// A plan that no refusal meets, as one value.
ghost use Rattle.std.specs.Prelude.{◌≡◌, ◌<◌};
ghost use Rattle.rules.specs.Plan.{count, depth_in, title_in};
ghost use Rattle.levels.specs.Accepted.{Accepted};

use crate::titles;

/// The table of a plan, three numbers for each node (its depth, and where its title begins and how many bytes it has), and the bytes of the titles:
/// refusals 1 to 6 meet none of it. `refusals::shown_plan` makes it, within the plan that is shown.
#[derive(Clone, Copy)]
pub struct Plan<'a> {
    pub table: &'a [u32],
    pub titles: &'a [u8],
    ghost accepted: { Accepted table.now titles.now },
}

impl<'a> Plan<'a> {
    /// How many nodes: 256 at most.
    #[tactic(auto, unfolding(rules::specs::Plan::count))]
    pub fn nodes(&self) -> usize
        ensures { result ≡ count self.now.table.now }
    {
        self.table.len() / 3
    }

    /// The depth of node k, below 32.
    #[tactic(auto, unfolding(rules::specs::Plan::depth_in))]
    pub fn depth(&self, k: usize) -> u32
        requires { k < count self.now.table.now }
        ensures depth { result ≡ depth_in self.now.table.now k }
        ensures below_32 { result < 32 }
    {
        self.table[3 * k]
    }

    /// Its title: 1,024 bytes at most, valid UTF-8.
    pub fn title(&self, k: usize) -> &'a [u8]
        requires { k < count self.now.table.now }
        ensures { result.now ≡ title_in self.now.table.now self.now.titles.now k }
    {
        titles::title(self.table, k, self.titles)
    }
}
