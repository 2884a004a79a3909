// A plan with the stand-in that is shown for its empty titles, as one value.
ghost use Rattle.std.specs.Prelude.{◌≡◌, ◌<◌, option_map};
ghost use Rattle.std.specs.Option.{ForSome};
ghost use Rattle.rules.specs.Plan.{count, title_in};
ghost use Rattle.rules.specs.Standin.{shown};
ghost use Rattle.levels.specs.Shown.{Fine};
ghost use Rattle.levels.specs.Given.{is_given};

use crate::{Plan, titles};

/// A plan that no refusal meets, and the text that is shown where a title is empty, if one is given. `refusals::shown_plan` makes it.
#[derive(Clone, Copy)]
pub struct ShownPlan<'a> {
    pub plan: Plan<'a>,
    pub standin: Option<&'a [u8]>,
    ghost fine: { ForSome standin (λ s. Fine s.now) },
}

impl<'a> ShownPlan<'a> {
    ghost use Rattle.levels.specs.Handed.{standin_in};

    /// A stand-in is given.
    pub fn has_standin(&self) -> bool
        ensures { result ≡ is_given (option_map (λ t. t.now) self.now.standin) }
    {
        match self.standin {
            Some(_) => true,
            None => false,
        }
    }

    /// The title that is shown of node k: its own, or the stand-in, if one is given, where that is empty.
    pub fn title(&self, k: usize) -> &'a [u8]
        requires { k < count self.now.plan.table.now }
        ensures { result.now ≡ shown (standin_in self.now) (title_in self.now.plan.table.now self.now.plan.titles.now k) }
    {
        match self.standin {
            Some(standin) => {
                titles::shown_title(self.plan.table, k, self.plan.titles, true, standin)
            }
            None => titles::shown_title(self.plan.table, k, self.plan.titles, false, &[]),
        }
    }
}
