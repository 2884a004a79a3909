// A plan as it is drawn: the plan that is shown, its look and its numbers.
ghost use Rattle.std.specs.Prelude.{◌≡◌, option_map};
ghost use Rattle.rules.specs.Look.{len_of, marks_in, marks_of};
ghost use Rattle.levels.specs.Shown.{plan_shown};
ghost use Rattle.levels.specs.Given.{is_given, text_of};
ghost use Rattle.marks.specs.Lawful.{Lawful};
ghost use Rattle.size_laws.specs.Even.{Level};
ghost use Rattle.layout.specs.Laid.{IsLayoutOf};

use crate::Layout;
use levels::ShownPlan;
use rules::{Glyphs, Measure, Profile};

/// The plan that is shown, how long a line is, the marks, and the numbers that a drawing of it goes by.
#[derive(Clone, Copy)]
pub struct View<'a> {
    pub shown: ShownPlan<'a>,
    pub measure: Measure,
    pub marks: Glyphs,
    pub layout: &'a Layout,
    ghost laid: { IsLayoutOf (len_of measure)
        (plan_shown (is_given (option_map (λ t. t.now) shown.standin)) (text_of (option_map (λ t. t.now) shown.standin)) shown.plan.table.now shown.plan.titles.now)
        layout.now.nodes layout.now.ncols layout.now.nrows layout.now.width layout.now.height layout.now.column layout.now.lines layout.now.longest layout.now.cx layout.now.xs layout.now.ys },
    ghost lawful: { Lawful (len_of measure) (marks_in marks) },
    ghost level: { Level (marks_in marks) },
}

impl<'a> View<'a> {
    ghost use Rattle.levels.specs.Handed.{plan_in};

    /// A plan with its numbers, and with the marks of a profile.
    pub fn new(
        shown: &ShownPlan<'a>,
        measure: Measure,
        profile: Profile,
        layout: &'a Layout,
    ) -> View<'a>
        requires { IsLayoutOf (len_of measure) (plan_in shown.now)
            layout.now.nodes layout.now.ncols layout.now.nrows layout.now.width layout.now.height layout.now.column layout.now.lines layout.now.longest layout.now.cx layout.now.xs layout.now.ys }
        ensures shown { result.shown ≡ shown.now }
        ensures measure { result.measure ≡ measure }
        ensures marks { marks_in result.marks ≡ marks_of profile }
        ensures layout { result.layout.now ≡ layout.now }
    {
        View {
            shown: *shown,
            measure,
            marks: numbers::marks_of(profile),
            layout,
        }
    }
}
