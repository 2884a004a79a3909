// A plan and its stand-in that no refusal meets, as one value.
ghost use Rattle.std.specs.Prelude.{◌≡◌, true, false, option_map, IfOk, IfErr, OnOk};
ghost use Rattle.rules.specs.Answers.{done};
ghost use Rattle.rules.specs.declared.Answer.{Answer as Said};
ghost use Rattle.levels.specs.Accepted.{after_all};
ghost use Rattle.levels.specs.Given.{standin_from};

use crate::profile::refusal;
use levels::{Plan, ShownPlan};
use rules::{Answer, Profile};

/// The plan of a table and its titles with the stand-in, or the first of the refusals that have to do with them: 1 to 6, 12 and 17, 3 only where
/// `some` asks for a node.
pub fn shown_plan<'a>(
    table: &'a [u32],
    titles: &'a [u8],
    standin: Option<&'a [u8]>,
    profile: Profile,
    some: bool,
) -> Result<ShownPlan<'a>, Answer>
    ensures table { IfOk result (λ s. s.plan.table.now ≡ table.now) }
    ensures titles { IfOk result (λ s. s.plan.titles.now ≡ titles.now) }
    ensures standin { IfOk result (λ s. s.standin ≡ standin.entry) }
    ensures fine { OnOk result (done (after_all some profile (standin_from (option_map (λ t. t.now) standin.entry)) table.now titles.now (Said.Done 0)) ≡ true) }
    ensures refused { IfErr result (λ e. e ≡ after_all some profile (standin_from (option_map (λ t. t.now) standin.entry)) table.now titles.now (Said.Done 0)) }
    ensures not_done { IfErr result (λ e. done e ≡ false) }
{
    let answer = match standin {
        Some(text) => refusal(table, titles, true, text, profile, some),
        None => refusal(table, titles, false, titles, profile, some),
    };
    if !numbers::done(answer) {
        return Err(answer);
    }
    Ok(ShownPlan {
        plan: Plan { table, titles },
        standin,
    })
}
