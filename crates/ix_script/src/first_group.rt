//! Groups of a script: the steps up to each publish, or to the end.

ghost use Rattle.std.specs.Prelude.{◌≡◌, ◌<◌, length, map, option_map, IfSome};
ghost use Rattle.ix_script.specs.Groups.{IsCutAtPublish, is_publish};
ghost use Rattle.ix_script.specs.Steps.{step_of};

use crate::step::Step;

/// The steps up to the first publish, and those behind it; or all steps and none, if no step
/// publishes.
pub fn first_group<'s, 't>(steps: &'s [Step<'t>]) -> (&'s [Step<'t>], Option<&'s [Step<'t>]>)
    ensures cut { IsCutAtPublish (map step_of steps.entry.now) (map step_of result.0.now)
        (option_map (λ rest. map step_of rest.now) result.1) }
    ensures shorter { IfSome result.1 (λ rest. length rest.now < length steps.entry.now) }
{
    let mut place = 0;
    while place < steps.len() {
        if is_publish(&steps[place]) {
            return (&steps[..place], Some(&steps[place + 1..]));
        }
        place += 1;
    }
    (steps, None)
}

fn is_publish(step: &Step<'_>) -> bool
    ensures { result ≡ is_publish (step_of step.now) }
{
    matches!(step, Step::Publish)
}
