// The check of generator matrices: the shapes in their order, up to the first that is no net.
ghost use Rattle.std.specs.Prelude.{◌≡◌, ℕ, ◌+◌, ◌≤◌, ◌<◌, MatchResult};
ghost use Rattle.net.specs.Generators.{Valid};
ghost use Rattle.net.specs.Check.{check, NoneBefore};
ghost use Rattle.refusal.specs.Refusal.{of_judgement, of_refusal};
ghost use Rattle.minors.specs.Minors.{Starts};
ghost use Rattle.plan.specs.Pair.{generators, largest_level};
ghost use Rattle.stratify.specs.Answers.{of_verdict, check_outcome};

use elimination::{eliminate, shape_columns};
use plan::Plan;
use refusal::Refusal;

// The shapes of size m from (m, from) on, where all shapes before are nets.
fn scan_size(plan: Plan, m: u32, from: u32) -> Result<(), Refusal>
    requires { Valid (generators plan) × (0 < m) × (m ≤ largest_level) × (from ≤ m) × NoneBefore (generators plan) m from }
    ensures { MatchResult result
        (λ _. NoneBefore (generators plan) (m + 1) 0)
        (λ why. (level : ℕ) → m ≤ level → level ≤ largest_level → of_refusal why ≡ of_verdict (check (generators plan) level)) }
{
    for a in from..m + 1 {
        eliminate(shape_columns(plan, m, a), m, 0).map_err(|d| Refusal::NotNet {
            m,
            a,
            j: d.kernel,
        })?;
    }
    Ok(())
}

// The first shape that is no net, m rising and then a rising, where all shapes before (from, at) are nets.
fn scan(plan: Plan, level: u32, from: u32, at: u32) -> Result<(), Refusal>
    requires { Valid (generators plan) × (level ≤ largest_level) × Starts (generators plan) level from at }
    ensures { of_judgement result ≡ of_verdict (check (generators plan) level) }
{
    let mut first = at;
    for m in from..level + 1 {
        scan_size(plan, m, first)?;
        first = 0;
    }
    Ok(())
}

// Whether the generator matrices that 64 words hold, the columns of X first, pass the level.
pub fn check(words: &[u32], level: u32) -> Result<(), Refusal>
    ensures { of_judgement result ≡ check_outcome words.now level }
{
    let plan = Plan::load(words)?;
    if Plan::unknown_level(level) {
        return Err(Refusal::Level);
    }
    let start = minors::certified_from(plan.x, plan.y, level);
    scan(plan, level, start.m, start.a)
}
