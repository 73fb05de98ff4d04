// The fetch list (document 02, N2): the marked places to fetch so that the marks that are left hold no cycle (01: ring).
// Entry: fetch.
#![tactic(auto)]

ghost use Rattle.std.specs.Prelude.{◌≡◌, ◌+◌, ◌*◌, ◌/◌, eqb, length, Ok};
ghost use Rattle.plan.specs.Plans.{layout_of, plan_check};
ghost use Rattle.code.specs.Marks.{erasures};
ghost use Rattle.code.specs.FetchList.{FetchBits};
ghost use Rattle.calls.specs.Calls.{check_of, also_lent, count_lent};
ghost use Rattle.promises.specs.Promises.{Fetches};

use calls::{also_lent, check_marks};
use plan::Plan;
use refusals::Refusal;

// The list as mark bits, or the refusal.
pub fn fetch(plan: Plan, marks: &[u8], list: &mut [u8]) -> Result<usize, Refusal>
    ensures { Fetches plan marks.now list.old result list.new }
{
    tested(plan, marks, list.len())?;
    Ok(listed(plan, marks, list))
}

// What refuses the call: the list has the plan's length where it is as long as the marks, if those have it.
fn tested(plan: Plan, marks: &[u8], long: usize) -> Result<(), Refusal>
    ensures { result ≡ also_lent (check_of plan (count_lent marks.now) marks.now) (eqb long ((plan.n * plan.t + 7) / 8)) }
{
    let call = check_marks(plan, marks);
    also_lent(call, long == marks.len())
}

// The list of a call that is not refused, by a table of the rows.
fn listed(plan: Plan, marks: &[u8], list: &mut [u8]) -> usize
    requires { (plan_check plan ≡ Ok tt) × (length marks.now ≡ (plan.n * plan.t + 7) / 8) × (length list.old ≡ length marks.now) }
    ensures { FetchBits (layout_of plan) (erasures (layout_of plan) marks.now) (length marks.now) list.new result }
{
    let mut parent = [0u16; 2 * Plan::MAX_T];
    let s = plan.shifts;
    let rows = 2 * plan.t;
    closings::closings(plan.n, plan.t, &s[..], marks, &mut parent[..rows], list)
}
