// What a file's group is opened with.
ghost use Rattle.std.specs.Prelude.{◌≡◌, ◌↔◌, IfOk, IfErr, IsOk};
ghost use Rattle.player.specs.Faults.{TellsOfNoRecord};
ghost use Rattle.player.specs.Program.{cap_and_plan_no};

use crate::fault::FileFault;
use orders::start::Start;
use pace::Pace;
use pace::cap::Cap;
use protocol::plan::Plan;

/// The pace under the cap of a start record, and the record's plan: what a group or a run of the
/// file is opened with. The cap is asked about before the plan.
pub fn set_up<P: Pace + Drop>(pace: P, start: Start) -> Result<(Cap<P>, Plan), FileFault>
    ensures granted { IsOk result ↔ cap_and_plan_no start ≡ 0 }
    ensures refused { IfErr result (TellsOfNoRecord (cap_and_plan_no start)) }
    ensures pace { IfOk result (λ made. (made.0.pace ≡ pace) × (made.0.m ≡ start.cap)) }
    ensures plan { IfOk result
        (λ made. (made.1.kind ≡ start.kind) × (made.1.n ≡ start.parties)) }
{
    let mut capped = Cap::new(pace);
    capped.set(start.cap as u32)?;
    let plan = Plan::new(start.kind, start.parties)?;
    Ok((capped, plan))
}
