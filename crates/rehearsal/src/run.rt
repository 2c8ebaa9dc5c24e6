// Plays any calls over a new group of any pace.
ghost use Rattle.std.specs.Prelude.{◌≡◌, ◌≤◌, length, map};
ghost use Rattle.protocol.specs.Rehearsals.{call_of};
ghost use Rattle.runs.specs.Runs.{rules_over};
ghost use Rattle.graphml.specs.Lent.{lent};
ghost use Rattle.rehearsal.specs.Promise.{Promised};

use graphml::answer::{Exported, Refusal};
use graphml::export::export;
use group::Group;
use pace::Pace;
use protocol::call::Step;
use protocol::happening::Happening;
use protocol::plan::Plan;
use runs::making::make_all;
use slots::SlotList;

/// What a run came to: the group, how many of the slots hold its log, from the first on, and what
/// the export answered.
#[derive(Drop)]
pub struct Rehearsal<P: Pace> {
    pub group: Group<P>,
    pub records: usize,
    pub exported: Result<Exported, Refusal>,
}

/// Opens a group, makes every call of `steps` in turn, refused or not, puts each answer beside its
/// call, and exports the run into `out`.
pub fn rehearse<P: Pace>(
    plan: Plan,
    pace: P,
    steps: &mut [Step],
    slots: &mut [Happening],
    out: &mut [u8],
) -> Rehearsal<P>
    ensures pace { result.group.pace ≡ pace }
    ensures plan { result.group.plan ≡ plan }
    ensures records { result.records ≡ result.group.table.logged }
    ensures within { result.records ≤ length slots.new }
    ensures calls { map call_of steps.new ≡ map call_of steps.old }
    ensures promise { Promised (rules_over (P.means pace) plan slots.old) steps.new
        (lent slots.old slots.new) (lent out.old out.new) result }
{
    let mut log = SlotList::new(slots);
    let mut group = Group::open(pace, plan);
    make_all(&mut group, &mut log, steps);
    let exported = export(&group, &log, out);
    let records = log.len();
    Rehearsal {
        group,
        records,
        exported,
    }
}
