// All that the program does between its input and its output.
ghost use Rattle.std.specs.Prelude.{◌≤◌, length};
ghost use Rattle.pace.specs.Cap.{capped_meaning};
ghost use Rattle.slots.specs.Slots.{items};
ghost use Rattle.graphml.specs.Lent.{lent};
ghost use Rattle.player.specs.Told.{bytes_told, outcome_of};
ghost use Rattle.player.specs.Program.{cap_and_plan_no, SetUpComesTo, FileComesTo, FileRun};

use crate::fault::FileFault;
use crate::file_pace::FilePace;
use crate::notices::{PlayedFile, RefusedFile, notices};
use crate::opening::set_up;
use crate::play::play;
use graphml::export::export;
use group::Group;
use orders::load::load;
use orders::order::Order;
use orders::start::Start;
use pace::Pace;
use protocol::happening::Happening;
use slots::SlotList;
use text::line_bytes::LineBytes;

/// What a program prints of a file: the first `file_bytes` bytes of the output, and then the
/// notices. Of a file that is not played no byte of the output is printed.
#[derive(Clone, Copy, Debug, PartialEq, Eq)]
pub struct Printed {
    pub file_bytes: usize,
    pub notices: LineBytes,
}

// A run that was exported.
#[derive(Clone, Copy)]
struct Ran {
    file_bytes: usize,
    told: PlayedFile,
}

/// Reads the file into `order_slots`, plays its orders with the log in `log_slots`, and exports the
/// run into `out`. It never fails: whatever is refused is told in the notices, by its number.
pub fn run_file(
    input: &[u8],
    order_slots: &mut [Order],
    log_slots: &mut [Happening],
    out: &mut [u8],
) -> Printed
    ensures run { FileRun input.now (lent order_slots.old order_slots.new)
        (lent log_slots.old log_slots.new) (lent out.old out.new) result }
    ensures within { result.file_bytes ≤ length out.old }
{
    let ran = read_and_play(input, order_slots, log_slots, out);
    Printed {
        file_bytes: ran.map_or(0, |ran| ran.file_bytes),
        notices: notices(ran.map(|ran| ran.told).map_err(RefusedFile::from)),
    }
}

// The whole file is read before anything is asked of the limits.
fn read_and_play(
    input: &[u8],
    order_slots: &mut [Order],
    log_slots: &mut [Happening],
    out: &mut [u8],
) -> Result<Ran, FileFault>
    ensures run { FileComesTo input.now (lent order_slots.old order_slots.new)
        (outcome_of (lent log_slots.old log_slots.new) (lent out.old out.new) result) }
    ensures within { bytes_told result ≤ length out.old }
{
    let mut orders = SlotList::new(order_slots);
    let start = load(input, &mut orders)?;
    let pace = FilePace::new(start)?;
    play_at(pace, start, &orders, log_slots, out)
}

// The group that the file asks for is opened, the orders are played, and then the run is exported.
fn play_at<P: Pace + Drop>(
    pace: P,
    start: Start,
    orders: &SlotList<'_, Order>,
    log_slots: &mut [Happening],
    out: &mut [u8],
) -> Result<Ran, FileFault>
    ensures run { SetUpComesTo (cap_and_plan_no start) (capped_meaning start.cap (P.means pace)) start
        (items orders.now)
        (outcome_of (lent log_slots.old log_slots.new) (lent out.old out.new) result) }
    ensures within { bytes_told result ≤ length out.old }
{
    let (pace, plan) = set_up(pace, start)?;
    let mut group = Group::open(pace, plan);
    let mut log = SlotList::new(log_slots);
    let played = play(&mut group, orders, &mut log);
    let exported = export(&group, &log, out)?;
    Ok(Ran {
        file_bytes: exported.bytes,
        told: PlayedFile {
            cut: !exported.whole,
            end: played,
        },
    })
}
