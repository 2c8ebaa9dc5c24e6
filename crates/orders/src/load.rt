// Reads a whole file, its orders into a list.
ghost use Rattle.std.specs.Prelude.{◌≡◌};
ghost use Rattle.std.specs.List.Sorted.{IsNonDecreasingBy};
ghost use Rattle.slots.specs.Slots.{items, spare, Extends};
ghost use Rattle.orders.specs.Example.{ExamplesLoad};
ghost use Rattle.orders.specs.Loading.{load_outcome, tick_of, WrittenFilesLoad, LoadedFilesAreWritten};

use super::fault::ReadFault;
use super::order::Order;
use super::reader::Reader;
use super::start::Start;
use slots::SlotList;

/// Reads the start of a file, and appends its orders to a list.
///
/// At a fault the orders before it stay in the list.
pub fn load(bytes: &[u8], list: &mut SlotList<'_, Order>) -> Result<Start, ReadFault>
    ensures answer { result ≡ (load_outcome bytes.now (items list.old) (spare list.old)).answer }
    ensures items { items list.new
        ≡ (load_outcome bytes.now (items list.old) (spare list.old)).items }
    ensures spare { spare list.new
        ≡ (load_outcome bytes.now (items list.old) (spare list.old)).spare }
    ensures extends { Extends list.old list.new }
    ensures rises { IsNonDecreasingBy tick_of (items list.old)
        → IsNonDecreasingBy tick_of (items list.new) }
    ensures reads_back { WrittenFilesLoad }
    ensures only_written { LoadedFilesAreWritten }
    ensures examples { ExamplesLoad }
{
    let mut reader = Reader::new(bytes);
    let start = reader.start()?;
    // A fault tells the place at which its order begins.
    loop {
        let byte = reader.place();
        let Some(order) = reader.order()? else {
            return Ok(start);
        };
        list.append(order).map_err(|refusal| ReadFault {
            byte,
            cause: refusal.into(),
        })?;
    }
}
