// Goes over the bytes of a file, record by record.
ghost use Rattle.std.specs.Prelude.{◌≡◌, ◌≤◌, if◌then◌else◌, length, take, drop};
ghost use Rattle.orders.specs.Reading.{is_whole, start_at, place_after_start, order_at, place_after_order, with_place};

use super::fault::{ReadCause, ReadFault};
use super::order::{ORDER_MARK, ORDER_SIZE, Order};
use super::start::{START_MARK, START_SIZE, Start};

// The caller's bytes, and the place of the record that is read next, which a fault tells.
#[derive(Drop)]
pub(crate) struct Reader<'a> {
    bytes: &'a [u8],
    at: usize,
    ghost within: { at ≤ length bytes.now },
}

impl<'a> Reader<'a> {
    pub(crate) fn new(bytes: &'a [u8]) -> Reader<'a>
        ensures bytes { result.bytes.now ≡ bytes.now }
        ensures place { result.at ≡ 0 }
    {
        Reader { bytes, at: 0 }
    }

    pub(crate) fn place(&self) -> usize
        ensures { result ≡ self.now.at }
    {
        self.at
    }

    // The start record at the reader's place; a fault leaves the reader there.
    pub(crate) fn start(&mut self) -> Result<Start, ReadFault>
        ensures answer { result ≡ start_at self.old.bytes.now self.old.at }
        ensures place { self.new.at ≡ place_after_start result self.old.at }
        ensures bytes { self.new.bytes ≡ self.old.bytes }
    {
        let byte = self.at;
        let start = self
            .start_here()
            .map_err(|cause| ReadFault { byte, cause })?;
        self.at += START_SIZE;
        Ok(start)
    }

    // The order at the reader's place, or none at the end; a fault leaves the reader there.
    pub(crate) fn order(&mut self) -> Result<Option<Order>, ReadFault>
        ensures answer { result ≡ order_at self.old.bytes.now self.old.at }
        ensures place { self.new.at ≡ place_after_order result self.old.at }
        ensures bytes { self.new.bytes ≡ self.old.bytes }
    {
        let byte = self.at;
        let order = self
            .order_here()
            .map_err(|cause| ReadFault { byte, cause })?;
        if order.is_some() {
            self.at += ORDER_SIZE;
        }
        Ok(order)
    }

    // What stands at the reader's place, without going on.
    fn start_here(&self) -> Result<Start, ReadCause>
        ensures { with_place self.now.at result ≡ start_at self.now.bytes.now self.now.at }
    {
        let record: [u8; START_SIZE] = self.record(START_MARK)?;
        let [_, _, kind, parties, a, b, c, d, e, f, g, h, pace, cap] = record;
        Ok(Start {
            kind: kind.try_into()?,
            parties,
            tmin: u32::from_be_bytes([a, b, c, d]),
            tmax: u32::from_be_bytes([e, f, g, h]),
            pace: pace.try_into()?,
            cap,
        })
    }

    fn order_here(&self) -> Result<Option<Order>, ReadCause>
        ensures { with_place self.now.at result ≡ order_at self.now.bytes.now self.now.at }
    {
        if self.at == self.bytes.len() {
            return Ok(None);
        }
        let record: [u8; ORDER_SIZE] = self.record(ORDER_MARK)?;
        let [_, _, kind, party, leg, a, b, c, d] = record;
        Ok(Some(Order {
            kind: kind.try_into()?,
            party,
            leg,
            tick: u32::from_be_bytes([a, b, c, d]),
        }))
    }

    // The next `N` bytes, of which the first two have to be the mark.
    fn record<const N: usize>(&self, mark: [u8; 2]) -> Result<[u8; N], ReadCause>
        requires { 2 ≤ N }
        ensures { result ≡ (if is_whole mark N self.now.bytes.now self.now.at
            then Ok (take N (drop self.now.at self.now.bytes.now)) else Err ReadCause.NotWhole) }
    {
        match self.bytes[self.at..].first_chunk() {
            Some(record) if record.starts_with(&mark) => Ok(*record),
            _ => Err(ReadCause::NotWhole),
        }
    }
}
