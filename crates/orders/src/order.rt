// One order of the file.
ghost use Rattle.std.specs.Prelude.{◌≡◌, ℕ, List, ◌++◌, length, Some, Ok};
ghost use Rattle.std.specs.Option.{ok_or};
ghost use Rattle.orders.specs.Kinds.{order_kind, order_number};
ghost use Rattle.orders.specs.Reading.{order_at};
ghost use Rattle.orders.specs.Writing.{order_bytes};

use protocol::kind::UnknownKind;
use slots::timed::Timed;

// The two bytes before each order.
pub(crate) const ORDER_MARK: [u8; 2] = [0x48, 0x4F];

/// How many bytes an order has in the file, with its mark.
pub const ORDER_SIZE: usize = 9;

/// What is to be done with a beat, with a party, or until a tick.
#[derive(Clone, Copy, Debug, Default, PartialEq, Eq)]
pub enum OrderKind {
    /// The beat on a party's leg arrives.
    Deliver = 1,
    /// The beat on a party's leg is lost.
    Lose = 2,
    /// The root, as party 0, or a party crashes.
    Crash = 3,
    /// A party asks to be enrolled.
    Join = 4,
    /// A party that is in begins to leave.
    Leave = 5,
    /// Time goes on until the order's tick.
    #[default]
    Wait = 6,
}

impl TryFrom<u8> for OrderKind {
    type Error = UnknownKind;

    ghost try_from_gives = { λ number r. r ≡ ok_or (order_kind number) (record { 0 = number }) };

    fn try_from(number: u8) -> Result<OrderKind, UnknownKind> {
        match number {
            1 => Ok(OrderKind::Deliver),
            2 => Ok(OrderKind::Lose),
            3 => Ok(OrderKind::Crash),
            4 => Ok(OrderKind::Join),
            5 => Ok(OrderKind::Leave),
            6 => Ok(OrderKind::Wait),
            _ => Err(UnknownKind(number)),
        }
    }
}

impl From<OrderKind> for u8 {
    ghost from_gives = { λ kind number. number ≡ order_number kind };

    fn from(kind: OrderKind) -> u8 {
        kind as u8
    }
}

/// An order to be carried out at its tick.
#[derive(Clone, Copy, Debug, Default, PartialEq, Eq)]
pub struct Order {
    pub kind: OrderKind,
    /// Which party, the root being 0; nothing to `Wait`.
    pub party: u8,
    /// Which of the party's legs, 1 to 3, for `Deliver` and `Lose`; nothing to the others.
    pub leg: u8,
    pub tick: u32,
}

impl Timed for Order {
    ghost time = { λ o. o.tick };

    fn tick(&self) -> u32 {
        self.tick
    }
}

impl Order {
    /// The order as a record of the file.
    pub fn to_bytes(self) -> [u8; ORDER_SIZE]
        ensures written { result ≡ order_bytes self }
        ensures reads_back { (before after : List ℕ)
            → order_at (before ++ result ++ after) (length before) ≡ Ok (Some self) }
    {
        let [a, b, c, d] = self.tick.to_be_bytes();
        [
            ORDER_MARK[0],
            ORDER_MARK[1],
            self.kind.into(),
            self.party,
            self.leg,
            a,
            b,
            c,
            d,
        ]
    }
}
