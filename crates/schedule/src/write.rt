// Writes an order file into lent bytes.
ghost use Rattle.std.specs.Prelude.{◌≡◌, ◌+◌, ◌*◌, ◌≤◌, length, if◌then◌else◌, Some, None, nat_le};
ghost use Rattle.std.specs.List.{flat_map};
ghost use Rattle.text.specs.Bytes.{with_text_at};
ghost use Rattle.orders.specs.Writing.{order_bytes, bytes_of_file};
ghost use Rattle.schedule.specs.Composing.{with_file};

use orders::order::{ORDER_SIZE, Order};
use orders::start::{START_SIZE, Start};
use text::bytes::put;

// The file's size, or none where it does not fit, and then no byte is written.
pub(crate) fn write(start: Start, orders: &[Order], out: &mut [u8]) -> Option<usize>
    ensures answer { result ≡ (if nat_le (length (bytes_of_file start orders.now)) (length out.old)
        then Some (length (bytes_of_file start orders.now)) else None) }
    ensures after { out.new ≡ (if nat_le (length (bytes_of_file start orders.now)) (length out.old)
        then with_file (bytes_of_file start orders.now) out.old else out.old) }
{
    if !has_room(orders.len(), out.len()) {
        return None;
    }
    let at = put(out, 0, &start.to_bytes());
    Some(write_orders(orders, out, at))
}

// Whether so many bytes have room for a start and so many orders.
fn has_room(orders: usize, bytes: usize) -> bool
    ensures { result ≡ nat_le (14 + 9 * orders) bytes }
{
    bytes >= START_SIZE && (bytes - START_SIZE) / ORDER_SIZE >= orders
}

// Writes the orders from a place on, and says where they end.
fn write_orders(orders: &[Order], out: &mut [u8], from: usize) -> usize
    requires { from + 9 * length orders.now ≤ length out.old }
    ensures after { out.new ≡ with_text_at out.old from (flat_map order_bytes orders.now) }
    ensures end { result ≡ from + length (flat_map order_bytes orders.now) }
{
    let mut at = from;
    for order in orders {
        at = put(out, at, &order.to_bytes());
    }
    at
}
