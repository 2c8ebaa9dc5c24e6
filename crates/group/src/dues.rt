// What is due next in a group: until then its ticks only count the clock.
mod idle;
mod next;
mod patience;
mod timer;

pub(crate) use self::idle::idle_rounds;
pub(crate) use self::next::next_due;
pub(crate) use self::patience::{patience_of, trip_of};
pub(crate) use self::timer::Timer;
