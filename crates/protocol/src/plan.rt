// What a group is opened from, beside its pace.
ghost use Rattle.std.specs.Prelude.{◌≤◌};

mod make;

pub use self::make::BadPartyCount;
use crate::kind::GroupKind;

/// The kind of a group, and the number of its parties beside the root: 1 to 32.
#[derive(Clone, Copy, Debug, PartialEq, Eq)]
pub struct Plan {
    kind: GroupKind,
    n: u8,
    ghost some: { 1 ≤ n },
    ghost few: { n ≤ 32 },
}
