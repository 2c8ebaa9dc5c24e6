// Which groups there are.
ghost use Rattle.std.specs.Prelude.{◌≡◌, Some};
ghost use Rattle.std.specs.Option.{ok_or};
ghost use Rattle.protocol.specs.Kinds.{group_kind, group_number, unknown_number};
ghost use Rattle.protocol.specs.Texts.{kind_text};

use std::fmt;

/// Who may join and who may leave; each goes by its number in an order file.
#[derive(Clone, Copy, Debug, PartialEq, Eq)]
pub enum GroupKind {
    /// Everybody is in from the start.
    Closed = 1,
    /// Parties may join.
    Expanding = 2,
    /// Parties may join and leave.
    Dynamic = 3,
}

/// A number that stands for no kind: question 16.
#[derive(Clone, Copy, Debug, PartialEq, Eq)]
pub struct UnknownKind(pub u8);

impl UnknownKind {
    /// The number of the question that was answered no.
    pub fn number(self) -> u8
        ensures { result ≡ unknown_number self }
    {
        16
    }
}

impl TryFrom<u8> for GroupKind {
    type Error = UnknownKind;

    ghost try_from_gives = { λ number r. r ≡ ok_or (group_kind number) (record { 0 = number }) };

    fn try_from(number: u8) -> Result<GroupKind, UnknownKind> {
        match number {
            1 => Ok(GroupKind::Closed),
            2 => Ok(GroupKind::Expanding),
            3 => Ok(GroupKind::Dynamic),
            _ => Err(UnknownKind(number)),
        }
    }
}

impl From<GroupKind> for u8 {
    ghost from_gives = { λ kind number. number ≡ group_number kind };

    fn from(kind: GroupKind) -> u8 {
        kind as u8
    }
}

impl fmt::Display for GroupKind {
    ghost output = { λ x. Some (kind_text x) };

    fn fmt<W: fmt::Write>(&self, f: &mut fmt::Formatter<W>) -> fmt::Result {
        f.write_str(match self {
            GroupKind::Closed => "closed",
            GroupKind::Expanding => "expanding",
            GroupKind::Dynamic => "dynamic",
        })
    }
}
