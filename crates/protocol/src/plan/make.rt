// Making and reading a plan.
ghost use Rattle.std.specs.Prelude.{◌≡◌, IfSome, is_some};
ghost use Rattle.protocol.specs.Plans.{Planned, bad_count_number};
ghost use Rattle.protocol.specs.Questions.{is_party};

use crate::kind::GroupKind;
use crate::member::Member;
use crate::plan::Plan;

/// The number of parties is not 1 to 32: question 5.
#[derive(Clone, Copy, Debug, PartialEq, Eq)]
pub struct BadPartyCount;

impl BadPartyCount {
    /// The number of the question that was answered no.
    pub fn number(self) -> u8
        ensures { result ≡ bad_count_number self }
    {
        5
    }
}

impl Plan {
    /// A plan of `n` parties beside the root; refused where they are not 1 to 32.
    pub fn new(kind: GroupKind, n: u8) -> Result<Plan, BadPartyCount>
        ensures { Planned kind n result }
    {
        if n >= 1 && n <= 32 {
            Ok(Plan { kind, n })
        } else {
            Err(BadPartyCount)
        }
    }

    /// Who may join and leave.
    pub fn kind(&self) -> GroupKind
        ensures { result ≡ self.now.kind }
    {
        self.kind
    }

    /// The number of parties, without the root.
    pub fn parties(&self) -> u8
        ensures { result ≡ self.now.n }
    {
        self.n
    }

    /// The party of that number, if the plan has so many.
    pub fn member(&self, number: u8) -> Option<Member>
        ensures known { is_some result ≡ is_party self.now.n number }
        ensures number { IfSome result (λ m. m.number ≡ number) }
    {
        if number >= 1 && number <= self.n {
            Some(Member { number })
        } else {
            None
        }
    }
}
