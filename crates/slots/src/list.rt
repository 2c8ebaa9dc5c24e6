ghost use Rattle.std.specs.Prelude.{◌≡◌, ◌<◌, [], ◌∷◌, length, MatchResult};
ghost use Rattle.std.specs.List.{slice_get};
ghost use Rattle.std.specs.List.Sorted.{IsNonDecreasingBy};
ghost use Rattle.slots.specs.Slots.{items, spare, last_time, LastIsLatest, append_answer, Appends, Extends, First, first_place};

use super::SlotList;
use super::refusal::Refusal;
use super::timed::Timed;

impl<'a, T> SlotList<'a, T> {
    /// An empty list over the caller's slots.
    pub fn new(slots: &'a mut [T]) -> SlotList<'a, T>
        ensures empty { items result ≡ [] }
        ensures spare { spare result ≡ slots.old }
        ensures lent { result.slots.ghost_name ≡ slots.entry.ghost_name }
    {
        SlotList { slots, len: 0 }
    }

    /// How many records there are.
    pub fn len(&self) -> usize
        ensures { result ≡ length (items self.now) }
    {
        self.as_slice().len()
    }

    /// How many more records fit.
    pub fn free(&self) -> usize
        ensures { result ≡ length (spare self.now) }
    {
        self.slots.len() - self.len
    }

    /// The records, where they lie.
    pub fn as_slice(&self) -> &[T]
        ensures { result.now ≡ items self.now }
    {
        &self.slots[..self.len]
    }

    /// Gives the slots back as they are, with the number of records.
    pub fn into_slots(self) -> (&'a mut [T], usize)
        ensures slots { result.0.now ≡ self.entry.slots.now }
        ensures lent { result.0.ghost_name ≡ self.entry.slots.ghost_name }
        ensures count { result.1 ≡ length (items self.entry) }
    {
        let SlotList { slots, len } = self;
        (slots, len)
    }
}

impl<'a, T: Copy> SlotList<'a, T> {
    /// The record at a place, counted from 0.
    pub fn get(&self, place: usize) -> Option<T>
        ensures { result ≡ slice_get (items self.now) place }
    {
        self.as_slice().get(place).copied()
    }

    // Takes the first spare slot. Only `append` may add, so that the ticks never fall.
    fn put(&mut self, item: T)
        requires { 0 < length (spare self.old) }
        ensures { Appends self.old self.new (item ∷ []) }
    {
        self.slots[self.len] = item;
        self.len += 1;
    }
}

impl<'a, T: Timed + Copy> SlotList<'a, T> {
    /// The tick of the last record, 0 where there is none.
    pub fn last_tick(&self) -> u32
        ensures value { result ≡ last_time T.Timed.time (items self.now) }
        ensures latest { LastIsLatest T.Timed.time (items self.now) }
    {
        self.as_slice().last().map_or(0, T::tick)
    }

    /// Adds a record at the end. `NoSlot` where every slot is taken, and then `Earlier` where its
    /// tick is before the last record's; a refused append changes nothing.
    pub fn append(&mut self, item: T) -> Result<(), Refusal>
        ensures answer { result
            ≡ append_answer T.Timed.time (items self.old) (spare self.old) item }
        ensures after { MatchResult result
            (λ _. Appends self.old self.new (item ∷ [])) (λ _. self.new ≡ self.old) }
        ensures extends { Extends self.old self.new }
        ensures rises { IsNonDecreasingBy T.Timed.time (items self.old)
            → IsNonDecreasingBy T.Timed.time (items self.new) }
    {
        if self.free() == 0 {
            return Err(Refusal::NoSlot);
        }
        if item.tick() < self.last_tick() {
            return Err(Refusal::Earlier);
        }
        self.put(item);
        Ok(())
    }

    /// The first place with a tick no earlier than `tick`. A scan from the front: the ticks may
    /// stand in any order.
    pub fn first_at_or_after(&self, tick: u32) -> Option<usize>
        ensures place { result ≡ first_place T.Timed.time tick (items self.now) }
        ensures first { First T.Timed.time tick (items self.now) result }
    {
        self.as_slice().iter().position(|item| tick <= item.tick())
    }
}
