ghost use Rattle.std.specs.Prelude.{◌≡◌, ◌+◌, ◌^◌, ◌<◌, true, length, is_ok, if◌then◌else◌};
ghost use Rattle.markup.specs.Held.{output_state, with_text_that_fits, with_less_room, has_room};

use text::bytes::put;

/// Lent bytes, written from the first on, with some of them set aside for the closings of what is
/// open.
#[derive(Drop)]
pub struct Output<'a, C> {
    /// What is written, and behind it what was there before.
    pub bytes: &'a mut [u8],
    /// How many bytes are written.
    pub at: usize,
    /// How many bytes are neither written nor set aside.
    pub room: usize,
    /// What its user counts of it.
    pub counts: C,
}

/// What an element answers that did not fit: nothing more is to be written but closings.
#[derive(Clone, Copy, Debug, PartialEq, Eq)]
pub struct Cut;

impl<C> Output<'_, C> {
    /// For text that bytes were set aside for; past the last byte nothing is written.
    pub fn write(&mut self, text: &[u8])
        ensures after { output_state self.new ≡ with_text_that_fits (output_state self.old) text.now }
        ensures end { (output_state self.new).at < 2 ^ 64 }
        ensures counts { self.new.counts ≡ self.old.counts }
    {
        self.at = put(self.bytes, self.at, text);
    }

    /// The opening of an element, if it fits with so many bytes of closing, which are set aside.
    pub fn begin(&mut self, opening: &[u8], closing: usize) -> Result<(), Cut>
        ensures room { is_ok result ≡ has_room (output_state self.old) opening.now closing }
        ensures after { output_state self.new ≡ (if is_ok result
            then with_text_that_fits
            (with_less_room (output_state self.old) (length opening.now + closing)) opening.now
            else output_state self.old) }
        ensures end { is_ok result ≡ true → (output_state self.new).at < 2 ^ 64 }
        ensures counts { self.new.counts ≡ self.old.counts }
    {
        let size = opening.len();
        if closing > self.room || size > self.room - closing {
            return Err(Cut);
        }
        self.room -= size + closing;
        self.write(opening);
        Ok(())
    }
}
