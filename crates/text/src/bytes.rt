// One write into lent bytes.
ghost use Rattle.std.specs.Prelude.{◌≡◌, ◌+◌, length, if◌then◌else◌};
ghost use Rattle.text.specs.Bytes.{fits, with_text_at};

/// Writes `text` from place `at` on and answers where it ends; where it does not fit, writes
/// nothing and answers `at`. So the next text goes on from the answer in either case.
pub fn put(out: &mut [u8], at: usize, text: &[u8]) -> usize
    ensures after { out.new ≡ (if fits out.old at text.now
        then with_text_at out.old at text.now else out.old) }
    ensures end { result ≡ (if fits out.old at text.now then at + length text.now else at) }
{
    let Some(end) = at.checked_add(text.len()).filter(|end| *end <= out.len()) else {
        return at;
    };
    out[at..end].copy_from_slice(text);
    end
}
