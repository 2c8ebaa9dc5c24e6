// A finished line, as it is handed out.
ghost use Rattle.std.specs.Prelude.{◌≡◌, ◌≤◌, take};

// How many bytes a line has room for.
pub(crate) const SIZE: usize = 128;

/// A line as a table of bytes, of which the first `len` are its text.
///
/// `Line::into_bytes` makes the others 0.
#[derive(Clone, Copy, Debug, PartialEq, Eq)]
pub struct LineBytes {
    /// The text, and what stands behind it.
    pub bytes: [u8; SIZE],
    /// How many bytes the text has.
    pub len: usize,
    ghost within: { len ≤ 128 },
}

impl LineBytes {
    /// The text alone.
    pub fn as_slice(&self) -> &[u8]
        ensures { result.now ≡ take self.now.len self.now.bytes }
    {
        &self.bytes[..self.len]
    }
}
