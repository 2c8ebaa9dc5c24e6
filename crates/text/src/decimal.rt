// Numbers in decimal, without leading zeros.
ghost use Rattle.std.specs.Prelude.{◌≡◌, ◌<◌, length, drop, decimal};
ghost use Rattle.text.specs.Numeral.{Writes};

// How many digits a 64-bit number has at most.
const DIGITS: usize = 20;

// The digits stand at the end of the bytes, from place `first` on.
#[derive(Clone, Copy)]
pub(crate) struct Numeral {
    bytes: [u8; DIGITS],
    first: usize,
    ghost within: { first < 20 },
    ghost long: { length bytes ≡ 20 },
}

impl Numeral {
    pub(crate) fn as_slice(&self) -> &[u8]
        ensures { result.now ≡ drop self.now.first self.now.bytes }
    {
        &self.bytes[self.first..]
    }
}

// The digits of `n`, built from the back; 0 is one digit.
pub(crate) fn digits(n: u64) -> Numeral
    ensures text { drop result.first result.bytes ≡ decimal n }
    ensures writes { Writes n (drop result.first result.bytes) }
{
    let mut bytes = [b'0'; DIGITS];
    let mut first = 19;
    bytes[19] = b'0' + (n % 10) as u8;
    let mut rest = n / 10;
    while rest > 0 {
        first -= 1;
        bytes[first] = b'0' + (rest % 10) as u8;
        rest /= 10;
    }
    Numeral { bytes, first }
}
