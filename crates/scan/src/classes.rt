// Classes of bytes, and the runs of them that a text begins with.
ghost use Rattle.std.specs.Prelude.{◌≡◌, ◌≤◌, length};
ghost use Rattle.std.specs.List.{prefix_len};
ghost use Rattle.rules.specs.Text.{is_note_letter, run_length, every, begins, is_text};

/// How many bytes of a run are tested one by one before whole chunks are.
const SINGLES: usize = 16;

/// How many bytes a chunk has: so many that its test is compiled to a short loop over vectors.
const CHUNK: usize = 96;

/// A class of bytes.
#[derive(Clone, Copy, Debug, PartialEq, Eq)]
pub enum Class {
    /// This byte.
    Is(u8),
    /// Each other byte.
    Not(u8),
    /// Those that continue a character.
    Continuations,
    Digits,
    /// Digits and dots.
    Durations,
    /// Those of a key's value.
    KeyBytes,
    /// Those of a meter's value.
    MeterBytes,
    Letters,
}

impl Class {
    ghost use Rattle.scan.specs.Classes.{in_class};

    /// Whether a byte is of the class.
    pub fn contains(self, byte: u8) -> bool
        ensures { result ≡ in_class self byte }
    {
        match self {
            Class::Is(other) => byte == other,
            Class::Not(other) => byte != other,
            Class::Continuations => matches!(byte, 128..=191),
            Class::Digits => byte.is_ascii_digit(),
            Class::Durations => byte.is_ascii_digit() || byte == b'.',
            Class::KeyBytes => matches!(byte, b'A'..=b'G' | b'x' | b'b' | b'n' | b'[' | b']'),
            Class::MeterBytes => byte.is_ascii_digit() || matches!(byte, b'/' | b'c' | b'.' | b'+'),
            Class::Letters => byte.is_ascii_alphabetic(),
        }
    }

    /// The same, in std's word.
    fn prefix_len(self, rest: &[u8]) -> usize
        ensures size { result ≡ prefix_len (in_class self) rest.now }
        ensures within { result ≤ length rest.now }
    {
        rest.iter().take_while(|byte| self.contains(**byte)).count()
    }

    /// Whether every byte is of the class.
    // All are tested: a loop that may stop is not compiled to one over vectors.
    #[inline(always)]
    fn holds(self, part: &[u8]) -> bool
        ensures { result ≡ every (in_class self) part.now }
    {
        let mut holds = true;
        for byte in part {
            holds &= self.contains(*byte);
        }
        holds
    }

    /// How many bytes of the class `rest` begins with: whole chunks of them, then one by one.
    #[tactic(auto, using(crate::proofs::Runs::long_runs))]
    fn long_run(self, rest: &[u8]) -> usize
        ensures size { result ≡ run_length (in_class self) rest.now }
        ensures within { result ≤ length rest.now }
    {
        let mut size = 0;
        while CHUNK <= rest.len() - size && self.holds(&rest[size..size + CHUNK]) {
            size += CHUNK;
        }
        size + self.prefix_len(&rest[size..])
    }

    /// The same: a few one by one, since most runs are short, then whole chunks.
    #[inline(always)]
    fn run_by_chunks(self, rest: &[u8]) -> usize
        ensures size { result ≡ run_length (in_class self) rest.now }
        ensures within { result ≤ length rest.now }
    {
        for size in 0..rest.len() {
            if size == SINGLES {
                return SINGLES + self.long_run(&rest[SINGLES..]);
            }
            if !self.contains(rest[size]) {
                return size;
            }
        }
        rest.len()
    }

    /// How many bytes of the class `rest` begins with.
    // Dots and durations may be thousands, and are passed again and again.
    #[tactic(auto, using(crate::proofs::Runs::prefix_len_is))]
    #[inline(always)]
    pub fn run(self, rest: &[u8]) -> usize
        ensures size { result ≡ run_length (in_class self) rest.now }
        ensures within { result ≤ length rest.now }
    {
        match self {
            Class::Is(_) | Class::Durations => self.run_by_chunks(rest),
            _ => self.prefix_len(rest),
        }
    }
}

/// Whether a byte is a letter from A to G.
pub fn is_note_letter(byte: u8) -> bool
    ensures { result ≡ is_note_letter byte }
{
    matches!(byte, b'A'..=b'G')
}

/// Whether `rest` begins with `with`: std's, in the rules' words.
#[tactic(auto, using(crate::proofs::Runs::starts_with_is))]
pub fn starts_with(rest: &[u8], with: &[u8]) -> bool
    ensures { result ≡ begins with.now rest.now }
{
    rest.starts_with(with)
}

/// Whether `value` is exactly `text`: std's `==`, in the rules' words.
#[tactic(auto, using(crate::proofs::Runs::equal_is))]
pub fn is_text(value: &[u8], text: &[u8]) -> bool
    ensures { result ≡ is_text text.now value.now }
{
    value == text
}
