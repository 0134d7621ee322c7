// A line as words between gaps of spaces and tabs, and what a word says.
ghost use Rattle.std.specs.Prelude.{◌≡◌, ℕ, ◌+◌, ◌≤◌, not, List, Option, length, IfSome};
ghost use Rattle.std.specs.List.{prefix_len};
ghost use Rattle.std.specs.Str.{bytes_eq};
ghost use Rattle.scripting.specs.Words.{is_gap, first_word, after_word};
ghost use Rattle.scripting.specs.Numerals.{numeral};
ghost use Rattle.scripting.specs.Readings.{is_empty, ended, last_in};

// The words of a line that are still to be read.
#[derive(Clone, Copy, Drop)]
pub struct Words<'a> {
    rest: &'a [u8],
}

// What one word can say.
pub trait FromWord: Sized {
    ghost says: { List ℕ → Option Self };

    fn from_word(word: &[u8]) -> Option<Self>
        ensures { result ≡ says word.now };
}

// Whether a word is that name. A match on the names would leave a goal for each byte in which a word may differ.
pub fn is(word: &[u8], name: &[u8]) -> bool
    ensures { result ≡ bytes_eq word.now name.now }
{
    word == name
}

fn is_gap(byte: u8) -> bool
    ensures { result ≡ is_gap byte }
{
    byte == b' ' || byte == b'\t'
}

// How many gap bytes the line begins with.
fn gap(bytes: &[u8]) -> usize
    ensures { result ≡ prefix_len is_gap bytes.now }
{
    bytes.iter().take_while(|byte| is_gap(**byte)).count()
}

// How many bytes come before the next gap.
fn run(bytes: &[u8]) -> usize
    ensures { result ≡ prefix_len (λ b. not (is_gap b)) bytes.now }
{
    bytes.iter().take_while(|byte| !is_gap(**byte)).count()
}

impl<'a> Words<'a> {
    pub fn of(line: &'a [u8]) -> Words<'a>
        ensures { result.rest.now ≡ line.now }
    {
        Words { rest: line }
    }

    // The next word; an empty one where the line ends. Words are read one by one, and one loop alone takes all that are
    // left: the laws of an iterator would be longer than what they save.
    pub(crate) fn next(&mut self) -> &'a [u8]
        ensures word { result.now ≡ first_word self.old.rest.now }
        ensures rest { self.new.rest.now ≡ after_word self.old.rest.now }
        ensures bound { length result.now + length self.new.rest.now ≤ length self.old.rest.now }
    {
        let (_, from) = self.rest.split_at(gap(self.rest));
        let (word, rest) = from.split_at(run(from));
        self.rest = rest;
        word
    }

    // What the next word says.
    pub fn read<T: FromWord>(&mut self) -> Option<T>
        ensures value { result ≡ T.says (first_word self.old.rest.now) }
        ensures rest { self.new.rest.now ≡ after_word self.old.rest.now }
    {
        T::from_word(self.next())
    }

    // What the next word says, if no word is left after it.
    pub fn last<T: FromWord + Drop>(&mut self) -> Option<T>
        ensures { result ≡ last_in T.says self.old.rest.now }
    {
        let value = self.read()?;
        self.end(value)
    }

    // No word is left.
    pub fn has_ended(&self) -> bool
        ensures { result ≡ is_empty (first_word self.now.rest.now) }
    {
        let mut ahead = *self;
        ahead.next().is_empty()
    }

    // That value, if no word is left.
    pub fn end<T: Drop>(&mut self, value: T) -> Option<T>
        ensures { result ≡ ended self.old.rest.now value }
    {
        self.has_ended().then_some(value)
    }
}

// The number that a word of digits writes, if it is at most so much.
fn numeral(word: &[u8], most: u64) -> Option<u64>
    ensures value { result ≡ numeral most word.now }
    ensures bound { IfSome result (λ n. n ≤ most) }
{
    if word.is_empty() {
        return None;
    }
    let mut value: u64 = 0;
    for byte in word {
        if !byte.is_ascii_digit() {
            return None;
        }
        let next = u128::from(value) * 10 + u128::from(*byte - b'0');
        if next > u128::from(most) {
            return None;
        }
        value = next as u64;
    }
    Some(value)
}

// Four short impls: one for all integers would leave no room for what else a word can say.
impl FromWord for u8 {
    ghost says = { numeral 255 };

    fn from_word(word: &[u8]) -> Option<u8> {
        Some(numeral(word, u64::from(u8::MAX))? as u8)
    }
}

impl FromWord for u16 {
    ghost says = { numeral 65535 };

    fn from_word(word: &[u8]) -> Option<u16> {
        Some(numeral(word, u64::from(u16::MAX))? as u16)
    }
}

impl FromWord for u32 {
    ghost says = { numeral 4294967295 };

    fn from_word(word: &[u8]) -> Option<u32> {
        Some(numeral(word, u64::from(u32::MAX))? as u32)
    }
}

impl FromWord for u64 {
    ghost says = { numeral 18446744073709551615 };

    fn from_word(word: &[u8]) -> Option<u64> {
        numeral(word, u64::MAX)
    }
}
