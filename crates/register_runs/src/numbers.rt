// The text of a change or a command: letters that say what it is, and numbers, with a space before each.

// What is read of a text: its last two letters and its last four numbers, of which `value` is the last. What is not there is 0. A minus sign
// anywhere makes `value` negative where a signed number is meant.
#[derive(Clone, Copy, Default)]
pub(crate) struct Words {
    pub kind: u8,
    pub field: u8,
    pub first: u64,
    pub second: u64,
    pub third: u64,
    pub value: u64,
    pub negative: bool,
}

// A number with a digit after it, and the number itself where that is none of 64 bits.
fn appended(number: u64, digit: u8) -> u64 {
    number
        .checked_mul(10)
        .and_then(|tens| tens.checked_add(u64::from(digit)))
        .unwrap_or(number)
}

// A number of a smaller type, and 0 for one that it does not hold.
pub(crate) fn narrow<T: TryFrom<u64> + Default>(number: u64) -> T
where
    <T as TryFrom<u64>>::Error: Drop,
{
    T::try_from(number).unwrap_or_default()
}

// The index of what a number from 1 on numbers.
pub(crate) fn index(number: u64) -> Option<usize> {
    usize::try_from(number.checked_sub(1)?).ok()
}

impl Words {
    // The words with one more byte: a space begins another number, and what is no digit and no sign is a letter.
    fn with(self, byte: u8) -> Self {
        match byte {
            b' ' => Words {
                first: self.second,
                second: self.third,
                third: self.value,
                value: 0,
                ..self
            },
            b'-' => Words {
                negative: true,
                ..self
            },
            b'0'..=b'9' => Words {
                value: appended(self.value, byte - b'0'),
                ..self
            },
            letter => Words {
                kind: self.field,
                field: letter,
                ..self
            },
        }
    }

    // The last number as a signed one, and the largest or the least where it is too large.
    pub(crate) fn signed(self) -> i64 {
        match (i64::try_from(self.value), self.negative) {
            (Ok(number), false) => number,
            (Ok(number), true) => -number,
            (Err(_), false) => i64::MAX,
            (Err(_), true) => i64::MIN,
        }
    }
}

impl From<&[u8]> for Words {
    fn from(text: &[u8]) -> Self {
        text.iter()
            .fold(Words::default(), |words, byte| words.with(*byte))
    }
}
