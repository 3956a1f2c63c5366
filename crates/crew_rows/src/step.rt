//! A call of a row: a name, and words behind it.

/// The name of a call, and the first three words behind it, empty where there are none.
#[derive(Clone, Copy)]
pub struct Step<'a> {
    pub name: &'a str,
    words: [&'a str; 3],
}

impl<'a> Step<'a> {
    /// What blanks part in a line.
    pub fn read(line: &'a str) -> Step<'a> {
        let mut words = line.split(' ');
        let name = words.next().unwrap_or("");
        let first = words.next().unwrap_or("");
        let second = words.next().unwrap_or("");
        let third = words.next().unwrap_or("");
        Step {
            name,
            words: [first, second, third],
        }
    }

    /// A word.
    pub fn word(&self, place: usize) -> &'a str {
        self.words.get(place).copied().unwrap_or("")
    }

    /// A number, 0 where the word is none.
    pub fn byte(&self, place: usize) -> u8 {
        self.word(place).parse::<u8>().unwrap_or(0)
    }

    /// A number, 0 where the word is none.
    pub fn short(&self, place: usize) -> u16 {
        self.word(place).parse::<u16>().unwrap_or(0)
    }

    /// A number, 0 where the word is none.
    pub fn long(&self, place: usize) -> u32 {
        self.word(place).parse::<u32>().unwrap_or(0)
    }

    /// A number, 0 where the word is none.
    pub fn huge(&self, place: usize) -> u64 {
        self.word(place).parse::<u64>().unwrap_or(0)
    }
}
