// Bytes read from the front on. Every reading is total: past the end a byte is 0, and what is left is nothing.
ghost use Rattle.std.specs.Prelude.{◌<◌};

use item_words::{make_item, write_item};
use query_item::{ItemWords, KeyAt};

// What is left to be read.
#[derive(Clone, Copy)]
pub struct Reader<'a> {
    left: &'a [u8],
}

impl<'a> Reader<'a> {
    pub fn new(bytes: &'a [u8]) -> Reader<'a> {
        Reader { left: bytes }
    }

    // Whether one byte is left, and which. No reading has passed the end then.
    pub fn is_last(self, byte: u8) -> bool {
        (self.left.len() == 1) && (self.left[0] == byte)
    }

    pub fn byte(&mut self) -> u8 {
        let Some((first, rest)) = self.left.split_first() else {
            return 0;
        };
        self.left = rest;
        *first
    }

    pub fn flag(&mut self) -> bool {
        self.byte() != 0
    }

    // The number of 2 bytes.
    pub fn short(&mut self) -> u32
        ensures { result < 65536 }
    {
        256 * u32::from(self.byte()) + u32::from(self.byte())
    }

    // The number of 4 bytes.
    pub fn word(&mut self) -> u32
        ensures { result < 4294967296 }
    {
        65536 * self.short() + self.short()
    }

    // The number of 8 bytes.
    pub fn long(&mut self) -> u64 {
        4294967296 * u64::from(self.word()) + u64::from(self.word())
    }

    // So many bytes, or those that there are.
    pub fn part(&mut self, n: usize) -> &'a [u8] {
        let (part, rest) = self.left.split_at(n.min(self.left.len()));
        self.left = rest;
        part
    }

    // The bytes of a block.
    pub fn block(&mut self) -> &'a [u8] {
        let n = self.word() as usize;
        self.part(n)
    }

    // The bytes of a key.
    pub fn key(&mut self) -> &'a [u8] {
        let n = self.short() as usize;
        self.part(n)
    }

    fn key_at(&mut self) -> KeyAt {
        let offset = self.short();
        let length = self.short();
        KeyAt { offset, length }
    }

    // An item that is given.
    pub fn item(&mut self) -> ItemWords {
        let code = u32::from(self.byte());
        let wrapper = u32::from(self.byte());
        let start = self.key_at();
        let end = self.key_at();
        make_item(code, wrapper, start, end)
    }

    // Items, after their number in 2 bytes: writes them to the front of words, those that have room, and answers how many they are.
    pub fn items(&mut self, words: &mut [u32]) -> usize
        ensures { result < 65536 }
    {
        let count = self.short() as usize;
        for i in 0..count {
            write_item(words, i, self.item());
        }
        count
    }

    // The same of numbers of 8 bytes.
    pub fn numbers(&mut self, words: &mut [u64]) -> usize
        ensures { result < 65536 }
    {
        let count = self.short() as usize;
        for i in 0..count {
            let n = self.long();
            if let Some(word) = words.get_mut(i) {
                *word = n;
            }
        }
        count
    }
}
