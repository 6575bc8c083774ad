//! The words after the program's name, as the system hands them over.

use std::env::{Env, FillError};

/// The status where memory was refused before the call.
pub const NO_MEMORY: u8 = 5;

/// The status where the system did not hand over the words.
pub const NO_WORDS: u8 = 9;

/// How often the room for a word is doubled. No system hands over a word of 2^40 bytes.
const DOUBLINGS: u32 = 32;

/// The words after the program's name, or the status with which to end. A word that is not UTF-8 is none that the program
/// knows, and no form of words has one: then there are no words at all. The program's name is not read.
pub fn read_words<R: Env + AllocGlobal>(rt: &R) -> Result<Vec<String>, u8> {
    let mut words = Vec::new(rt.alloc());
    for number in 1..usize::MAX {
        let Some(bytes) = word_bytes(rt, number)? else {
            return Ok(words);
        };
        let Ok(word) = String::from_utf8(bytes) else {
            return Ok(Vec::new(rt.alloc()));
        };
        if words.push(word).is_err() {
            return Err(NO_MEMORY);
        }
    }
    Err(NO_WORDS)
}

/// The bytes of the word with this number, or None behind the last one.
fn word_bytes<R: Env + AllocGlobal>(rt: &R, number: usize) -> Result<Option<Vec<u8>>, u8> {
    let mut room = 256;
    for _ in 0..DOUBLINGS {
        let Ok(mut bytes) = vec![in rt.alloc(); 0u8; room] else {
            return Err(NO_MEMORY);
        };
        match rt.arg(number, bytes.as_mut_slice()) {
            Ok(length) => {
                bytes.truncate(length);
                return Ok(Some(bytes));
            }
            Err(FillError::NotPresent) => return Ok(None),
            Err(FillError::TooLong) => room *= 2,
        }
    }
    Err(NO_WORDS)
}

#[cfg(test)]
mod tests {
    use super::*;
    use std::test::Fail;

    /// A system that hands over these words, and nothing else.
    #[derive(Drop)]
    struct Words {
        words: &'static [&'static [u8]],
    }

    impl Env for Words {
        fn arg(&self, i: usize, buf: &mut [u8]) -> Result<usize, FillError> {
            let Some(word) = self.words.get(i) else {
                return Err(FillError::NotPresent);
            };
            if word.len() > buf.len() {
                return Err(FillError::TooLong);
            }
            buf[..word.len()].copy_from_slice(word);
            Ok(word.len())
        }

        fn var(&self, _name: &str, _buf: &mut [u8]) -> Result<usize, FillError> {
            Err(FillError::NotPresent)
        }

        fn var_at(&self, _i: usize, _buf: &mut [u8]) -> Result<usize, FillError> {
            Err(FillError::NotPresent)
        }
    }

    const LONG: [u8; 300] = [b'f'; 300];

    // Each row has the words with the program's name first, and how many words are read, with their bytes in all.
    #[test]
    fn words_that_are_read(rt: HostRuntime) -> Result<(), Fail> {
        let rows: [(&[&[u8]], usize, usize); 5] = [
            (&[b"dic", b"check", b"F"], 2, 6),
            (&[b"dic"], 0, 0),
            (&[b"d\xff", b"check", b"F"], 2, 6),
            (&[b"dic", b"check", b"\xff"], 0, 0),
            (&[b"dic", b"check", &LONG], 2, 305),
        ];
        for (words, many, bytes) in rows {
            let system = (Words { words }, rt.alloc());
            let Ok(found) = read_words(&system) else {
                return Err(Fail::new("no words"));
            };
            assert_eq!(rt; found.len(), many);
            let mut length = 0usize;
            for word in &found {
                length = length.saturating_add(word.len());
            }
            assert_eq!(rt; length, bytes);
        }
        Ok(())
    }
}
