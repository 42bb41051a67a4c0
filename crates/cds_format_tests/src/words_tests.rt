//! Tests of the words of the command line, over arguments that they make.

ghost use Rattle.std.specs.Io.{WritesAtMost};

use crate::made::MEMORY;
use cds_base::Text;
use cds_system::read_words;
use std::alloc::Global;
use std::env::{Env, FillError};
use std::process::Abort;

/// The arguments of a program, the first of which is its name. It has no variables.
#[derive(Drop)]
struct Arguments {
    bytes: &'static [&'static [u8]],
}

impl Env for Arguments {
    fn arg(&self, i: usize, buf: &mut [u8]) -> Result<usize, FillError> {
        match self.bytes.get(i) {
            Some(bytes) => put(bytes, buf),
            None => Err(FillError::NotPresent),
        }
    }

    fn var(&self, _name: &str, _buf: &mut [u8]) -> Result<usize, FillError> {
        Err(FillError::NotPresent)
    }

    fn var_at(&self, _i: usize, _buf: &mut [u8]) -> Result<usize, FillError> {
        Err(FillError::NotPresent)
    }
}

/// Copies bytes to the beginning of a buffer, if it has room for them. Returns how many they are.
fn put(bytes: &[u8], buf: &mut [u8]) -> Result<usize, FillError>
    ensures { WritesAtMost result buf.new }
{
    let count = bytes.len();
    if count > buf.len() {
        return Err(FillError::TooLong);
    }
    buf[..count].copy_from_slice(bytes);
    Ok(count)
}

/// Arguments, and the words that are read.
#[derive(Drop)]
struct WordsCase {
    name: &'static str,
    arguments: &'static [&'static [u8]],
    words: &'static [&'static [u8]],
}

/// A word of 300 bytes.
const LONG: &[u8] = &[b'a'; 300];

const CASES: [WordsCase; 6] = [
    WordsCase {
        name: "no arguments",
        arguments: &[],
        words: &[],
    },
    WordsCase {
        name: "the program's name alone",
        arguments: &[b"cds"],
        words: &[],
    },
    WordsCase {
        name: "two words",
        arguments: &[b"cds", b"scan", b"my music"],
        words: &[b"scan", b"my music"],
    },
    WordsCase {
        name: "an empty word, and one beyond ASCII",
        arguments: &[b"cds", b"", b"\xC3\xA4"],
        words: &[b"", b"\xC3\xA4"],
    },
    WordsCase {
        name: "a long word",
        arguments: &[b"cds", LONG, b"b"],
        words: &[LONG, b"b"],
    },
    WordsCase {
        name: "an argument that is no text",
        arguments: &[b"cds", b"scan", b"\xFF"],
        words: &[],
    },
];

/// Checks that words are those of a case.
fn check_words<R: Abort>(rt: &R, words: &[Text], case: &WordsCase) {
    for (word, want) in words.iter().zip(case.words) {
        let word = word.as_str();
        assert!(rt; word.as_bytes() == *want, "{}: {word}", case.name);
    }
    assert!(rt; words.len() == case.words.len(), "{}: how many", case.name);
}

/// Checks the words that are read of the arguments of a case.
fn check_case<R: Abort>(rt: &R, alloc: Global, case: &WordsCase) {
    let arguments = Arguments {
        bytes: case.arguments,
    };
    let words = read_words(&(arguments, alloc), alloc).expect(rt, MEMORY);
    check_words(rt, words.as_slice(), case);
}

#[test]
fn words_are_the_arguments_after_the_first(rt: HostRuntime) {
    for case in &CASES {
        check_case(&rt, rt.alloc(), case);
    }
}

/// Checks that there is one word, and that it ends with this text.
fn check_end<R: Abort>(rt: &R, words: &[Text], end: &str) {
    assert!(rt; words.len() == 1, "{} words", words.len());
    for word in words {
        let word = word.as_str();
        assert!(rt; word.ends_with(end), "{word}");
    }
}

/// A test runs in a process of its own, whose word is its name.
#[test]
fn the_word_of_a_test_is_its_name(rt: HostRuntime) {
    let words = read_words(&rt, rt.alloc()).expect(&rt, MEMORY);
    check_end(&rt, words.as_slice(), "the_word_of_a_test_is_its_name");
}
