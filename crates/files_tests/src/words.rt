//! The words of a command line, as the system hands them over.
use jam_files::words_after_name;
use std::alloc::Global;
use std::env::{Env, FillError};
use std::io::ErrorKind;

// A command line: the program's name, and the words.
#[derive(Drop)]
struct Line<'a> {
    words: &'a [&'a [u8]],
}

impl Env for Line<'_> {
    fn arg(&self, i: usize, buf: &mut [u8]) -> Result<usize, FillError> {
        match self.words.get(i) {
            None => Err(FillError::NotPresent),
            Some(word) if word.len() > buf.len() => Err(FillError::TooLong),
            Some(word) => {
                buf[..word.len()].copy_from_slice(word);
                Ok(word.len())
            }
        }
    }

    fn var(&self, _name: &str, _buf: &mut [u8]) -> Result<usize, FillError> {
        Err(FillError::NotPresent)
    }

    fn var_at(&self, _i: usize, _buf: &mut [u8]) -> Result<usize, FillError> {
        Err(FillError::NotPresent)
    }
}

fn is_word(words: &[String], place: usize, wanted: &[u8]) -> bool {
    match words.get(place) {
        Some(word) => word.as_bytes() == wanted,
        None => false,
    }
}

fn are_words(words: &[String], wanted: &[&[u8]]) -> bool {
    for (place, word) in wanted.iter().enumerate() {
        if !is_word(words, place, word) {
            return false;
        }
    }
    words.len() == wanted.len()
}

// Whether a line of these words gives the wanted ones.
fn gives(alloc: Global, words: &[&[u8]], wanted: &[&[u8]]) -> bool {
    let line = Line { words };
    match words_after_name(&line, alloc) {
        Ok(given) => are_words(&given, wanted),
        Err(_) => false,
    }
}

// Whether a line of these words is refused as no text.
fn is_no_text(alloc: Global, words: &[&[u8]]) -> bool {
    let line = Line { words };
    match words_after_name(&line, alloc) {
        Ok(_) => false,
        Err(e) => e.kind() == ErrorKind::InvalidData,
    }
}

#[test]
fn every_word_after_the_name_is_given(rt: HostRuntime) {
    let long = [b'w'; 1_000];
    let words: [&[u8]; 9] = [
        b"\xff\xfe",
        b"one",
        b"",
        b"three",
        b"four",
        b"five",
        b"six",
        b"seven",
        &long,
    ];
    assert!(rt; gives(rt.alloc(), &words, &words[1..]));
}

#[test]
fn a_name_alone_has_no_words(rt: HostRuntime) {
    assert!(rt; gives(rt.alloc(), &[], &[]));
    assert!(rt; gives(rt.alloc(), &[b"name"], &[]));
}

#[test]
fn a_word_that_is_no_text_is_refused(rt: HostRuntime) {
    assert!(rt; is_no_text(rt.alloc(), &[b"name", b"one", b"t\xffo"]));
}
