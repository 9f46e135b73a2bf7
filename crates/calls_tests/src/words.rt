//! The words of a line, and the numbers, hashes and results that they name.
use std::process::Abort;

/// The word at a place of a line; the empty one past its end.
pub fn word(line: &str, place: usize) -> &str {
    let mut at = 0usize;
    for word in line.split_whitespace() {
        if at == place {
            return word;
        }
        at = at.wrapping_add(1);
    }
    ""
}

// The number of a word: decimal digits, or the name of an address in each machine, or `MAX`.
fn number_of(word: &str) -> Option<u64> {
    match word {
        "" => Some(0),
        "ABC" => Some(65_536),
        "ZEROS" => Some(65_568),
        "SEVENS" => Some(65_600),
        "K" => Some(65_632),
        "L" => Some(65_633),
        "TEXT" => Some(65_634),
        "OUT" => Some(69_632),
        "LOCKED" => Some(73_728),
        "GAP" => Some(77_824),
        "MAX" => Some(18_446_744_073_709_551_615),
        _ => match word.parse::<u64>() {
            Ok(number) => Some(number),
            Err(_) => None,
        },
    }
}

/// The number at a place of a line; 0 past its end.
pub fn number(rt: &impl Abort, line: &str, place: usize) -> u64 {
    match number_of(word(line, place)) {
        Some(number) => number,
        None => panic!(rt; "word {place} is no number: {line}"),
    }
}

/// The same for a number below 2^32.
pub fn small(rt: &impl Abort, line: &str, place: usize) -> u32 {
    match u32::try_from(number(rt, line, place)) {
        Ok(number) => number,
        Err(_) => panic!(rt; "word {place} is too great: {line}"),
    }
}

/// The hash of a name: of one byte 32 times, or the digest of a text, or by which service 1 is given another service.
pub fn hash_of(name: &str) -> [u8; 32] {
    match name {
        "zeros" => [0; 32],
        "ones" => [1; 32],
        "sevens" => [7; 32],
        "to-1" => [
            1, 0, 0, 0, 0, 0, 0, 0, 0, 0, 0, 0, 0, 0, 0, 0, 0, 0, 0, 0, 0, 0, 0, 0, 0, 0, 0, 0, 0,
            0, 0, 0,
        ],
        _ => blake2b_core::digest(name.as_bytes()),
    }
}

/// The name of a hash.
pub fn name_of_hash(hash: &[u8; 32]) -> &'static str {
    for name in ["zeros", "ones", "sevens", "to-1", "abc", "ab"] {
        if hash_of(name) == *hash {
            return name;
        }
    }
    "another"
}

/// The name of a result, by the table of results; none where the number is no result.
pub fn name_of_result(number: u64) -> Option<&'static str> {
    match number {
        18_446_744_073_709_551_615 => Some("NONE"),
        18_446_744_073_709_551_614 => Some("WHAT"),
        18_446_744_073_709_551_613 => Some("OOB"),
        18_446_744_073_709_551_612 => Some("WHO"),
        18_446_744_073_709_551_611 => Some("FULL"),
        18_446_744_073_709_551_609 => Some("CASH"),
        18_446_744_073_709_551_608 => Some("LOW"),
        18_446_744_073_709_551_607 => Some("HUH"),
        _ => None,
    }
}
