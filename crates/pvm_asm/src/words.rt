// The lines of a text, and the words of a line.
ghost use Rattle.std.specs.Prelude.{◌≡◌, ◌∷◌, [], true, false, ◌-◌, ℕ, List, Bool, not, ◌==◌, ◌≤◌, ◌<◌, ◌+◌, length, map, take, drop, MatchOption, if◌then◌else◌};
ghost use Rattle.std.specs.List.{position, position_or_len, list_all};
ghost use Rattle.pvm_asm.specs.Words.{is_blank, pieces, without_return, lines_of, uncommented, unpadded, first_word, after_word, only_word, operands_of, only_operand, is_letter, is_label_byte, is_label, is_label_mark};

use std::marker::Model;

fn first_place(bytes: &[u8], mark: u8) -> Option<usize>
    ensures { result ≡ position (λ b. b == mark) bytes.now }
{
    bytes.iter().position(|b| *b == mark)
}

// How many bytes stand before the first that is `mark`; all where there is none.
#[tactic(auto, using(crate::proofs::Pieces::place_or_end))]
fn place_of(bytes: &[u8], mark: u8) -> usize
    ensures value { result ≡ position_or_len (λ b. b == mark) bytes.now }
    ensures bound { result ≤ length bytes.now }
{
    first_place(bytes, mark).unwrap_or(bytes.len())
}

fn is_blank(byte: u8) -> bool
    ensures { result ≡ is_blank byte }
{
    byte == b' ' || byte == b'\t'
}

fn first_blank(bytes: &[u8]) -> Option<usize>
    ensures { result ≡ position is_blank bytes.now }
{
    bytes.iter().position(|b| is_blank(*b))
}

fn first_other(bytes: &[u8]) -> Option<usize>
    ensures { result ≡ position (λ b. not (is_blank b)) bytes.now }
{
    bytes.iter().position(|b| !is_blank(*b))
}

#[tactic(auto, using(crate::proofs::Pieces::place_or_end))]
fn place_of_blank(bytes: &[u8]) -> usize
    ensures value { result ≡ position_or_len is_blank bytes.now }
    ensures bound { result ≤ length bytes.now }
{
    first_blank(bytes).unwrap_or(bytes.len())
}

#[tactic(auto, using(crate::proofs::Pieces::place_or_end))]
fn place_of_word(bytes: &[u8]) -> usize
    ensures value { result ≡ position_or_len (λ b. not (is_blank b)) bytes.now }
    ensures bound { result ≤ length bytes.now }
{
    first_other(bytes).unwrap_or(bytes.len())
}

/// What stands before a comment.
pub fn uncommented(line: &[u8]) -> &[u8]
    ensures { result.now ≡ uncommented line.now }
{
    &line[..place_of(line, b'#')]
}

/// The bytes from the first that is no blank on.
pub fn unpadded(bytes: &[u8]) -> &[u8]
    ensures { result.now ≡ unpadded bytes.now }
{
    &bytes[place_of_word(bytes)..]
}

/// The word at the front, and what stands after it.
pub fn split_word(bytes: &[u8]) -> (&[u8], &[u8])
    ensures first { result.0.now ≡ first_word bytes.now }
    ensures rest { result.1.now ≡ after_word bytes.now }
{
    bytes.split_at(place_of_blank(bytes))
}

// The one word of some bytes; none where they have none, or more than one.
fn only_word(bytes: &[u8]) -> &[u8]
    ensures { result.now ≡ only_word bytes.now }
{
    let (word, rest) = split_word(unpadded(bytes));
    if unpadded(rest).is_empty() { word } else { &[] }
}

// A line without the carriage return before its line feed.
fn without_return(line: &[u8]) -> &[u8]
    ensures { result.now ≡ without_return line.now }
{
    let end = line.len();
    if end > 0 && line[end - 1] == b'\r' {
        &line[..end - 1]
    } else {
        line
    }
}

// What stands before and after a mark.
fn split_around(text: &[u8], mark: usize) -> (&[u8], &[u8])
    requires { mark < length text.now }
    ensures before { result.0.now ≡ take mark text.now }
    ensures after { result.1.now ≡ drop (mark + 1) text.now }
{
    (&text[..mark], &text[mark + 1..])
}

/// The lines of a text that are left.
#[derive(Drop)]
pub struct Lines<'a> {
    text: &'a [u8],
    done: bool,
}

impl<'a> Model for Lines<'a> {
    ghost use Rattle.std.specs.Prelude.{ℕ, List, [], if◌then◌else◌};
    ghost use Rattle.pvm_asm.specs.Words.{lines_of};

    ghost Value = { List (List ℕ) };

    ghost view = { λ l. if l.done then [] else lines_of l.text.now };
}

impl<'a> Lines<'a> {
    /// All lines of a text.
    pub fn new(text: &'a [u8]) -> Lines<'a>
        ensures { result ≡ lines_of text.now }
    {
        Lines { text, done: false }
    }

    /// The next line, without what ends it.
    #[tactic(auto, using(crate::proofs::Pieces::lines_split, crate::proofs::Pieces::lines_last))]
    pub fn next(&mut self) -> Option<&'a [u8]>
        ensures { MatchOption result (self.old ≡ []) (λ line. self.old ≡ line.now ∷ self.new) }
    {
        if self.done {
            return None;
        }
        let text = self.text;
        let end = place_of(text, b'\n');
        if end == text.len() {
            self.done = true;
            return Some(text);
        }
        let (line, rest) = split_around(text, end);
        *self = Lines {
            text: rest,
            done: false,
        };
        Some(without_return(line))
    }
}

/// The operands of a statement that are left.
#[derive(Drop)]
pub struct Operands<'a> {
    text: &'a [u8],
    done: bool,
}

impl<'a> Model for Operands<'a> {
    ghost use Rattle.std.specs.Prelude.{ℕ, List, [], map, if◌then◌else◌};
    ghost use Rattle.pvm_asm.specs.Words.{pieces, only_word};

    ghost Value = { List (List ℕ) };

    ghost view = { λ o. if o.done then [] else map only_word (pieces 44 o.text.now) };
}

impl<'a> Operands<'a> {
    /// All operands in what stands after a statement's name.
    pub fn new(text: &'a [u8]) -> Operands<'a>
        ensures { result ≡ operands_of text.now }
    {
        let text = unpadded(text);
        Operands {
            text,
            done: text.is_empty(),
        }
    }

    /// The next operand.
    #[tactic(auto, using(crate::proofs::Pieces::operands_split, crate::proofs::Pieces::operands_last))]
    pub fn next(&mut self) -> Option<&'a [u8]>
        ensures { MatchOption result (self.old ≡ []) (λ operand. self.old ≡ operand.now ∷ self.new) }
    {
        if self.done {
            return None;
        }
        let text = self.text;
        let end = place_of(text, b',');
        if end == text.len() {
            self.done = true;
            return Some(only_word(text));
        }
        let (operand, rest) = split_around(text, end);
        *self = Operands {
            text: rest,
            done: false,
        };
        Some(only_word(operand))
    }

    /// The one operand of a statement; no byte where there are none, or several.
    pub fn only(self) -> &'a [u8]
        ensures { result.now ≡ only_operand self.entry }
    {
        let mut left = self;
        match left.next() {
            None => &[],
            Some(operand) => match left.next() {
                None => operand,
                Some(_) => &[],
            },
        }
    }

    /// Whether no operand is left.
    #[tactic(auto, using(crate::proofs::Pieces::operands_some))]
    pub fn is_empty(&self) -> bool
        ensures { result ≡ (length self.now == 0) }
    {
        self.done
    }
}

fn is_letter(byte: u8) -> bool
    ensures { result ≡ is_letter byte }
{
    matches!(byte, b'A'..=b'Z' | b'a'..=b'z')
}

fn is_label_byte(byte: u8) -> bool
    ensures { result ≡ is_label_byte byte }
{
    is_letter(byte) || matches!(byte, b'0'..=b'9' | b'_')
}

fn are_label_bytes(word: &[u8]) -> bool
    ensures { result ≡ list_all is_label_byte word.now }
{
    word.iter().all(|b| is_label_byte(*b))
}

/// Whether a word is a label: letters, digits and `_`, of which the first is a letter.
pub fn is_label(word: &[u8]) -> bool
    ensures { result ≡ is_label word.now }
{
    match word {
        [] => false,
        [first, ..] => is_letter(*first) && are_label_bytes(word),
    }
}

/// The label of a word that is a label and a colon.
pub fn marked_label(word: &[u8]) -> Option<&[u8]>
    ensures { MatchOption result (is_label_mark word.now ≡ false) (λ label. (is_label_mark word.now ≡ true) × (label.now ≡ take (length word.now - 1) word.now)) }
{
    let end = word.len();
    if end > 0 && word[end - 1] == b':' && is_label(&word[..end - 1]) {
        Some(&word[..end - 1])
    } else {
        None
    }
}
