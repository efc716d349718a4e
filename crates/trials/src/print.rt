// What the programs print. Standard output lies outside of every contract, and nothing is answered but that a write failed, so each
// routine promises no more than that it ends.
use slots::answer::Answer;
use std::io;
use std::io::Stdout;

// Words.
pub fn say(stdout: Stdout, words: &[u8]) -> io::Result<()> {
    stdout.write_all(words)
}

// Words, and a hash or a key behind them.
pub fn name(stdout: Stdout, words: &[u8], value: u64) -> io::Result<()> {
    say(stdout, words)?;
    stdout.print(value)
}

// Words, and a number behind them.
pub fn number(stdout: Stdout, words: &[u8], value: u32) -> io::Result<()> {
    name(stdout, words, value as u64)
}

// One line to an answer, so that a line that differs names its call: a label, what was answered, and its number.
pub fn line(stdout: Stdout, label: &[u8], words: &[u8], value: u32) -> io::Result<()> {
    say(stdout, label)?;
    number(stdout, words, value)?;
    say(stdout, b"\n")
}

// One line to a figure.
pub fn figure(stdout: Stdout, label: &[u8], value: u32) -> io::Result<()> {
    line(stdout, label, b" ", value)
}

// A value behind its word, or the word for none.
fn value_or(stdout: Stdout, word: &[u8], none: &[u8], value: Option<u32>) -> io::Result<()> {
    match value {
        Some(given) => number(stdout, word, given),
        None => say(stdout, none),
    }
}

// A refusal is printed by its number, so that it can be held against the rules, and the slot that comes with it, if any.
fn refusal(stdout: Stdout, answer: Answer) -> io::Result<()> {
    let slot = answer.value;
    number(stdout, b"no ", answer.number)?;
    value_or(stdout, b" at ", b"", slot)
}

// An answer behind its label: a refusal, the value behind its word, or the word for none.
pub fn answer_or(
    stdout: Stdout,
    label: &[u8],
    word: &[u8],
    none: &[u8],
    answer: Answer,
) -> io::Result<()> {
    say(stdout, label)?;
    if answer.number == 0 {
        return value_or(stdout, word, none, answer.value);
    }
    refusal(stdout, answer)
}

// An answer behind its label: a refusal, or the word, and the value that comes with it, if any.
pub fn answer(stdout: Stdout, label: &[u8], word: &[u8], answer: Answer) -> io::Result<()> {
    answer_or(stdout, label, word, word, answer)
}

// A verdict behind its label: yes, no, or the number of a refusal behind its word.
pub fn verdict(stdout: Stdout, label: &[u8], refused: &[u8], answer: Answer) -> io::Result<()> {
    say(stdout, label)?;
    match answer.value {
        Some(1) => say(stdout, b"yes"),
        Some(_) => say(stdout, b"no"),
        None => number(stdout, refused, answer.number),
    }
}
