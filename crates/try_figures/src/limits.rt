// Totals and streams out of their ranges: 1, and nothing changes.
use crate::expect::TOTALS;
use crate::run::Room;
use crate::trial::{more, told};
use file::loader::Loader;
use slots::answer::Answers;
use slots::{put_word, word};
use std::io;
use std::io::Stdout;
use tally::stream::Stream;
use tally::tally::tally;

// What tally answers to a set that is refused, by its number: with no refusal 0.
// Form kept: a number, since a tally and a stream refuse by enums of their own, which have their numbers alike.
fn number_of(totals: &mut [u64]) -> u32 {
    tally(&[], &[], &[], &[], &[], totals).answer().number
}

// What a stream answers to these totals, to a set of length 0 and to an end within a set, 17 where it tells that a set came after a
// million; none where the two are answered otherwise.
fn stream_number(totals: &mut [u64]) -> Option<u32> {
    let mut room = Room::filled(0);
    let first = room.chunk(Stream::start(), totals, b"\x00\x00\x00\x00\x00");
    let last = first.stream.end(totals);
    let chunked = first.reply.answer().number;
    let ended = last.reply.answer().number;
    if chunked != ended {
        return None;
    }
    if last.stream.over {
        return Some(17);
    }
    Some(chunked)
}

// Whether these totals are refused with this number by all three calls, and stay.
fn refused_alike(totals: [u64; TOTALS], number: u32) -> u64 {
    let mut lent = totals;
    let first = number_of(&mut lent) == number;
    let then = stream_number(&mut lent) == Some(number);
    !(first && then && lent == totals) as u64
}

// Totals with so many sets and refused ones, and one word more.
fn totals_with(sets: u64, refused: u64, j: usize, value: u64) -> [u64; TOTALS] {
    let mut totals = [0u64; TOTALS];
    put_word(&mut totals, j, value);
    put_word(&mut totals, 0, sets);
    put_word(&mut totals, 1, refused);
    totals
}

// The most that word j may have after so many sets.
fn most(j: usize, sets: u64) -> u64 {
    if 1000000 < sets {
        return 0;
    }
    if j == 5 {
        return 16777216 * sets;
    }
    4096 * sets
}

// Word j at its limit is taken by tally, and one more is 1.
fn try_word(j: usize, sets: u64) -> u64 {
    let mut at_limit = totals_with(sets, 0, j, most(j, sets));
    let taken = number_of(&mut at_limit) == 0 && word(&at_limit, 1, 0) == 1;
    let past = totals_with(sets, 0, j, more(most(j, sets), 1));
    more(!taken as u64, refused_alike(past, 1))
}

// Every word from the entries on.
fn try_words(sets: u64) -> u64 {
    let mut count = 0;
    for j in 2..TOTALS {
        count = more(count, try_word(j, sets));
    }
    count
}

// Sums of sets and refused ones: a million is 17, more is 1.
fn try_sum(sets: u64, refused: u64, number: u32) -> u64 {
    refused_alike(totals_with(sets, refused, 1, 0), number)
}

fn try_sums() -> u64 {
    let even = more(try_sum(1000000, 0, 17), try_sum(400000, 600000, 17));
    let first = more(try_sum(1000001, 0, 1), try_sum(0, 1000001, 1));
    let last = more(try_sum(18446744073709551615, 1, 1), try_sum(999999, 2, 1));
    more(even, more(first, last))
}

// Totals of a word less and of a word more.
fn try_lengths() -> u64 {
    let mut short = [0u64; 38];
    let mut long = [0u64; 40];
    let first = (number_of(&mut short) != 1) as u64;
    let second = (stream_number(&mut short) != Some(1)) as u64;
    let third = (number_of(&mut long) != 1) as u64;
    let fourth = (stream_number(&mut long) != Some(1)) as u64;
    more(more(first, second), more(third, fourth))
}

// The totals' ranges.
pub fn try_ranges(stdout: Stdout) -> io::Result<u64> {
    let words = more(try_words(0), more(try_words(1), try_words(999999)));
    told(
        stdout,
        b"totals out of range",
        3 * 2 * 37 + 6 + 4,
        more(words, more(try_sums(), try_lengths())),
    )
}

// A stream with these numbers, and a loader of which so many sections are whole, with these counts.
fn stream_of(got: u64, left: u64, section: u64, tables: u64, words: u64) -> Stream {
    let loader = Loader {
        section,
        at: 0,
        part: 0,
        tables,
        words,
        headers: 0,
        slots: 0,
        note: None,
    };
    Stream {
        got,
        left,
        loader,
        over: false,
    }
}

// Whether the number of a piece of one byte is another one, or 1 changes the totals.
fn differs_in_piece(stream: Stream, number: u32) -> u64 {
    let mut totals = [0u64; TOTALS];
    let figured = Room::filled(0).chunk(stream, &mut totals, b"\x01");
    let answered = figured.reply.answer().number;
    (answered != number || number == 1 && totals[1] != 0) as u64
}

// The same of the end of an input.
fn differs_at_end(stream: Stream, number: u32) -> u64 {
    let mut totals = [0u64; TOTALS];
    let figured = stream.end(&mut totals);
    let answered = figured.reply.answer().number;
    (answered != number || number == 1 && totals[1] != 0) as u64
}

// A stream's two numbers, in their ranges or not.
fn try_numbers(got: u64, left: u64, number: u32) -> u64 {
    let stream = stream_of(got, left, 0, 0, 0);
    more(
        differs_in_piece(stream, number),
        differs_at_end(stream, number),
    )
}

// A loader, in its ranges and within the slices or not: the end of an input does not ask.
fn try_loader(section: u64, tables: u64, words: u64, number: u32) -> u64 {
    let stream = stream_of(4, 1, section, tables, words);
    more(differs_in_piece(stream, number), differs_at_end(stream, 0))
}

// Streams out of their ranges.
pub fn try_streams(stdout: Stdout) -> io::Result<u64> {
    let lengths = more(
        more(try_numbers(0, 0, 0), try_numbers(0, 1, 1)),
        more(try_numbers(1, 255, 0), try_numbers(1, 256, 1)),
    );
    let longer = more(
        more(try_numbers(3, 16777215, 0), try_numbers(3, 16777216, 1)),
        more(
            try_numbers(5, 0, 1),
            try_numbers(18446744073709551615, 0, 1),
        ),
    );
    let bytes = more(
        more(try_numbers(4, 1, 0), try_numbers(4, 0, 1)),
        more(try_numbers(4, 4294967295, 0), try_numbers(4, 4294967296, 1)),
    );
    let loaders = more(
        more(try_loader(2, 8, 1024, 0), try_loader(2, 8, 1025, 1)),
        more(try_loader(2, 9, 1024, 1), try_loader(5, 8, 1024, 1)),
    );
    told(
        stdout,
        b"streams out of range",
        32,
        more(more(lengths, longer), more(bytes, loaders)),
    )
}
