// Runs scripts whose answers are known, each whole, in pieces of seven bytes and byte by byte, and compares every answer.
#![tactic(auto)]

ghost use Rattle.std.specs.Prelude.{◌≤◌};

use index::fresh::fresh;
use std::io;
use std::rt::Files;
use trials::load::load;
use trials::play::play;
use trials::print::figure;

// How many scripts there are: data/01.in with its answers data/01.out, and so on.
const SCRIPTS: u32 = 55;

// The words of the journal: its length, and six to each of 512 lines, as in the script program.
const JOURNAL_WORDS: usize = 1 + 6 * 512;

// Whether a script, in pieces of so many bytes, gives all of its answers and nothing else.
fn runs(input: &[u8], expected: &[u8], cut: usize, out: &mut [u8]) -> bool {
    let mut names = [0u64; 1024];
    let mut cells = [0u32; 3584];
    let mut head = [0u32; 3];
    let mut sizes = [0u32; 512];
    let mut lines = [0u64; JOURNAL_WORDS];
    let _ = fresh(&mut names, &mut cells, &mut head, &mut sizes, &mut lines);
    let met = play(
        input, cut, expected, &mut names, &mut cells, &mut head, &mut sizes, &mut lines, out,
    );
    met == Ok(expected.len())
}

// 1 where a script does not run as it has to, so that they can be counted.
fn differs(input: &[u8], expected: &[u8], cut: usize, out: &mut [u8]) -> u32
    ensures { result ≤ 1 }
{
    u32::from(!runs(input, expected, cut, out))
}

// How many of a script's three runs differ.
fn three_runs(input: &[u8], expected: &[u8], out: &mut [u8]) -> u32 {
    let whole = differs(input, expected, 65536, out);
    let sevens = differs(input, expected, 7, out);
    let bytes = differs(input, expected, 1, out);
    whole + sevens + bytes
}

// The two digits of a script's number.
fn digit(x: u32) -> u8 {
    b'0' + (x % 10) as u8
}

// The script of a number, from its two files.
fn try_script<R: Files>(
    rt: &R,
    number: u32,
    input: &mut [u8],
    expected: &mut [u8],
    out: &mut [u8],
) -> u32 {
    let tens = digit(number / 10);
    let ones = digit(number);
    let asked = load(rt, &[tens, ones, b'.', b'i', b'n'], input);
    let known = load(rt, &[tens, ones, b'.', b'o', b'u', b't'], expected);
    if input.len() <= asked {
        return 3;
    }
    if expected.len() <= known {
        return 3;
    }
    three_runs(&input[..asked], &expected[..known], out)
}

fn try_all<R: Files>(rt: &R, input: &mut [u8], expected: &mut [u8], out: &mut [u8]) -> u32 {
    let mut differences: u32 = 0;
    for number in 1..=SCRIPTS {
        differences = differences.wrapping_add(try_script(rt, number, input, expected, out));
    }
    differences
}

// Rooms for a script, its answers and what is printed. Their lengths are large, and a proof that has the zeros before it counts them: here
// it only has that there are so many.
// Form kept: each program that needs such a room has its own, since a public one would owe a claim that counts its zeros.
fn script_room() -> [u8; 262144] {
    [0; 262144]
}

fn text_room() -> [u8; 524288] {
    [0; 524288]
}

fn main(rt: HostRuntime) -> io::Result<()> {
    let stdout = rt.stdout();
    let mut input = script_room();
    let mut expected = script_room();
    let mut out = text_room();
    let differences = try_all(&rt, &mut input, &mut expected, &mut out);
    figure(stdout, b"scripts", SCRIPTS)?;
    figure(stdout, b"runs", 3 * SCRIPTS)?;
    figure(stdout, b"differences", differences)
}
