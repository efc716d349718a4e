// Reads uploads cut at every pair of bytes and holds each run against the one that is not cut; has a sample refused at every byte where
// that can be, and sees that each refusal leaves the index of the start and that a planted name is noticed; and has somebody else write
// between two calls.
#![tactic(auto)]

mod cuts;
mod foreign;
mod refused;
mod sample;
mod table;
mod words;

use cuts::whole_and_cut;
use foreign::try_foreign;
use refused::try_refused;
use sample::{LENGTH, ROOM, fill};
use std::io;
use std::io::Stdout;
use table::try_full;
use trials::part::first;

// The uploads, each of the name that its line has.
const ACCEPTED: [u8; 44] =
    *b"\x01\x01\0\x01\0\0\0\0\0\0\0\x02\0\0\0\0\0\0\0\x02\0\0\x03\0\0\x04\x01\0\x01\0\0\0\0\0\0\0\x03\0\0\0\0\0\0\0";

const WRONG_AT_ONCE: [u8; 44] =
    *b"\x02\x01\0\x01\0\0\0\0\0\0\0\x02\0\0\0\0\0\0\0\x02\0\0\x03\0\0\x04\x01\0\x01\0\0\0\0\0\0\0\x03\0\0\0\0\0\0\0";

const WRONG_BEHIND: [u8; 22] = *b"\x01\x01\0\x01\0\0\0\0\0\0\0\x02\0\0\0\0\0\0\0\x03\0\0";

const TWICE: [u8; 44] =
    *b"\x01\x01\0\x01\0\0\0\0\0\0\0\x02\0\0\0\0\0\0\0\x02\0\0\x03\0\0\x04\x01\0\x01\0\0\0\0\0\0\0\x02\0\0\0\0\0\0\0";

const WAS_THERE: [u8; 35] =
    *b"\x01\x02\0\x01\0\0\0\0\0\0\0\x02\0\0\0\0\0\0\0\x09\0\0\0\0\0\0\0\x09\0\0\0\0\0\0\0";

const IN_A_HEADER: [u8; 22] = *b"\x01\x01\0\x01\0\0\0\0\0\0\0\x02\0\0\0\0\0\0\0\x02\0\0";

const IN_AN_ENTRY: [u8; 43] =
    *b"\x01\x01\0\x01\0\0\0\0\0\0\0\x02\0\0\0\0\0\0\0\x02\0\0\x03\0\0\x04\x01\0\x01\0\0\0\0\0\0\0\x03\0\0\0\0\0\0";

const A_BYTE_MORE: [u8; 45] =
    *b"\x01\x01\0\x01\0\0\0\0\0\0\0\x02\0\0\0\0\0\0\0\x02\0\0\x03\0\0\x04\x01\0\x01\0\0\0\0\0\0\0\x03\0\0\0\0\0\0\0\0";

// The sample of the trials.
fn cut_sample(stdout: Stdout, bytes: &[u8; ROOM]) -> io::Result<()> {
    whole_and_cut(stdout, b"the sample: ", first(bytes, LENGTH))
}

fn main(rt: HostRuntime) -> io::Result<()> {
    let stdout = rt.stdout();
    whole_and_cut(stdout, b"accepted: ", &ACCEPTED)?;
    whole_and_cut(stdout, b"wrong kind at once: ", &WRONG_AT_ONCE)?;
    whole_and_cut(stdout, b"wrong kind behind an entry: ", &WRONG_BEHIND)?;
    let mut third = ACCEPTED;
    third[22] = 2;
    whole_and_cut(stdout, b"wrong third kind: ", &third)?;
    let mut fourth = ACCEPTED;
    fourth[25] = 3;
    whole_and_cut(stdout, b"wrong fourth kind: ", &fourth)?;
    whole_and_cut(stdout, b"a pair twice: ", &TWICE)?;
    whole_and_cut(stdout, b"a pair that was there: ", &WAS_THERE)?;
    whole_and_cut(stdout, b"cut inside a header: ", &IN_A_HEADER)?;
    whole_and_cut(stdout, b"cut inside an entry: ", &IN_AN_ENTRY)?;
    whole_and_cut(stdout, b"nothing: ", b"")?;
    whole_and_cut(stdout, b"a byte more: ", &A_BYTE_MORE)?;
    let mut sample = [0u8; ROOM];
    fill(&mut sample);
    cut_sample(stdout, &sample)?;
    try_refused(stdout)?;
    try_full(stdout)?;
    try_foreign(stdout, &ACCEPTED)
}
