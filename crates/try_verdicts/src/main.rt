// Asks accept of small sets, each a word or two away from an accepted one, and prints its answer: yes, no, or 1.
#![tactic(auto)]

use sets::accept::accept;
use slots::answer::Answers;
use slots::{
    BLACK, HASH, KEY, LEFT, NEXT, NULL, PARENT, PLACE, PREV, RED, RIGHT, STATE, put, put_name,
};
use std::io;
use std::io::Stdout;
use trials::print::{say, verdict};

// One line to a set.
fn ask(
    stdout: Stdout,
    label: &[u8],
    lengths: &[u32],
    bins: &[u32],
    heads: &[u32],
    names: &[u64],
    cells: &[u32],
) -> io::Result<()> {
    say(stdout, label)?;
    let acceptance = accept(lengths, bins, heads, names, cells);
    verdict(stdout, b": ", b"", acceptance.answer())?;
    say(stdout, b"\n")
}

// The first n slots become free.
fn clear(cells: &mut [u32], n: u32) {
    for i in 0..n {
        put(cells, i, PLACE, 0);
        put(cells, i, STATE, 0);
    }
}

// The set that most others differ from by a word or two: table 0 has both bins Moved; table 1 has a list of slots 1 and 2, a list of slot
// 0, the tree of slot 3, and an empty bin. Slot 4 is free.
fn base_bins() -> [u32; 6] {
    [1, 1, 3, 2, 4098, 0]
}

fn base_heads() -> [u32; 3] {
    [3, 3, 1]
}

fn base_names() -> [u64; 10] {
    [1, 0, 0, 1, 4, 0, 2, 0, 0, 0]
}

fn base_cells() -> [u32; 35] {
    let mut cells = [NULL; 35];
    clear(&mut cells, 5);
    put(&mut cells, 0, STATE, BLACK);
    put(&mut cells, 1, STATE, BLACK);
    put(&mut cells, 1, NEXT, 2);
    put(&mut cells, 2, STATE, BLACK);
    put(&mut cells, 3, STATE, BLACK);
    cells
}

fn ask_bins(stdout: Stdout, label: &[u8], bins: &[u32]) -> io::Result<()> {
    ask(
        stdout,
        label,
        &[2u32, 4],
        bins,
        &base_heads(),
        &base_names(),
        &base_cells(),
    )
}

fn ask_heads(stdout: Stdout, label: &[u8], heads: &[u32]) -> io::Result<()> {
    ask(
        stdout,
        label,
        &[2u32, 4],
        &base_bins(),
        heads,
        &base_names(),
        &base_cells(),
    )
}

fn ask_slots(stdout: Stdout, label: &[u8], names: &[u64], cells: &[u32]) -> io::Result<()> {
    ask(
        stdout,
        label,
        &[2u32, 4],
        &base_bins(),
        &base_heads(),
        names,
        cells,
    )
}

// The word w in the empty bin.
fn ask_word(stdout: Stdout, label: &[u8], w: u32) -> io::Result<()> {
    let mut bins = base_bins();
    bins[5] = w;
    ask_bins(stdout, label, &bins)
}

fn words(stdout: Stdout) -> io::Result<()> {
    ask_word(stdout, b"base", 0)?;
    ask_word(stdout, b"Moved in the last table", 1)?;
    ask_word(stdout, b"word 2 + slots", 7)?;
    ask_word(stdout, b"word 4097 with five slots", 4097)?;
    ask_word(stdout, b"word 4098 + headers", 4099)?;
    ask_word(stdout, b"word 8193 with one header", 8193)?;
    ask_word(stdout, b"word 8194", 8194)?;
    ask_word(stdout, b"word 4294967295", NULL)?;
    ask_word(stdout, b"two bins with one list", 3)?;
    ask_word(stdout, b"two bins with one header", 4098)
}

fn parents(stdout: Stdout) -> io::Result<()> {
    let mut bins = base_bins();
    bins[1] = 0;
    ask_bins(stdout, b"a list below an empty bin", &bins)?;
    let mut bare = base_bins();
    bare[3] = 0;
    ask_bins(stdout, b"a used slot in no bin", &bare)
}

fn lists(stdout: Stdout) -> io::Result<()> {
    let mut ring = base_cells();
    put(&mut ring, 2, NEXT, 1);
    ask_slots(stdout, b"a list that loops", &base_names(), &ring)?;
    let mut tail = base_cells();
    put(&mut tail, 0, NEXT, 2);
    ask_slots(stdout, b"two lists that share a tail", &base_names(), &tail)?;
    let mut twice = base_names();
    put_name(&mut twice, 2, HASH, 0);
    put_name(&mut twice, 2, KEY, 1);
    ask_slots(stdout, b"a list that repeats a pair", &twice, &base_cells())?;
    let mut astray = base_names();
    put_name(&mut astray, 0, HASH, 2);
    ask_slots(
        stdout,
        b"an entry not in the bin its hash names",
        &astray,
        &base_cells(),
    )?;
    let mut red = base_cells();
    put(&mut red, 2, STATE, RED);
    ask_slots(stdout, b"a red list slot", &base_names(), &red)?;
    let mut back = base_cells();
    put(&mut back, 2, PREV, 1);
    ask_slots(stdout, b"a list slot with prev set", &base_names(), &back)
}

fn slots(stdout: Stdout) -> io::Result<()> {
    let mut state = base_cells();
    put(&mut state, 4, STATE, 3);
    ask_slots(stdout, b"a state of 3", &base_names(), &state)?;
    let mut link = base_cells();
    put(&mut link, 2, NEXT, 5);
    ask_slots(stdout, b"a link to no slot", &base_names(), &link)?;
    let mut place = base_cells();
    put(&mut place, 4, PLACE, 7);
    ask_slots(stdout, b"a free slot not cleared", &base_names(), &place)
}

fn headers(stdout: Stdout) -> io::Result<()> {
    ask_heads(
        stdout,
        b"a header with a root and null first",
        &[3u32, NULL, 1],
    )?;
    ask_heads(
        stdout,
        b"a header with a first and null root",
        &[NULL, 3, 1],
    )?;
    ask_heads(stdout, b"a count of two for one slot", &[3u32, 3, 2])?;
    ask_heads(
        stdout,
        b"a header that no bin names",
        &[3u32, 3, 1, NULL, NULL, 0],
    )?;
    ask_heads(
        stdout,
        b"a header that no bin names, with a count",
        &[3u32, 3, 1, NULL, NULL, 1],
    )?;
    let mut bins = base_bins();
    bins[5] = 4099;
    ask(
        stdout,
        b"two headers with one root",
        &[2u32, 4],
        &bins,
        &[3u32, 3, 1, 3, 3, 1],
        &base_names(),
        &base_cells(),
    )
}

// The tree of slots 0, 1 and 2, by key, in a table of one bin; the chain goes by the slots' numbers.
fn three() -> [u32; 21] {
    let mut cells = [NULL; 21];
    clear(&mut cells, 3);
    put(&mut cells, 0, STATE, BLACK);
    put(&mut cells, 1, STATE, RED);
    put(&mut cells, 2, STATE, RED);
    put(&mut cells, 0, LEFT, 1);
    put(&mut cells, 1, PARENT, 0);
    put(&mut cells, 0, RIGHT, 2);
    put(&mut cells, 2, PARENT, 0);
    put(&mut cells, 0, NEXT, 1);
    put(&mut cells, 1, PREV, 0);
    put(&mut cells, 1, NEXT, 2);
    put(&mut cells, 2, PREV, 1);
    cells
}

fn ask_tree(stdout: Stdout, label: &[u8], names: &[u64], cells: &[u32]) -> io::Result<()> {
    ask(
        stdout,
        label,
        &[1u32],
        &[4098u32],
        &[0u32, 0, 3],
        names,
        cells,
    )
}

fn trees(stdout: Stdout) -> io::Result<()> {
    let names = [0u64, 20, 0, 10, 0, 30];
    ask_tree(stdout, b"a tree of three", &names, &three())?;
    let mut root = three();
    put(&mut root, 0, STATE, RED);
    ask_tree(stdout, b"a red root", &names, &root)?;
    ask_tree(
        stdout,
        b"pairs that do not rise",
        &[0u64, 20, 0, 30, 0, 10],
        &three(),
    )?;
    let mut black = three();
    put(&mut black, 1, STATE, BLACK);
    ask_tree(stdout, b"unequal black counts", &names, &black)?;
    let mut back = three();
    put(&mut back, 2, PREV, 0);
    ask_tree(
        stdout,
        b"a chain whose prev is not its reverse",
        &names,
        &back,
    )?;
    let mut short = three();
    put(&mut short, 1, NEXT, NULL);
    ask_tree(stdout, b"a chain of two for three slots", &names, &short)
}

// The header (0, 1, 1) over two slots, of which slot 1 is none of the tree's: its chain is as long as the tree.
fn ask_other_chain(
    stdout: Stdout,
    label: &[u8],
    lengths: &[u32],
    bins: &[u32],
    names: &[u64],
    other: u32,
) -> io::Result<()> {
    let mut cells = [NULL; 14];
    clear(&mut cells, 2);
    put(&mut cells, 0, STATE, BLACK);
    put(&mut cells, 1, STATE, other);
    ask(stdout, label, lengths, bins, &[0u32, 1, 1], names, &cells)
}

// Chains of as many slots as the tree that are none of its own: a free slot's, a list's, and another tree's.
fn chains(stdout: Stdout) -> io::Result<()> {
    ask_other_chain(
        stdout,
        b"a tree whose first is a free slot",
        &[1u32],
        &[4098u32],
        &[0u64, 5, 0, 0],
        0,
    )?;
    ask_other_chain(
        stdout,
        b"a tree whose first is a list's slot",
        &[2u32],
        &[4098u32, 3],
        &[0u64, 0, 1, 0],
        BLACK,
    )?;
    let mut cells = [NULL; 14];
    clear(&mut cells, 2);
    put(&mut cells, 0, STATE, BLACK);
    put(&mut cells, 1, STATE, BLACK);
    ask(
        stdout,
        b"two trees whose firsts stand in the second's chain",
        &[2u32],
        &[4098u32, 4099],
        &[0u32, 1, 1, 1, 1, 1],
        &[0u64, 0, 1, 0],
        &cells,
    )
}

// Eight tables, the first bin of each Moved but in the last, where it is the list of slot 0.
fn deep(stdout: Stdout) -> io::Result<()> {
    let lengths = [1u32, 2, 4, 8, 16, 32, 64, 128];
    let mut bins = [0u32; 255];
    bins[0] = 1;
    bins[1] = 1;
    bins[3] = 1;
    bins[7] = 1;
    bins[15] = 1;
    bins[31] = 1;
    bins[63] = 1;
    bins[127] = 2;
    let cells = [0, BLACK, NULL, NULL, NULL, NULL, NULL];
    ask(
        stdout,
        b"Moved down to table 7",
        &lengths,
        &bins,
        &[0u32; 0],
        &[0u64; 2],
        &cells,
    )?;
    bins[63] = 0;
    ask(
        stdout,
        b"Moved down to table 5",
        &lengths,
        &bins,
        &[0u32; 0],
        &[0u64; 2],
        &cells,
    )
}

// 4,096 slots, of which the last is a list's and the first a tree's.
fn most(stdout: Stdout) -> io::Result<()> {
    let names = [0u64; 8192];
    let mut cells = [NULL; 28672];
    clear(&mut cells, 4096);
    put(&mut cells, 4095, STATE, BLACK);
    ask(
        stdout,
        b"word 4097 with 4096 slots",
        &[1u32],
        &[4097u32],
        &[NULL; 0],
        &names,
        &cells,
    )?;
    put(&mut cells, 4095, STATE, 0);
    put(&mut cells, 0, STATE, BLACK);
    ask(
        stdout,
        b"word 4098 with one header",
        &[1u32],
        &[4098u32],
        &[0u32, 0, 1],
        &names,
        &cells,
    )?;
    ask(
        stdout,
        b"word 4098 with no header",
        &[1u32],
        &[4098u32],
        &[NULL; 0],
        &names,
        &cells,
    )
}

fn none(stdout: Stdout, label: &[u8], lengths: &[u32], bins: &[u32]) -> io::Result<()> {
    ask(
        stdout, label, lengths, bins, &[0u32; 0], &[0u64; 0], &[0u32; 0],
    )
}

fn tables(stdout: Stdout) -> io::Result<()> {
    none(
        stdout,
        b"no slot, no header, table length 1",
        &[1u32],
        &[0u32],
    )?;
    none(stdout, b"one table of 4096", &[4096u32], &[0u32; 4096])?;
    none(
        stdout,
        b"eight tables",
        &[1u32, 2, 4, 8, 16, 32, 64, 128],
        &[0u32; 255],
    )
}

fn unfit_tables(stdout: Stdout) -> io::Result<()> {
    none(
        stdout,
        b"nine tables",
        &[1u32, 2, 4, 8, 16, 32, 64, 128, 256],
        &[0u32; 511],
    )?;
    none(stdout, b"no table", &[0u32; 0], &[0u32; 0])?;
    none(stdout, b"table length 0", &[0u32], &[0u32; 0])?;
    none(stdout, b"table length 3", &[3u32], &[0u32; 3])
}

fn unlike_tables(stdout: Stdout) -> io::Result<()> {
    none(stdout, b"table length 8192", &[8192u32], &[0u32; 8192])?;
    none(
        stdout,
        b"a table four times the one before",
        &[1u32, 4],
        &[0u32; 5],
    )?;
    none(
        stdout,
        b"a table as long as the one before",
        &[2u32, 2],
        &[0u32; 4],
    )?;
    none(stdout, b"a bin too few", &[2u32], &[0u32; 1])?;
    none(stdout, b"a bin too many", &[2u32], &[0u32; 3])
}

// One empty bin.
fn sizes(
    stdout: Stdout,
    label: &[u8],
    heads: &[u32],
    names: &[u64],
    cells: &[u32],
) -> io::Result<()> {
    ask(stdout, label, &[1u32], &[0u32], heads, names, cells)
}

fn lengths(stdout: Stdout) -> io::Result<()> {
    sizes(stdout, b"half a name", &[0u32; 0], &[0u64; 1], &[0u32; 0])?;
    sizes(
        stdout,
        b"a cell too few",
        &[0u32; 0],
        &[0u64; 2],
        &[0u32; 6],
    )?;
    sizes(
        stdout,
        b"a cell too many",
        &[0u32; 0],
        &[0u64; 0],
        &[0u32; 1],
    )?;
    sizes(
        stdout,
        b"two words of a header",
        &[0u32; 2],
        &[0u64; 0],
        &[0u32; 0],
    )
}

fn too_many(stdout: Stdout) -> io::Result<()> {
    sizes(
        stdout,
        b"4097 slots",
        &[0u32; 0],
        &[0u64; 8194],
        &[0u32; 28679],
    )?;
    sizes(
        stdout,
        b"4097 headers",
        &[0u32; 12291],
        &[0u64; 0],
        &[0u32; 0],
    )
}

fn main(rt: HostRuntime) -> io::Result<()> {
    let stdout = rt.stdout();
    words(stdout)?;
    parents(stdout)?;
    lists(stdout)?;
    slots(stdout)?;
    headers(stdout)?;
    trees(stdout)?;
    chains(stdout)?;
    deep(stdout)?;
    most(stdout)?;
    tables(stdout)?;
    unfit_tables(stdout)?;
    unlike_tables(stdout)?;
    lengths(stdout)?;
    too_many(stdout)
}
