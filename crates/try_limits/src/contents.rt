// What a tree holds, printed along the chain.
use slots::{HASH, KEY, NEXT, NULL, PLACE, get, name};
use std::io;
use std::io::Stdout;
use trials::print;

// The entry of slot x.
fn say_entry(stdout: Stdout, names: &[u64], cells: &[u32], x: u32) -> io::Result<()> {
    print::name(stdout, b", ", name(names, x, HASH))?;
    print::name(stdout, b" ", name(names, x, KEY))?;
    print::number(stdout, b" at place ", get(cells, x, PLACE))
}

// How many entries a tree of n slots has and which, from first by next, behind what stands on the line already.
pub fn say_entries(
    stdout: Stdout,
    names: &[u64],
    cells: &[u32],
    head: &[u32],
    n: u32,
) -> io::Result<()> {
    print::number(stdout, b", entries ", get(head, 0, 2))?;
    let mut x = get(head, 0, 1);
    for _ in 0..n {
        if x == NULL {
            return Ok(());
        }
        say_entry(stdout, names, cells, x)?;
        x = get(cells, x, NEXT);
    }
    Ok(())
}
