// What the programs read. Which bytes a file has lies outside of every contract.
ghost use Rattle.std.specs.Prelude.{◌≡◌, ◌≤◌, length, take, IfOk};

use std::io::Read;
use std::rt::Files;
use std::{fs, io};

// Reads until the room is full or the input ends, and answers how many bytes it put at the start of the room.
pub fn fill<R: Read>(input: &mut R, room: &mut [u8]) -> io::Result<usize>
    ensures outside { IfOk result (λ n. n ≤ length room.new) }
{
    let mut done = 0;
    while done < room.len() {
        let n = input.read(&mut room[done..])?;
        if n == 0 {
            return Ok(done);
        }
        done += n;
    }
    Ok(done)
}

// Reads a file, and answers how many bytes it has; one that cannot be read, or is too long for the room, has as many as the room.
pub fn load<R: Files>(rt: &R, path: &[u8], room: &mut [u8]) -> usize
    ensures outside { result ≤ length room.new }
    ensures part { result ≡ length (take result room.new) }
{
    let Ok(name) = str::from_utf8(path) else {
        return room.len();
    };
    let Ok(mut file) = fs::open(rt, name) else {
        return room.len();
    };
    match fill(&mut file, room) {
        Ok(n) => n,
        Err(_) => room.len(),
    }
}
