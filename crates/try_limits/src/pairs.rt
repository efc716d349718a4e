// The pairs, by their numbers. Pair k has key k.

// Four keys have one hash, so that pairs rise with their numbers. Those past the 4,096 have hash 0.
pub fn hash_of(k: u32) -> u64 {
    if k < 4096 {
        return (k / 4) as u64;
    }
    0
}

// The pair that comes i-th where 4,096 pairs come in steps of 1,103.
pub fn filled(i: u32) -> u32 {
    i % 4096 * 1103 % 4096
}

// In steps of 2,731.
pub fn drained(i: u32) -> u32 {
    i % 4096 * 2731 % 4096
}

// Where 300 pairs come in steps of 77.
pub fn drawn(i: u32) -> u32 {
    (i % 300 * 77 + 31) % 300
}

// Where every third of 300 pairs comes.
pub fn third(i: u32) -> u32 {
    i % 100 * 3
}

// How many pairs go in before the one with this key, where 4,096 pairs go in: 1,103 times 687 is 1 but for multiples of 4,096.
pub fn turn_of(key: u64) -> u64 {
    key % 4096 * 687 % 4096
}
