// The front of a slice that a count cuts out; all of it where there is no more.
ghost use Rattle.std.specs.Prelude.{◌≡◌, ◌*◌, ◌<◌, take};

// So many items of so many words each.
fn front<T>(words: &[T], long: usize, count: u64) -> &[T]
    requires { 0 < long }
    ensures { result.now ≡ take (long * count) words.now }
{
    if count <= (words.len() / long) as u64 {
        return &words[..long * count as usize];
    }
    words
}

// So many words.
pub fn front_words(words: &[u32], count: u64) -> &[u32]
    ensures { result.now ≡ take count words.now }
{
    front(words, 1, count)
}

// So many headers, of three words each.
pub fn front_heads(heads: &[u32], count: u64) -> &[u32]
    ensures { result.now ≡ take (3 * count) heads.now }
{
    front(heads, 3, count)
}

// The names of so many slots, two words each.
pub fn front_names(names: &[u64], count: u64) -> &[u64]
    ensures { result.now ≡ take (2 * count) names.now }
{
    front(names, 2, count)
}

// The cells of so many slots, seven words each.
pub fn front_cells(cells: &[u32], count: u64) -> &[u32]
    ensures { result.now ≡ take (7 * count) cells.now }
{
    front(cells, 7, count)
}
