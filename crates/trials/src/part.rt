// A part of a slice.
ghost use Rattle.std.specs.Prelude.{◌≡◌, take};

// The first words of a slice: as many as are asked for, or all of them where there are no more.
pub fn first<T>(words: &[T], n: usize) -> &[T]
    ensures { result.now ≡ take n words.now }
{
    &words[..n.min(words.len())]
}
