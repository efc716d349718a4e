// The front of a slice that a count cuts out.
ghost use Rattle.std.specs.Prelude.{◌≡◌, List, ℕ, ◌*◌, ◌≤◌, length, take};

// How many words of a slice so many items are, each of this width; all of them where there are no more.
// Form kept: a length and no slice, as file's front has it, since three of the five slices are lent to be written.
pub(crate) fn front(count: u64, width: usize, len: usize) -> usize
    requires { 1 ≤ width }
    ensures { (result ≤ len) × ((l : List ℕ) → length l ≡ len → take result l ≡ take (width * count) l) }
{
    if count <= (len / width) as u64 {
        return width * count as usize;
    }
    len
}
