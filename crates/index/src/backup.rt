// A tree's words are kept aside while it is not known whether a rollback's lines fit.
ghost use Rattle.std.specs.Prelude.{◌≡◌, ◌≤◌, length, take};

// The first n words, copied.
pub(crate) fn copy_words<T: Copy>(src: &[T], dst: &mut [T], n: usize)
    requires n_in_bounds { n ≤ length src.now }
    requires n_in_bounds_2 { n ≤ length dst.old }
    ensures { take n dst.new ≡ take n src.now }
{
    dst[..n].copy_from_slice(&src[..n]);
}
