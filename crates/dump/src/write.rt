// The bytes of a dump, written to a lent buffer.
ghost use Rattle.std.specs.Prelude.{◌≡◌, ℕ, map};
ghost use Rattle.endian.specs.Bytes.{little, words_bytes};
ghost use Rattle.index_rules.specs.Index.{lent};
ghost use Rattle.script_rules.specs.Feeding.{typed, lent_paper};
ghost use Rattle.dump_rules.specs.Dump.{dump_bytes};

use console::paper::put_byte;

// So many bytes of a number, the lowest first.
// Form kept: the file's bytes have room by its clause, the dump's are written while there is room, as all that is said; and byte by
// byte, as little is said, since to_le_bytes gives eight bytes, whatever k.
fn put_little(out: &mut [u8], at: usize, x: u64, k: usize) -> usize
    ensures { lent_paper out.new result ≡ typed (lent_paper out.old at) (little k x) }
{
    let mut end = at;
    let mut rest = x;
    for _ in 0..k {
        end = put_byte(out, end, (rest % 256) as u8);
        rest /= 256;
    }
    end
}

// A word as a number.
// Form kept: no Into, whose clause has no ghost of what the number is; and endian's Word reads bytes, where this writes them.
trait Number: Copy {
    ghost number: { Self → ℕ };

    fn number(self) -> u64
        ensures { result ≡ number self };
}

impl Number for u64 {
    ghost number = { λ x. x };

    fn number(self) -> u64 {
        self
    }
}

impl Number for u32 {
    ghost number = { λ x. x };

    fn number(self) -> u64 {
        self as u64
    }
}

// Words of k bytes each.
fn put_words<W: Number>(out: &mut [u8], at: usize, words: &[W], k: usize) -> usize
    ensures { lent_paper out.new result
        ≡ typed (lent_paper out.old at) (words_bytes k (map W.number words.now)) }
{
    let mut end = at;
    for x in words {
        end = put_little(out, end, x.number(), k);
    }
    end
}

// The dump of an index of n slots and c lines.
pub fn write(
    out: &mut [u8],
    at: usize,
    n: u32,
    c: u32,
    names: &[u64],
    cells: &[u32],
    head: &[u32],
    sizes: &[u32],
    lines: &[u64],
) -> usize
    ensures { lent_paper out.new result
        ≡ typed (lent_paper out.old at)
        (dump_bytes n c (lent names.now cells.now head.now sizes.now lines.now)) }
{
    let counted = put_little(out, at, n as u64, 4);
    let lined = put_little(out, counted, c as u64, 4);
    let named = put_words(out, lined, names, 8);
    let linked = put_words(out, named, cells, 4);
    let headed = put_words(out, linked, head, 4);
    let sized = put_words(out, headed, sizes, 4);
    put_words(out, sized, lines, 8)
}
