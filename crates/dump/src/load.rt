// The words of a dump, read into an index.
ghost use Rattle.std.specs.Prelude.{◌≡◌, ◌*◌, length, drop};
ghost use Rattle.index_rules.specs.Index.{lent};
ghost use Rattle.dump_rules.specs.Dump.{loaded_as};

use endian::{after_words, read_words};

// Fills the five slices with the words behind the two counts, one slice after another; 0 where the bytes end.
pub fn load(
    bytes: &[u8],
    names: &mut [u64],
    cells: &mut [u32],
    head: &mut [u32],
    sizes: &mut [u32],
    lines: &mut [u64],
)
    ensures { lent names.new cells.new head.new sizes.new lines.new
        ≡ loaded_as (length names.old) (length cells.old) (length head.old) (length sizes.old)
        (length lines.old) (drop 8 bytes.now) }
{
    let body = after_words::<u64>(bytes, 1);
    read_words(names, body);
    let behind_names = after_words::<u64>(body, names.len());
    read_words(cells, behind_names);
    let behind_cells = after_words::<u32>(behind_names, cells.len());
    read_words(head, behind_cells);
    let behind_head = after_words::<u32>(behind_cells, head.len());
    read_words(sizes, behind_head);
    let behind_sizes = after_words::<u32>(behind_head, sizes.len());
    read_words(lines, behind_sizes);
}
