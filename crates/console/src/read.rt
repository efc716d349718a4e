// What a line of the script means.
ghost use Rattle.std.specs.Prelude.{◌≡◌, ℕ, ◌≤◌, drop};
ghost use Rattle.script_rules.specs.Text.{read_on, read_number, read_next, starts_with as starts};
ghost use Rattle.script_rules.specs.Commands.{Command as Meant, remove as removing, find as finding};
ghost use Rattle.script_rules.specs.Commands.{insert_of, pair_command_of, mark_of, alone, meant, spoken};
ghost use Rattle.console.specs.Phrases.{read_of, command_of, command_or_bad, pair_command};

// The largest number of a field.
const MOST64: u64 = 18446744073709551615;

const MOST32: u64 = 4294967295;

// More digits of a number whose value so far is v, from a place on: the number, and where the bytes after it start.
#[tactic(auto, using(crate::proofs::Reading::bytes_from), unfolding(script_rules::specs::Text::read_on))]
fn digits(line: &[u8], most: u64, v: u64, at: usize) -> Option<(u64, usize)>
    requires { 9 ≤ most }
    ensures { read_of line.now result ≡ read_on most v (drop at line.now) }
{
    let mut value = v;
    for i in at..line.len() {
        let b = line[i];
        if !b.is_ascii_digit() {
            return Some((value, i));
        }
        let digit = (b - b'0') as u64;
        if (most - digit) / 10 < value {
            return None;
        }
        value = 10 * value + digit;
    }
    Some((value, line.len()))
}

// A number at a place of the line, with no leading zero.
#[tactic(auto, using(crate::proofs::Reading::bytes_from), unfolding(script_rules::specs::Text::read_number))]
fn first_number(line: &[u8], most: u64, at: usize) -> Option<(u64, usize)>
    requires { 9 ≤ most }
    ensures { read_of line.now result ≡ read_number most (drop at line.now) }
{
    let b = *line.get(at)?;
    match b {
        b'0' => Some((0, at + 1)),
        b'1'..=b'9' => digits(line, most, (b - b'0') as u64, at + 1),
        _ => None,
    }
}

// A number after a single space.
#[tactic(auto, using(crate::proofs::Reading::bytes_from), unfolding(script_rules::specs::Text::read_next))]
fn next_number(line: &[u8], most: u64, at: usize) -> Option<(u64, usize)>
    requires { 9 ≤ most }
    ensures { read_of line.now result ≡ read_next most (drop at line.now) }
{
    match line.get(at)? {
        b' ' => first_number(line, most, at + 1),
        _ => None,
    }
}

// Whether the line starts with a word.
#[tactic(auto, using(crate::proofs::Reading::same_begins))]
fn begins(line: &[u8], word: &[u8]) -> bool
    ensures { result ≡ starts word.now line.now }
{
    line.starts_with(word)
}

// What a line asks for.
#[derive(Clone, Copy)]
pub enum Command {
    Insert(u64, u64, u32),
    Remove(u64, u64),
    Find(u64, u64),
    Rollback(u32),
    Mark,
    List,
    Bad,
}

// The command, if the line ends there.
#[tactic(auto, using(crate::proofs::Reading::bytes_from))]
fn alone_after(line: &[u8], at: usize, command: Command) -> Option<Command>
    ensures { command_or_bad result ≡ alone (command_of command) (drop at line.now) }
{
    if at < line.len() {
        return None;
    }
    Some(command)
}

// Hash, key and place, and the end of the line.
#[tactic(auto, using(script_rules::proofs::Meaning::next_bound), unfolding(script_rules::specs::Commands::insert_of))]
fn entry(line: &[u8], at: usize) -> Option<Command>
    ensures { command_or_bad result ≡ insert_of (drop at line.now) }
{
    let (hash, after_hash) = first_number(line, MOST64, at)?;
    let (key, after_key) = next_number(line, MOST64, after_hash)?;
    let (place, end) = next_number(line, MOST32, after_key)?;
    alone_after(line, end, Command::Insert(hash, key, place as u32))
}

// Hash and key, and the end of the line.
#[tactic(auto, using(crate::proofs::Reading::bytes_from), unfolding(script_rules::specs::Commands::pair_command_of))]
fn pair(line: &[u8], at: usize) -> Option<(u64, u64)>
    ensures { (c : ℕ → ℕ → Meant) → pair_command c result ≡ pair_command_of c (drop at line.now) }
{
    let (hash, after_hash) = first_number(line, MOST64, at)?;
    let (key, end) = next_number(line, MOST64, after_hash)?;
    if end < line.len() {
        return None;
    }
    Some((hash, key))
}

// A mark, and the end of the line.
#[tactic(auto, using(script_rules::proofs::Meaning::number_bound), unfolding(script_rules::specs::Commands::mark_of))]
fn mark(line: &[u8], at: usize) -> Option<Command>
    ensures { command_or_bad result ≡ mark_of (drop at line.now) }
{
    let (to, end) = first_number(line, MOST32, at)?;
    alone_after(line, end, Command::Rollback(to as u32))
}

// The command of a line, by the word that it starts with.
#[tactic(auto, unfolding(script_rules::specs::Commands::meant))]
fn by_word(line: &[u8]) -> Option<Command>
    ensures { command_or_bad result ≡ meant line.now }
{
    if begins(line, b"+ ") {
        return entry(line, 2);
    }
    if begins(line, b"- ") {
        return pair(line, 2).map(|(hash, key)| Command::Remove(hash, key));
    }
    if begins(line, b"? ") {
        return pair(line, 2).map(|(hash, key)| Command::Find(hash, key));
    }
    if begins(line, b"r ") {
        return mark(line, 2);
    }
    if begins(line, b"m") {
        return alone_after(line, 1, Command::Mark);
    }
    if begins(line, b"l") {
        return alone_after(line, 1, Command::List);
    }
    None
}

// A line over 80 bytes is bad, whatever it starts with.
#[tactic(auto, unfolding(script_rules::specs::Commands::spoken))]
pub fn meaning(line: &[u8]) -> Command
    ensures { command_of result ≡ spoken line.now }
{
    if 80 < line.len() {
        return Command::Bad;
    }
    by_word(line).unwrap_or(Command::Bad)
}
