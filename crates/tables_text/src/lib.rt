// The text of the tables program: built, put into a buffer, and written to standard output.
#![tactic(auto)]

ghost use Rattle.std.specs.Prelude.{◌≡◌, ◌≤◌, length};
ghost use Rattle.ranks.specs.Ranks.{ranks};
ghost use Rattle.entries.specs.Lent.{tables_in, SameLent};
ghost use Rattle.outcome.specs.Built.{figures_of};
ghost use Rattle.tables_text.specs.Text.{tree_text, field, or_dash, figure, lines, line_text, head_text, tables_text, Rendered};
ghost use Rattle.writing.specs.Writing.{Put};
ghost use Rattle.tables_text.specs.Buffers.{Room, Nearests, WholeBuild, count_of, most_compared};

use entries::Tables;
use outcome::Built;
use reading::read_full;
use refusal::Refusal;
use std::io::{self, Write};
use suffix::tree_length;
use writing::{put, put_byte, put_decimal, put_hexes};

// A number and the byte behind it. Each function below that puts a text puts as much of it as there is room for, as those of `writing` do, and
// answers the place behind it.
fn put_field(out: &mut [u8], at: usize, n: usize, b: u8) -> usize
    ensures { Put out.old out.new (field n b) at result }
{
    let mid = put_decimal(out, at, n);
    put_byte(out, mid, b)
}

fn put_previous(out: &mut [u8], at: usize, n: usize, p: usize) -> usize
    ensures { Put out.old out.new (or_dash n p) at result }
{
    if p == n {
        return put(out, at, b"- ");
    }
    put_field(out, at, p, b' ')
}

fn put_line(out: &mut [u8], at: usize, n: usize, i: usize, p: usize, q: usize) -> usize
    requires { i ≤ q }
    ensures { Put out.old out.new (line_text n i p q) at result }
{
    let a = put_field(out, at, i, b' ');
    let b = put_previous(out, a, n, p);
    let c = put_field(out, b, q, b' ');
    put_field(out, c, q - i, b'\n')
}

fn put_tree(out: &mut [u8], at: usize, tree: &[u8]) -> usize
    ensures { Put out.old out.new (tree_text tree.now) at result }
{
    if tree.is_empty() {
        return put_byte(out, at, b'-');
    }
    put_hexes(out, at, tree)
}

// A name and a number.
fn put_figure(out: &mut [u8], at: usize, name: &[u8], x: usize) -> usize
    ensures { Put out.old out.new (figure name.now x) at result }
{
    let mid = put(out, at, name);
    put_field(out, mid, x, b' ')
}

fn put_head(out: &mut [u8], n: usize, count: usize, tree: &[u8]) -> usize
    ensures { Put out.old out.new (head_text n count tree.now) 0 result }
{
    let a = put_figure(out, 0, b"length ", n);
    let b = put_figure(out, a, b"comparisons ", count);
    let c = put(out, b, b"tree ");
    let d = put_tree(out, c, tree);
    put_byte(out, d, b'\n')
}

// The lines of all positions of the letters, from their tables.
fn put_lines(out: &mut [u8], at: usize, letters: &[u8], tables: &Tables) -> usize
    requires { Nearests (ranks letters.now) (tables_in tables.now) }
    ensures { Put out.old out.new (lines (ranks letters.now) (length letters.now)) at result }
{
    let n = letters.len();
    let mut end = at;
    for (k, (&p, &q)) in tables.previous.iter().zip(tables.next.iter()).enumerate() {
        end = put_line(out, end, n, k, p as usize, q as usize);
    }
    end
}

// Equal and unequal comparisons together.
fn count(built: Result<Built, Refusal>) -> usize
    requires { count_of (figures_of built) ≤ most_compared }
    ensures { result ≡ count_of (figures_of built) }
{
    match built {
        Ok(Built::Finished(report) | Built::Halted(report)) => report.equal + report.unequal,
        Err(_) => 0,
    }
}

// Builds all rows of the letters, and answers the count.
fn build_all(letters: &[u8], tables: &mut Tables, tree: &mut [u8]) -> usize
    requires { Room (length letters.now) (tables_in tables.old) (length tree.old) }
    ensures lent { SameLent tables.old tables.new }
    ensures built { WholeBuild (ranks letters.now) (tables_in tables.new) tree.new result }
{
    count(build::build(letters, letters.len(), tables, tree))
}

// The text of letters that are not too long, by a build in lent memory.
fn put_tables(out: &mut [u8], letters: &[u8], tables: &mut Tables, tree: &mut [u8]) -> usize
    requires { Room (length letters.now) (tables_in tables.old) (length tree.old) }
    ensures { Put out.old out.new (tables_text (ranks letters.now)) 0 result }
{
    let comparisons = build_all(letters, tables, tree);
    let at = put_head(out, letters.len(), comparisons, tree);
    put_lines(out, at, letters, tables)
}

fn put_tables_of(out: &mut [u8], letters: &[u8]) -> usize
    requires { length letters.now ≤ 2048 }
    ensures { Put out.old out.new (tables_text (ranks letters.now)) 0 result }
{
    let n = letters.len();
    let t = tree_length(n);
    let mut previous = [0; 2048];
    let mut next = [0; 2048];
    let mut previous_match = [0; 2048];
    let mut next_match = [0; 2048];
    let mut tree = [0; 512];
    let mut tables = Tables {
        previous: &mut previous[..n],
        next: &mut next[..n],
        previous_match: &mut previous_match[..n],
        next_match: &mut next_match[..n],
    };
    put_tables(out, letters, &mut tables, &mut tree[..t])
}

// Puts the whole text for these letters at the start of out, and answers its length.
pub fn render(letters: &[u8], out: &mut [u8; 180000]) -> usize
    ensures { Rendered letters.now out.old out.new result }
{
    if letters.len() > 2048 {
        return put(out, 0, b"too long\n");
    }
    put_tables_of(out, letters)
}

// Writes to standard output what render makes of the letters. What a call on a file descriptor writes is beyond a contract.
fn print(rt: &impl Print, letters: &[u8]) -> io::Result<()> {
    // Room for the text of 2,048 positions.
    let mut text = [0; 180000];
    let n = render(letters, &mut text);
    io::writer(rt).write_all(&text[..n])
}

// The program: reads standard input up to its end, or up to 2,049 bytes, one more than there may be letters, and prints the text for these.
pub fn run(rt: &(impl Input + Print)) {
    let mut letters = [0; 2049];
    let n = read_full(&mut rt.reader(), &mut letters);
    let _ = print(rt, &letters[..n]);
}
