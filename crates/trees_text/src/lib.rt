// The program that prints every tree of a size: line by line, put into a buffer and written to standard output.
#![tactic(auto)]

ghost use Rattle.std.specs.Prelude.{◌≡◌, ◌≤◌, length};
ghost use Rattle.suffix.specs.Tree.{tree_length};
ghost use Rattle.writing.specs.Writing.{Put};
ghost use Rattle.small_trees.specs.Answers.{going_of, next_refusal};
ghost use Rattle.trees_text.specs.Text.{symbols_text, line_of, line_text, size_text, program_text};
ghost use Rattle.trees_text.specs.Lines.{stops, LineMade, Begun};

use reading::read_full;
use refusal::Refusal;
use small_trees::Step;
use std::io::{self, Write};
use suffix::tree_length;
use tree_size::size_in;
use writing::{put, put_byte, put_decimal, put_hexes};

// The length of a line that was put, and whether it is the last one.
#[derive(Clone, Copy)]
struct Line {
    length: usize,
    last: bool,
}

// Puts the symbols, each behind a blank.
fn put_symbols(out: &mut [u8], at: usize, symbols: &[u32]) -> usize
    ensures { Put out.old out.new (symbols_text symbols.now (length symbols.now)) at result }
{
    let mut end = at;
    for &symbol in symbols {
        let mid = put_byte(out, end, b' ');
        end = put_decimal(out, mid, symbol as usize);
    }
    end
}

fn put_line(out: &mut [u8], tree: &[u8], symbols: &[u32]) -> usize
    ensures { Put out.old out.new (line_of tree.now symbols.now) 0 result }
{
    let a = put_hexes(out, 0, tree);
    let b = put_symbols(out, a, symbols);
    put_byte(out, b, b'\n')
}

// Puts the line of a tree; its string is worked out in the lent symbols.
fn put_tree(out: &mut [u8], size: usize, tree: &[u8], symbols: &mut [u32]) -> usize
    requires { (next_refusal size tree.now ≡ 0) × (length symbols.old ≡ size) }
    ensures { Put out.old out.new (line_text size tree.now) 0 result }
{
    let _ = tree_string::write(size, tree, symbols);
    put_line(out, tree, symbols)
}

// Whether there is no next tree.
fn stops(step: Result<Step, Refusal>) -> bool
    ensures { result ≡ stops (going_of step) }
{
    !matches!(step, Ok(Step::Next))
}

// Puts the line of a tree and goes on to the next tree.
fn make_line(size: usize, tree: &mut [u8], out: &mut [u8]) -> Line
    requires { next_refusal size tree.old ≡ 0 }
    ensures { LineMade size tree.old tree.new out.old out.new result }
{
    let mut symbols = [0; 12];
    let length = put_tree(out, size, tree, &mut symbols[..size]);
    let last = stops(small_trees::next(size, tree));
    Line { length, last }
}

// Puts the program's first line for a size: the line of the first tree, or `no size` where that is refused.
fn begin(size: usize, tree: &mut [u8], out: &mut [u8]) -> Line
    ensures { Begun size tree.old tree.new out.old out.new result }
{
    match small_trees::first(size, tree) {
        Ok(()) => make_line(size, tree, out),
        Err(_) => {
            let length = put(out, 0, b"no size\n");
            Line { length, last: true }
        }
    }
}

fn write_line(rt: &impl Print, line: &[u8]) -> io::Result<()> {
    io::writer(rt).write_all(line)
}

// Hands one line after the other to standard output, and answers how many bytes these are. What a call on a file descriptor writes is beyond a
// contract.
fn print_lines(rt: &impl Print, size: usize, tree: &mut [u8], text: &mut [u8]) -> usize
    requires { (length tree.old ≡ tree_length size) × (300 ≤ length text.old) }
    ensures { result ≡ length (size_text size) }
{
    let mut line = begin(size, tree, text);
    let mut bytes = 0;
    loop {
        let n = line.length;
        let _ = write_line(rt, &text[..n]);
        bytes += n;
        if line.last {
            return bytes;
        }
        line = make_line(size, tree, text);
    }
}

fn print(rt: &impl Print, input: &[u8]) -> usize
    ensures { result ≡ length (program_text input.now) }
{
    let size = size_in(input);
    let bytes = tree_length(size);
    // Room for the tree of any size of two digits.
    let mut tree = [0; 25];
    // Room for a line: three bytes in hexadecimal, and twelve numbers of any length with their blanks.
    let mut text = [0; 300];
    print_lines(rt, size, &mut tree[..bytes], &mut text)
}

// The program: reads standard input up to its end, or up to 4 bytes, which are more than a size has.
pub fn run(rt: &(impl Input + Print)) {
    let mut input = [0u8; 4];
    let n = read_full(&mut rt.reader(), &mut input);
    print(rt, &input[..n]);
}
