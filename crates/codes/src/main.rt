// The code program: its header, then for each line of standard input the value and both codes, or `refused 8`. It only moves
// bytes; the lines are taken apart and answered by the crate `lines`, and printed by `printing`.
#![tactic(auto)]

ghost use Rattle.io.specs.Counts.{IsPrefixLen};

use std::io::Read;

fn main(rt: HostRuntime) {
    let mut input = io::large_buffer();
    let header = printing::print_header();
    if header.written {
        print_lines(&rt, &mut input);
    }
}

// Prints the answer of every line as it is entered, and at the end of the input that of a last line; it stops where standard
// output takes no more. A proved loop has to end: it has more turns than any run takes.
fn print_lines(rt: &HostRuntime, input: &mut [u8]) {
    let mut line = lines::fresh_line();
    for _ in 0..u64::MAX {
        let got = read(rt, input);
        if got == 0 {
            break;
        }
        let printed = printing::print_piece(line, &input[..got]);
        if !printed.written {
            return;
        }
        line = printed.line;
    }
    printing::print_last(line);
}

// Reads what there is, without waiting for more; how many bytes. At the end of the input there are none, and so where a read fails.
fn read(rt: &HostRuntime, input: &mut [u8]) -> usize
    ensures { IsPrefixLen result input.new }
{
    rt.stdin().read(input).unwrap_or(0)
}
