// The code program on small reads, a test program: it is fed a hard input, 61 bytes at a time, so that lines of every length up
// to ten are cut by the end of a read, each at every place.
#![tactic(auto)]

// The number by which the system knows standard input.
const STANDARD_INPUT: i32 = 0;

fn main() {
    let mut input = [0u8; 61];
    let header = printing::print_header();
    if header.written {
        print_lines(&mut input);
    }
}

// Prints the answer of every line, and at the end of the input that of a last line; it stops where standard output takes no more.
// A proved loop has to end: it has more turns than any run takes.
fn print_lines(input: &mut [u8]) {
    let mut line = lines::fresh_line();
    for _ in 0..u64::MAX {
        let got = io::read_full(STANDARD_INPUT, input);
        if got == 0 {
            break;
        }
        let printed = printing::print_piece(line, &input[..got]);
        if !printed.written {
            return;
        }
        line = printed.line;
    }
    printing::print_last(line);
}
