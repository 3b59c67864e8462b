// What the code program hands to standard output: the header, the answers of the lines that end in a piece of the input, and
// the answer of a last line. Each call has a room of its own, so that no lent memory is left open. Whether standard output took
// the bytes is answered as the system says it: where it did not, nothing more is handed over, and the program stops.
#![tactic(auto)]

ghost use Rattle.std.specs.Prelude.{◌≡◌, ◌+◌, ◌≤◌, length};
ghost use Rattle.lines.specs.Meaning.{enough};
ghost use Rattle.printing.specs.Promise.{PrintHeaderPromise, PrintLastPromise, PrintPiecePromise};

use lines::{Line, put_answer, put_header, run};

// The number by which the system knows standard output.
const STANDARD_OUTPUT: i32 = 1;

// What was meant for standard output: how many bytes, and whether it took them all.
#[derive(Clone, Copy)]
pub struct Output {
    pub put: usize,
    pub written: bool,
}

// What printing a piece answers: the line that does not end in it, how many bytes its answers have, and whether all were taken.
#[derive(Clone, Copy)]
pub struct Printed {
    pub line: Line,
    pub put: usize,
    pub written: bool,
}

// Prints the header; how many bytes were handed over, and whether they were taken.
pub fn print_header() -> Output
    ensures { PrintHeaderPromise result }
{
    let mut room = io::large_buffer();
    let put = put_header(&mut room);
    handed(true, &room[..put])
}

// Prints the answers of the lines that end in a piece of the input, as long as they are taken, and gives the line that does not.
pub fn print_piece(line: Line, piece: &[u8]) -> Printed
    ensures { PrintPiecePromise line piece.now result }
{
    let mut room = io::large_buffer();
    print_runs(line, piece, &mut room)
}

// Prints the answer of a last line that has any bytes; how many bytes were handed over.
pub fn print_last(line: Line) -> usize
    ensures { PrintLastPromise line result }
{
    if line.begun {
        let mut room = io::large_buffer();
        let said = put_answer(line, &mut room);
        handed(true, &room[..said]).put
    } else {
        0
    }
}

// Prints a piece's answers, as many at a time as the room takes, and gives the line that does not end.
fn print_runs(line: Line, piece: &[u8], room: &mut [u8]) -> Printed
    requires { enough ≤ length room.old }
    ensures { PrintPiecePromise line piece.now result }
{
    let mut current = line;
    let mut rest = piece;
    let mut put = 0usize;
    let mut written = true;
    // Stays: the new form is no plainer: a turn uses as much of the rest as the room takes, which only the run tells, so no iterator can cut it.
    while !rest.is_empty() {
        let ran = run(current, rest, room);
        let given = handed(written, &room[..ran.put]);
        put = put.saturating_add(given.put);
        current = ran.line;
        written = given.written;
        rest = &rest[ran.used..];
    }
    Printed {
        line: current,
        put,
        written,
    }
}

// Hands bytes over, where all so far was written; how many they are, and whether all is written now.
fn handed(so_far: bool, bytes: &[u8]) -> Output
    ensures { result.put ≡ length bytes.now }
{
    let written = so_far && io::write_all(STANDARD_OUTPUT, bytes);
    Output {
        put: bytes.len(),
        written,
    }
}
