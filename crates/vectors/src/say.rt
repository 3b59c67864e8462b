// What the answers' lines are made of.

// The number of the file that the answers are written to.
const STANDARD_OUTPUT: i32 = 1;

// The first number of a line.
pub fn first(n: u64) {
    io::print_decimal(STANDARD_OUTPUT, n);
}

// A further number of a line.
pub fn more(n: u64) {
    io::write_all(STANDARD_OUTPUT, b" ");
    first(n);
}

// A further number of a line, with its sign.
pub fn signed(v: i32) {
    io::write_all(STANDARD_OUTPUT, b" ");
    if code::sign(v) == 1 {
        io::write_all(STANDARD_OUTPUT, b"-");
    }
    first(u64::from(code::magnitude(v)));
}

// The end of a line.
pub fn end() {
    io::write_all(STANDARD_OUTPUT, b"\n");
}
