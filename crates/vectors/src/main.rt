// What the exported calls do not reach, run on stored records: the reader of packed codes. A record is what is asked for, a drop,
// how many bytes it has, a bit position in eight bytes, and those bytes. What must be printed comes from tests/reference.
#![tactic(auto)]

mod codes;
mod say;

// The number of the file that the records are read from.
const STANDARD_INPUT: i32 = 0;

fn main() {
    let mut room = io::buffer();
    serve(&mut room);
}

// Answers every record. A proved loop has to end: it has more turns than any run takes.
fn serve(room: &mut [u8]) {
    for _ in 0..u64::MAX {
        if !one(room) {
            return;
        }
    }
}

// Answers one record, and whether there was one.
fn one(room: &mut [u8]) -> bool {
    let mut head = [0u8; 11];
    if io::read_full(STANDARD_INPUT, &mut head) < 11 {
        return false;
    }
    let size = usize::from(head[2]);
    if room.len() < size {
        return false;
    }
    if io::read_full(STANDARD_INPUT, &mut room[..size]) < size {
        return false;
    }
    answer(&head, &room[..size]);
    true
}

// Prints what a record asks for: a code, or a run of codes.
fn answer(head: &[u8; 11], bytes: &[u8]) {
    match head[0] {
        b'r' => codes::read(bytes, position(head), head[1]),
        b'm' => codes::run(bytes, position(head), head[1]),
        _ => (),
    }
}

// The bit position, most significant byte first.
fn position(head: &[u8; 11]) -> u64 {
    let mut position = [0; 8];
    position.copy_from_slice(&head[3..]);
    u64::from_be_bytes(position)
}
