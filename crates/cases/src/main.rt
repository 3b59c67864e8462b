// Document 01's cases and published values, run through the public calls, a line each.
#![tactic(auto)]

mod histograms;

// The number of standard output.
pub(crate) const STANDARD_OUTPUT: i32 = 1;

fn main() {
    checksums();
    histograms::run();
}

// Published check values: "123456789" and nothing from the catalogue's CRC-16/IBM-3740, the others from ECSS-E-ST-70-41C,
// annex B.
fn checksums() {
    checksum(b"123456789");
    checksum(&[]);
    checksum(&[0x00, 0x00]);
    checksum(&[0x00, 0x00, 0x00]);
    checksum(&[0xab, 0xcd, 0xef, 0x01]);
    checksum(&[0x14, 0x56, 0xf8, 0x9a, 0x00, 0x01]);
}

fn checksum(bytes: &[u8]) {
    io::write_all(STANDARD_OUTPUT, b"checksum ");
    io::print_hex(STANDARD_OUTPUT, u64::from(crc::checksum(bytes)), 4);
    io::write_all(STANDARD_OUTPUT, b"\n");
}
