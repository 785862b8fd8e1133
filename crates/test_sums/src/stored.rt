// The oracle's checksums: a file has one for each case in order, 4 bytes each, high byte first.
use read_input::read_full;
use std::io;
use std::io::Read;

// Returns the next checksum of a file, or 0 past its end.
pub fn next_sum(file: &mut impl Read) -> io::Result<u32> {
    let mut bytes = [0u8; 4];
    read_full(file, &mut bytes)?;
    Ok(u32::from_be_bytes(bytes))
}
