// The checksum, and packets in a capture, exported: found, taken apart, written.
ghost use Rattle.crc.specs.Promise.{ChecksumPromise};
ghost use Rattle.plavotesk.specs.Promise.{PacketFindPromise, PacketHeaderPromise, PacketPayloadPromise, PacketWritePromise};

// The checksum of bytes.
#[unsafe(no_mangle)]
pub extern "C" fn plv_checksum(bytes: &[u8]) -> u16
    ensures { ChecksumPromise bytes.now result }
{
    plavotesk::packets::plv_checksum(bytes)
}

// The first place of the capture where a packet stands, and the bytes skipped before it; 1, or 20 with the bytes skipped.
#[unsafe(no_mangle)]
pub extern "C" fn plv_packet_find(capture: &[u8], place: &mut u64, skipped: &mut u64) -> u8
    ensures { PacketFindPromise capture.now (record { place = place.old; skipped = skipped.old }) (result, record { place = place.new; skipped = skipped.new }) }
{
    plavotesk::packets::plv_packet_find(capture, place, skipped)
}

// The APID and the number of data bytes of the packet at a place; 1, 20.
#[unsafe(no_mangle)]
pub extern "C" fn plv_packet_header(
    capture: &[u8],
    place: u64,
    apid: &mut u16,
    length: &mut u16,
) -> u8
    ensures { PacketHeaderPromise capture.now place (record { apid = apid.old; length = length.old }) (result, record { apid = apid.new; length = length.new }) }
{
    plavotesk::packets::plv_packet_header(capture, place, apid, length)
}

// Where the data of the packet at a place starts in the capture, and its bytes; 0 and 0 for an empty part.
#[unsafe(no_mangle)]
pub extern "C" fn plv_packet_payload(capture: &[u8], place: u64, start: &mut u64, length: &mut u64)
    ensures { PacketPayloadPromise capture.now place (start.new, length.new) }
{
    plavotesk::packets::plv_packet_payload(capture, place, start, length);
}

// Writes the packet of an APID and data at the front of the buffer, and its bytes; 2, 3.
#[unsafe(no_mangle)]
pub extern "C" fn plv_packet_write(
    buffer: &mut [u8],
    apid: u16,
    payload: &[u8],
    written: &mut u64,
) -> u8
    ensures { PacketWritePromise buffer.old apid payload.now written.old ((result, written.new), buffer.new) }
{
    plavotesk::packets::plv_packet_write(buffer, apid, payload, written)
}
