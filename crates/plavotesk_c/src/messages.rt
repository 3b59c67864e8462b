// Command messages, exported: read and written.
ghost use Rattle.plavotesk.specs.Promise.{MessageReadPromise, MessageWritePromise};

// The address, the size tag and the value of the message at the front of the bytes, and the bytes that it used; 4, 5, 6.
#[unsafe(no_mangle)]
pub extern "C" fn plv_message_read(
    bytes: &[u8],
    address: &mut u16,
    tag: &mut u8,
    value: &mut u64,
    used: &mut u64,
) -> u8
    ensures { MessageReadPromise bytes.now (record { address = address.old; tag = tag.old; value = value.old; used = used.old }) (result, record { address = address.new; tag = tag.new; value = value.new; used = used.new }) }
{
    plavotesk::messages::plv_message_read(bytes, address, tag, value, used)
}

// Writes the message of an address, a size tag and a value at the front of the buffer, and its bytes; 7, 3.
#[unsafe(no_mangle)]
pub extern "C" fn plv_message_write(
    buffer: &mut [u8],
    address: u16,
    tag: u8,
    value: u64,
    written: &mut u64,
) -> u8
    ensures { MessageWritePromise buffer.old address tag value written.old ((result, written.new), buffer.new) }
{
    plavotesk::messages::plv_message_write(buffer, address, tag, value, written)
}
