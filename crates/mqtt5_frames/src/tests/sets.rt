//! Property sets as blocks.

use bytes::{Bytes, BytesMut};
use mqtt5_base::{Error, PropertyBlock, block_len, read_block};
use mqtt5_publish::AckProperties;
use std::alloc::Global;
use std::test::Fail;

const BLOCK: &[u8] = &[0x09, 0x1F, 0x00, 0x01, 0x61, 0x26, 0x00, 0x00, 0x00, 0x00];

/// Reads a block as a set, and writes that.
fn write_again(alloc: Global, block: &[u8], buffer: &mut BytesMut) -> Result<(), Error> {
    let mut stream = Bytes::copy_from_slice(alloc, block)?;
    let set = AckProperties::read(alloc, &mut stream);
    drop(stream);
    match set? {
        Some(set) => {
            let written = set.write(buffer);
            drop(set);
            written
        }
        None => Ok(()),
    }
}

/// How many bytes a block takes once it is read.
fn read_len(alloc: Global, block: &[u8]) -> Result<usize, Error> {
    let mut stream = Bytes::copy_from_slice(alloc, block)?;
    let set: Option<AckProperties> = read_block(alloc, &mut stream)?;
    let len = block_len(&set);
    drop(set);
    Ok(len)
}

#[test]
fn sets_as_blocks(rt: HostRuntime) -> Result<(), Fail> {
    let mut again = BytesMut::new(rt.alloc());
    let written = write_again(rt.alloc(), BLOCK, &mut again);
    assert!(rt; written.is_ok() && again.as_slice() == BLOCK);
    assert!(rt; matches!(read_len(rt.alloc(), BLOCK), Ok(10)));
    Ok(())
}
