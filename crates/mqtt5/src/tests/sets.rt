//! Property sets by the public paths.

use crate::mqttbytes::Error;
use crate::mqttbytes::v5::{PropertyBlock, PublishProperties};
use bytes::{Bytes, BytesMut};
use std::alloc::Global;
use std::test::Fail;

/// A set of two ids.
const BLOCK: &[u8] = &[0x05, 0x01, 0x01, 0x23, 0x00, 0x02];

/// Reads a set by the public paths, and writes it again.
fn set_again(alloc: Global, buffer: &mut BytesMut) -> Result<(), Error> {
    let mut block = Bytes::from_static(BLOCK);
    match PublishProperties::read(alloc, &mut block)? {
        Some(set) => {
            let written = set.write(buffer);
            drop(set);
            written
        }
        None => Ok(()),
    }
}

#[test]
fn a_property_set_by_the_public_paths(rt: HostRuntime) -> Result<(), Fail> {
    let mut buffer = BytesMut::new(rt.alloc());
    set_again(rt.alloc(), &mut buffer)?;
    assert!(rt; buffer.as_slice() == BLOCK);
    Ok(())
}
