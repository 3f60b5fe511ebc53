//! Frames as a peer writes them (MQTT 5.0 sections 2 and 3).

use crate::made::{Made, level};
use crate::random::Random;
use std::alloc::{AllocError, Global};

/// Writes a variable byte integer (1.5.5).
fn put_varint(out: &mut Vec<u8>, number: usize) -> Result<(), AllocError> {
    let mut left = number;
    for _ in 0..4 {
        let low = (left % 128) as u8;
        left /= 128;
        if left == 0 {
            out.push(low)?;
            return Ok(());
        }
        out.push(low | 128)?;
    }
    Ok(())
}

fn put_u16(out: &mut Vec<u8>, number: u16) -> Result<(), AllocError> {
    out.extend_from_slice(&number.to_be_bytes())
}

/// Writes bytes behind their length (1.5.4, 1.5.6).
fn put_field(out: &mut Vec<u8>, bytes: &[u8]) -> Result<(), AllocError> {
    put_u16(out, u16::try_from(bytes.len()).unwrap_or(0))?;
    out.extend_from_slice(bytes)
}

/// Writes a frame of this body (2.1).
fn put_frame(out: &mut Vec<u8>, first: u8, body: &[u8]) -> Result<(), AllocError> {
    out.push(first)?;
    put_varint(out, body.len())?;
    out.extend_from_slice(body)
}

/// Writes an ack of two bytes (3.4 to 3.7).
pub fn put_ack(out: &mut Vec<u8>, first: u8, id: u16) -> Result<(), AllocError> {
    out.extend_from_slice(&[first, 2])?;
    put_u16(out, id)
}

/// Writes a ConnAck of success, with a receive maximum (3.2).
pub fn put_connack(out: &mut Vec<u8>, present: bool, max: u16) -> Result<(), AllocError> {
    let mut body = Vec::new(*out.allocator());
    body.extend_from_slice(&[if present { 1 } else { 0 }, 0, 3, 33])?;
    put_u16(&mut body, max)?;
    put_frame(out, 0x20, body.as_slice())
}

/// The frames of a peer, one after another.
#[derive(Drop)]
pub struct Frames {
    /// What was written.
    pub bytes: Vec<u8>,
    body: Vec<u8>,
    block: Vec<u8>,
}

impl Frames {
    pub fn new(alloc: Global) -> Frames {
        Frames {
            bytes: Vec::new(alloc),
            body: Vec::new(alloc),
            block: Vec::new(alloc),
        }
    }

    /// Ends the frame that stands in the body.
    fn end_frame(&mut self, first: u8) -> Result<(), AllocError> {
        self.end_with(first, &[])
    }

    /// Ends the frame that stands in the body, with a payload behind it.
    fn end_with(&mut self, first: u8, payload: &[u8]) -> Result<(), AllocError> {
        self.bytes.push(first)?;
        let len = self.body.len().saturating_add(payload.len());
        put_varint(&mut self.bytes, len)?;
        self.bytes.extend_from_slice(self.body.as_slice())?;
        self.bytes.extend_from_slice(payload)?;
        self.body.clear();
        Ok(())
    }

    /// Ends the block of properties (2.2.2).
    fn end_block(&mut self) -> Result<(), AllocError> {
        put_varint(&mut self.body, self.block.len())?;
        self.body.extend_from_slice(self.block.as_slice())?;
        self.block.clear();
        Ok(())
    }

    /// A property of a Publish; of the kinds in turn (3.3.2.3).
    fn put_property(
        &mut self,
        made: &Made,
        random: &mut Random,
        kind: usize,
    ) -> Result<(), AllocError> {
        let block = &mut self.block;
        match kind % 7 {
            0 => {
                block.extend_from_slice(&[2, 0, 0])?;
                put_u16(block, random.short())
            }
            1 | 4 => put_user_property(block, made, random),
            2 => {
                block.push(3)?;
                put_field(block, b"application/json")
            }
            3 => {
                block.push(8)?;
                put_field(block, made.topic(random).as_bytes())
            }
            5 => {
                block.push(9)?;
                let len = 8 + random.below(17);
                put_field(block, made.bytes(random, len))
            }
            _ => block.extend_from_slice(&[1, 1]),
        }
    }

    /// A block for one message in five, of 1 to 5 properties; of `heavy` ones hundreds of user properties.
    fn put_block(
        &mut self,
        made: &Made,
        random: &mut Random,
        heavy: bool,
    ) -> Result<(), AllocError> {
        if heavy {
            for _ in 0..200 + random.below(200) {
                put_user_property(&mut self.block, made, random)?;
            }
        } else if random.chance(1, 5) {
            let first = random.below(7);
            for kind in first..first + 1 + random.below(5) {
                self.put_property(made, random, kind)?;
            }
        }
        self.end_block()
    }

    /// A Publish (3.3), with an id if it isn't 0.
    pub fn put_publish(
        &mut self,
        made: &Made,
        random: &mut Random,
        qos: u8,
        id: u16,
        payload: &[u8],
    ) -> Result<(), AllocError> {
        self.put_publish_of(made, random, qos, id, payload, false)
    }

    /// The same, with hundreds of user properties where it is heavy.
    pub fn put_publish_of(
        &mut self,
        made: &Made,
        random: &mut Random,
        qos: u8,
        id: u16,
        payload: &[u8],
        heavy: bool,
    ) -> Result<(), AllocError> {
        put_field(&mut self.body, made.topic(random).as_bytes())?;
        if id != 0 {
            put_u16(&mut self.body, id)?;
        }
        self.put_block(made, random, heavy)?;
        self.end_with(0x30 | (qos & 3) << 1, payload)
    }

    /// A Publish of QoS 0 without properties.
    pub fn put_publish_to(&mut self, topic: &str, payload: &[u8]) -> Result<(), AllocError> {
        put_field(&mut self.body, topic.as_bytes())?;
        self.body.push(0)?;
        self.end_with(0x30, payload)
    }

    /// A Subscribe to one filter, at QoS 0.
    pub fn put_subscribe_to(&mut self, filter: &str) -> Result<(), AllocError> {
        self.body.extend_from_slice(&[0, 7, 0])?;
        put_field(&mut self.body, filter.as_bytes())?;
        self.body.push(0)?;
        self.end_frame(0x82)
    }

    /// A Connect with a will and a login (3.1).
    pub fn put_connect(&mut self, made: &Made, random: &mut Random) -> Result<(), AllocError> {
        put_field(&mut self.body, b"MQTT")?;
        self.body.extend_from_slice(&[5, 0xCE])?;
        put_u16(&mut self.body, random.short())?;
        self.block.extend_from_slice(&[17, 0, 0])?;
        put_u16(&mut self.block, random.short())?;
        self.block.extend_from_slice(&[33, 0, 20])?;
        self.end_block()?;
        put_field(&mut self.body, made.topic(random).as_bytes())?;
        self.block.extend_from_slice(&[24, 0, 0])?;
        put_u16(&mut self.block, random.short())?;
        self.end_block()?;
        put_field(&mut self.body, made.topic(random).as_bytes())?;
        let len = 1 + random.below(100);
        put_field(&mut self.body, made.bytes(random, len))?;
        put_field(&mut self.body, level(random).as_bytes())?;
        put_field(&mut self.body, b"pass-word")?;
        self.end_frame(0x10)
    }

    /// A ConnAck (3.2).
    pub fn put_connack(&mut self, made: &Made, random: &mut Random) -> Result<(), AllocError> {
        self.body.extend_from_slice(&[0, 0])?;
        self.block.extend_from_slice(&[33, 1])?;
        self.block.push((random.short() & 0xFF) as u8)?;
        self.block.extend_from_slice(&[34, 0, 10, 18])?;
        put_field(&mut self.block, made.topic(random).as_bytes())?;
        self.end_block()?;
        self.end_frame(0x20)
    }

    /// A Subscribe of 1 to 100 filters (3.8).
    pub fn put_subscribe(
        &mut self,
        made: &Made,
        random: &mut Random,
        id: u16,
    ) -> Result<(), AllocError> {
        put_u16(&mut self.body, id)?;
        self.end_block()?;
        let most = if random.chance(1, 10) { 100 } else { 5 };
        for _ in 0..1 + random.below(most) {
            put_field(&mut self.body, made.topic(random).as_bytes())?;
            self.body.push((random.short() % 3) as u8)?;
        }
        self.end_frame(0x82)
    }

    /// A SubAck of 1 to 100 reasons (3.9).
    pub fn put_suback(&mut self, random: &mut Random, id: u16) -> Result<(), AllocError> {
        put_u16(&mut self.body, id)?;
        self.end_block()?;
        let most = if random.chance(1, 10) { 100 } else { 5 };
        for _ in 0..1 + random.below(most) {
            self.body.push((random.short() % 3) as u8)?;
        }
        self.end_frame(0x90)
    }

    /// An Unsubscribe of 1 to 5 filters (3.10).
    pub fn put_unsubscribe(
        &mut self,
        made: &Made,
        random: &mut Random,
        id: u16,
    ) -> Result<(), AllocError> {
        put_u16(&mut self.body, id)?;
        self.end_block()?;
        for _ in 0..1 + random.below(5) {
            put_field(&mut self.body, made.topic(random).as_bytes())?;
        }
        self.end_frame(0xA2)
    }

    /// An ack with a reason and a reason string (3.4 to 3.7).
    pub fn put_long_ack(
        &mut self,
        made: &Made,
        random: &mut Random,
        first: u8,
        id: u16,
    ) -> Result<(), AllocError> {
        put_u16(&mut self.body, id)?;
        self.body.push(0)?;
        self.block.push(31)?;
        put_field(&mut self.block, made.topic(random).as_bytes())?;
        self.end_block()?;
        self.end_frame(first)
    }
}

fn put_user_property(
    block: &mut Vec<u8>,
    made: &Made,
    random: &mut Random,
) -> Result<(), AllocError> {
    block.push(38)?;
    put_field(block, level(random).as_bytes())?;
    put_field(block, made.topic(random).as_bytes())
}
