//! A digest of what calls answered.

use mqtt5_base::QoS;
use mqtt5_codec::Packet;
use mqtt5_publish::Publish;
use mqtt5_session::{Event, Outgoing, Request};

/// A number that all that was added to it determines.
#[derive(Drop)]
pub struct Digest {
    state: u64,
}

impl Digest {
    pub fn new() -> Digest {
        Digest { state: 7 }
    }

    pub fn add(&mut self, number: u64) {
        let mixed = (self.state ^ number).wrapping_mul(0x9e37_79b9_7f4a_7c15);
        self.state = mixed ^ mixed >> 32;
    }

    /// By sums of 64 bytes, which take little time beside the calls.
    pub fn add_bytes(&mut self, bytes: &[u8]) {
        self.add(bytes.len() as u64);
        for part in bytes.chunks(64) {
            self.add(u64::from(sum(part)));
        }
    }

    pub fn value(&self) -> u64 {
        self.state
    }

    pub fn add_publish(&mut self, publish: &Publish) {
        self.add(u64::from(publish.pkid));
        self.add(match publish.qos {
            QoS::AtMostOnce => 0,
            QoS::AtLeastOnce => 1,
            QoS::ExactlyOnce => 2,
        });
        self.add(if publish.dup { 1 } else { 0 });
        self.add_bytes(publish.topic.as_slice());
        self.add_bytes(publish.payload.as_slice());
        self.add_properties(publish);
    }

    fn add_properties(&mut self, publish: &Publish) {
        let Some(properties) = &publish.properties else {
            return;
        };
        self.add(u64::from(properties.message_expiry_interval.unwrap_or(7)));
        self.add(u64::from(properties.payload_format_indicator.unwrap_or(7)));
        if let Some(text) = &properties.content_type {
            self.add_bytes(text.as_bytes());
        }
        if let Some(text) = &properties.response_topic {
            self.add_bytes(text.as_bytes());
        }
        if let Some(data) = &properties.correlation_data {
            self.add_bytes(data.as_slice());
        }
        self.add(properties.user_properties.len() as u64);
    }

    pub fn add_packet(&mut self, packet: &Packet) {
        self.add(u64::from(packet.packet_type()));
        match packet {
            Packet::Publish(publish) => self.add_publish(publish),
            Packet::PubAck(ack) => self.add(u64::from(ack.pkid)),
            Packet::PubRec(ack) => self.add(u64::from(ack.pkid)),
            Packet::PubRel(ack) => self.add(u64::from(ack.pkid)),
            Packet::PubComp(ack) => self.add(u64::from(ack.pkid)),
            Packet::Subscribe(subscribe) => self.add(subscribe.filters.len() as u64),
            Packet::SubAck(ack) => self.add(ack.return_codes.len() as u64),
            _other => {}
        }
    }

    pub fn add_outgoing(&mut self, outgoing: &Outgoing) {
        self.add(match outgoing {
            Outgoing::Publish(id) => 0x1_0000 + u64::from(*id),
            Outgoing::PubAck(id) => 0x2_0000 + u64::from(*id),
            Outgoing::PubRec(id) => 0x3_0000 + u64::from(*id),
            Outgoing::PubRel(id) => 0x4_0000 + u64::from(*id),
            Outgoing::PubComp(id) => 0x5_0000 + u64::from(*id),
            Outgoing::AwaitAck(id) => 0x6_0000 + u64::from(*id),
            _other => 0x7_0000,
        });
    }

    pub fn add_event(&mut self, event: &Event) {
        match event {
            Event::Incoming(packet) => self.add_packet(packet),
            Event::Outgoing(outgoing) => self.add_outgoing(outgoing),
        }
    }

    pub fn add_request(&mut self, request: &Request) {
        match request {
            Request::Publish(publish) => self.add_publish(publish),
            Request::PubRel(release) => self.add(u64::from(release.pkid)),
            _other => self.add(9),
        }
    }
}

fn sum(bytes: &[u8]) -> u8 {
    let mut sum: u8 = 0;
    for byte in bytes {
        sum = sum.wrapping_add(*byte);
    }
    sum
}
