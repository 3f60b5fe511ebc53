//! The lines that tell of a world: what came of each content, which is a publish but for its id and dup.

use bytes::Bytes;
use mqtt5_publish::Publish;
use mqtt5_scripts::write_hex;
use mqtt5_session::MqttState;
use mqtt5_streams::ByteEvent;
use mqtt5_world::{Report, WorldEvent};
use std::alloc::{AllocError, Global};
use std::collections::BTreeMap;
use std::io;
use std::io::Write;

/// What may ask for a publish.
pub trait Asks {
    /// The publish that is asked for.
    fn publish(&self) -> Option<&Publish>;
}

impl Asks for WorldEvent {
    fn publish(&self) -> Option<&Publish> {
        match self {
            WorldEvent::Publish(publish) => Some(publish),
            _ => None,
        }
    }
}

impl Asks for ByteEvent {
    fn publish(&self) -> Option<&Publish> {
        match self {
            ByteEvent::Publish(publish) => Some(publish),
            _ => None,
        }
    }
}

/// A content by its QOS, TOPIC and PAYLOAD: a script's publishes have no retain and no properties.
type Key = (u8, Bytes, Bytes);

fn key_of(publish: &Publish) -> Result<Key, AllocError> {
    let topic = publish.topic.clone()?;
    let payload = publish.payload.clone()?;
    Ok((publish.qos as u8, topic, payload))
}

/// How often a content was accepted, handed on, and is stored, and whether it waits.
#[derive(Drop)]
struct Tally {
    key: Key,
    accepted: usize,
    handed: usize,
    stored: usize,
    waits: bool,
}

/// The contents in order of their first publish, each found by its key.
#[derive(Drop)]
pub struct Contents {
    places: BTreeMap<Key, usize>,
    tallies: Vec<Tally>,
}

impl Contents {
    /// Counts the contents that these events ask for among the publishes of a report.
    pub fn count<E: Asks>(
        alloc: Global,
        events: &[E],
        report: &Report,
    ) -> Result<Contents, AllocError> {
        let mut contents = Contents {
            places: BTreeMap::new(alloc),
            tallies: Vec::new(alloc),
        };
        for event in events {
            if let Some(publish) = event.publish() {
                contents.add(publish)?;
            }
        }
        contents.count_accepted(report.accepted.as_slice())?;
        contents.count_handed(report.handed.as_slice())?;
        contents.count_stored(&report.state)?;
        Ok(contents)
    }

    /// Adds the content of a publish, unless it is there.
    fn add(&mut self, publish: &Publish) -> Result<(), AllocError> {
        let key = key_of(publish)?;
        if self.places.contains_key(&key) {
            return Ok(());
        }
        self.places.insert(key_of(publish)?, self.tallies.len())?;
        self.tallies.push(Tally {
            key,
            accepted: 0,
            handed: 0,
            stored: 0,
            waits: false,
        })?;
        Ok(())
    }

    /// The tally of a publish's content.
    fn tally(&mut self, publish: &Publish) -> Result<Option<&mut Tally>, AllocError> {
        let key = key_of(publish)?;
        match self.places.get(&key) {
            Some(place) => Ok(self.tallies.get_mut(*place)),
            None => Ok(None),
        }
    }

    fn count_accepted(&mut self, publishes: &[Publish]) -> Result<(), AllocError> {
        for publish in publishes {
            if let Some(tally) = self.tally(publish)? {
                tally.accepted = tally.accepted.saturating_add(1);
            }
        }
        Ok(())
    }

    fn count_handed(&mut self, publishes: &[Publish]) -> Result<(), AllocError> {
        for publish in publishes {
            if let Some(tally) = self.tally(publish)? {
                tally.handed = tally.handed.saturating_add(1);
            }
        }
        Ok(())
    }

    /// Counts what awaits an ack, and the publish that waits for its id.
    fn count_stored(&mut self, state: &MqttState) -> Result<(), AllocError> {
        for id in 1..=state.max_outgoing_inflight_upper_limit() {
            if let Some(publish) = state.outgoing_pub(id)
                && let Some(tally) = self.tally(publish)?
            {
                tally.stored = tally.stored.saturating_add(1);
            }
        }
        if let Some(publish) = state.collision()
            && let Some(tally) = self.tally(publish)?
        {
            tally.waits = true;
        }
        Ok(())
    }
}

/// Prints the contents, how many publishes were refused, and how many ids are in use. Takes no memory.
pub fn write_contents<W: Write>(
    output: &mut W,
    contents: &Contents,
    report: &Report,
) -> io::Result<()> {
    for tally in &contents.tallies {
        write_tally(output, tally)?;
    }
    writeln!(output, "refused {}", report.refused.len())?;
    writeln!(output, "inflight {}", report.state.inflight())
}

fn write_tally<W: Write>(output: &mut W, tally: &Tally) -> io::Result<()> {
    write!(output, "content {} ", tally.key.0)?;
    write_hex(output, tally.key.1.as_slice())?;
    output.write_all(b" ")?;
    write_hex(output, tally.key.2.as_slice())?;
    writeln!(
        output,
        " accepted {} handed {} stored {} waiting {}",
        tally.accepted,
        tally.handed,
        tally.stored,
        u8::from(tally.waits),
    )
}
