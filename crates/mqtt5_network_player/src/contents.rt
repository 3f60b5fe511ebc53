//! The lines that tell of a network: how often each content was shown to each client, and accepted by all sessions. A content is a
//! publish but for its id and dup.

use bytes::Bytes;
use mqtt5_network::{ClientEvent, NetworkEvent};
use mqtt5_network_play::{ClientReport, NetworkReport};
use mqtt5_publish::Publish;
use mqtt5_router::granted_for;
use mqtt5_scripts::write_message;
use std::alloc::{AllocError, Global};
use std::collections::BTreeMap;
use std::io;
use std::io::Write;

/// A content by its QOS, TOPIC and PAYLOAD: a script's publishes have no retain and no properties.
type Key = (u8, Bytes, Bytes);

fn key_of(publish: &Publish) -> Result<Key, AllocError> {
    let topic = publish.topic.clone()?;
    let payload = publish.payload.clone()?;
    Ok((publish.qos as u8, topic, payload))
}

/// A content, and how often it was accepted, by the sessions of all clients.
#[derive(Drop)]
struct Content {
    publish: Publish,
    accepted: usize,
}

/// The contents in order of their first publish, each found by its key, and how often any was asked for and accepted.
#[derive(Drop)]
struct Contents {
    places: BTreeMap<Key, usize>,
    contents: Vec<Content>,
    asked: usize,
    accepted: usize,
}

impl Contents {
    fn new(alloc: Global) -> Contents {
        Contents {
            places: BTreeMap::new(alloc),
            contents: Vec::new(alloc),
            asked: 0,
            accepted: 0,
        }
    }

    fn add_all(&mut self, events: &[NetworkEvent]) -> Result<(), AllocError> {
        for event in events {
            self.add_asked(&event.what)?;
        }
        Ok(())
    }

    /// Adds the content that an event asks for, if it asks for one.
    fn add_asked(&mut self, event: &ClientEvent) -> Result<(), AllocError> {
        if let ClientEvent::Ask(publish) = event {
            self.asked = self.asked.saturating_add(1);
            self.add(publish)?;
        }
        Ok(())
    }

    /// Adds the content of a publish, unless it is there.
    fn add(&mut self, publish: &Publish) -> Result<(), AllocError> {
        if self.place(publish)?.is_some() {
            return Ok(());
        }
        self.places.insert(key_of(publish)?, self.contents.len())?;
        let publish = publish.clone()?;
        self.contents.push(Content {
            publish,
            accepted: 0,
        })?;
        Ok(())
    }

    /// The place of a publish's content.
    fn place(&self, publish: &Publish) -> Result<Option<usize>, AllocError> {
        let key = key_of(publish)?;
        match self.places.get(&key) {
            Some(place) => Ok(Some(*place)),
            None => Ok(None),
        }
    }

    fn count_all(&mut self, clients: &[ClientReport]) -> Result<(), AllocError> {
        for client in clients {
            self.count_accepted(client.accepted.as_slice())?;
        }
        Ok(())
    }

    fn count_accepted(&mut self, publishes: &[Publish]) -> Result<(), AllocError> {
        for publish in publishes {
            self.accept(publish)?;
        }
        Ok(())
    }

    fn accept(&mut self, publish: &Publish) -> Result<(), AllocError> {
        self.accepted = self.accepted.saturating_add(1);
        if let Some(place) = self.place(publish)?
            && let Some(content) = self.contents.get_mut(place)
        {
            content.accepted = content.accepted.saturating_add(1);
        }
        Ok(())
    }

    /// How often each content stands among publishes, by its place.
    fn tally(
        &self,
        alloc: Global,
        publishes: &[Publish],
    ) -> Result<BTreeMap<usize, usize>, AllocError> {
        let mut tally = BTreeMap::new(alloc);
        for publish in publishes {
            self.count_one(publish, &mut tally)?;
        }
        Ok(tally)
    }

    fn count_one(
        &self,
        publish: &Publish,
        tally: &mut BTreeMap<usize, usize>,
    ) -> Result<(), AllocError> {
        if let Some(place) = self.place(publish)? {
            let before = match tally.get(&place) {
                Some(times) => *times,
                None => 0,
            };
            tally.insert(place, before.saturating_add(1))?;
        }
        Ok(())
    }
}

/// What is printed of a content for a client.
#[derive(Drop)]
struct Line {
    client: usize,
    content: usize,
    shown: usize,
    accepted: usize,
}

/// All that is printed.
#[derive(Drop)]
pub struct Counts {
    contents: Contents,
    lines: Vec<Line>,
    on_way: usize,
}

impl Counts {
    /// Counts the contents that these events ask for among the publishes of a report.
    pub fn of(
        alloc: Global,
        events: &[NetworkEvent],
        report: &NetworkReport,
    ) -> Result<Counts, AllocError> {
        let clients = report.clients.as_slice();
        let mut contents = Contents::new(alloc);
        contents.add_all(events)?;
        contents.count_all(clients)?;
        let lines = lines_of(alloc, &contents, clients)?;
        Ok(Counts {
            contents,
            lines,
            on_way: on_way(clients),
        })
    }
}

/// How many packets are on their way, and how many publishes are in the queues.
pub fn on_way(clients: &[ClientReport]) -> usize {
    let mut sum = 0usize;
    for client in clients {
        sum = sum
            .saturating_add(client.up)
            .saturating_add(client.down)
            .saturating_add(client.queued);
    }
    sum
}

fn lines_of(
    alloc: Global,
    contents: &Contents,
    clients: &[ClientReport],
) -> Result<Vec<Line>, AllocError> {
    let mut lines = Vec::new(alloc);
    for number in 0..clients.len() {
        add_lines(alloc, contents, number, &clients[number], &mut lines)?;
    }
    Ok(lines)
}

/// A line for each content that a filter of the client matches, or that was shown to it.
fn add_lines(
    alloc: Global,
    contents: &Contents,
    number: usize,
    client: &ClientReport,
    lines: &mut Vec<Line>,
) -> Result<(), AllocError> {
    let tally = contents.tally(alloc, client.shown.as_slice())?;
    for place in 0..contents.contents.len() {
        let shown = match tally.get(&place) {
            Some(times) => *times,
            None => 0,
        };
        add_line(
            &contents.contents[place],
            number,
            place,
            shown,
            client,
            lines,
        )?;
    }
    Ok(())
}

fn add_line(
    content: &Content,
    client: usize,
    place: usize,
    shown: usize,
    report: &ClientReport,
    lines: &mut Vec<Line>,
) -> Result<(), AllocError> {
    let matches = granted_for(false, report.subscriptions.as_slice(), &content.publish).is_some();
    if matches || shown > 0 {
        lines.push(Line {
            client,
            content: place,
            shown,
            accepted: if matches { content.accepted } else { 0 },
        })?;
    }
    Ok(())
}

/// Prints the lines, how much is on its way, and how many publishes were refused. Takes no memory.
pub fn write_counts<W: Write>(output: &mut W, counts: &Counts) -> io::Result<()> {
    for line in &counts.lines {
        write_line(output, &counts.contents, line)?;
    }
    writeln!(output, "on-way {}", counts.on_way)?;
    let refused = counts
        .contents
        .asked
        .saturating_sub(counts.contents.accepted);
    writeln!(output, "refused {refused}")
}

fn write_line<W: Write>(output: &mut W, contents: &Contents, line: &Line) -> io::Result<()> {
    let Some(content) = contents.contents.get(line.content) else {
        return Ok(());
    };
    write!(
        output,
        "client {} content {} ",
        line.client, content.publish.qos as u8
    )?;
    write_message(output, &content.publish)?;
    writeln!(output, " shown {} accepted {}", line.shown, line.accepted)
}
