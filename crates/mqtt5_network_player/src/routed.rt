//! The lines that tell of a network whose subscriptions or sessions change: how often each content was put into each client's
//! queue, and shown to the client.

use crate::contents::on_way;
use bytes::Bytes;
use mqtt5_network::{ClientEvent, NetworkEvent};
use mqtt5_network_play::{ClientReport, NetworkReport};
use mqtt5_publish::Publish;
use mqtt5_scripts::write_message;
use std::alloc::{AllocError, Global};
use std::collections::BTreeMap;
use std::io;
use std::io::Write;

/// A content by its QOS, whether it is the copy of a retained message, its TOPIC and its PAYLOAD.
type Key = (u8, bool, Bytes, Bytes);

fn key_of(publish: &Publish) -> Result<Key, AllocError> {
    let topic = publish.topic.clone()?;
    let payload = publish.payload.clone()?;
    Ok((publish.qos as u8, publish.retain, topic, payload))
}

/// What is printed of a content for a client.
#[derive(Drop)]
struct Line {
    client: usize,
    publish: Publish,
    routed: usize,
    shown: usize,
}

/// All that is printed.
#[derive(Drop)]
pub struct Routes {
    lines: Vec<Line>,
    on_way: usize,
    refused: usize,
}

impl Routes {
    /// Counts the contents of each client's queue, in the order in which they came there, and how many publishes were refused.
    pub fn of(
        alloc: Global,
        events: &[NetworkEvent],
        report: &NetworkReport,
    ) -> Result<Routes, AllocError> {
        let clients = report.clients.as_slice();
        let mut lines = Vec::new(alloc);
        for number in 0..clients.len() {
            add_lines(alloc, number, &clients[number], &mut lines)?;
        }
        let accepted = accepted_by(clients).saturating_add(accepted_by(report.ended.as_slice()));
        Ok(Routes {
            lines,
            on_way: on_way(clients),
            refused: asked_in(events).saturating_sub(accepted),
        })
    }
}

/// How many publishes were asked for.
fn asked_in(events: &[NetworkEvent]) -> usize {
    events
        .iter()
        .filter(|event| matches!(event.what, ClientEvent::Ask(_)))
        .count()
}

/// How many the sessions accepted.
fn accepted_by(clients: &[ClientReport]) -> usize {
    let mut sum = 0usize;
    for client in clients {
        sum = sum.saturating_add(client.accepted.len());
    }
    sum
}

/// A line for each content of a client's queue.
fn add_lines(
    alloc: Global,
    number: usize,
    client: &ClientReport,
    lines: &mut Vec<Line>,
) -> Result<(), AllocError> {
    let mut places = BTreeMap::new(alloc);
    for publish in client.routed.as_slice() {
        add_routed(number, publish, &mut places, lines)?;
    }
    for publish in client.shown.as_slice() {
        add_shown(publish, &places, lines)?;
    }
    Ok(())
}

/// Counts a publish of the queue, with a line of its own where it is the first of its content.
fn add_routed(
    number: usize,
    publish: &Publish,
    places: &mut BTreeMap<Key, usize>,
    lines: &mut Vec<Line>,
) -> Result<(), AllocError> {
    let key = key_of(publish)?;
    if let Some(place) = places.get(&key) {
        count_routed(lines, *place);
        return Ok(());
    }
    places.insert(key, lines.len())?;
    let publish = publish.clone()?;
    lines.push(Line {
        client: number,
        publish,
        routed: 1,
        shown: 0,
    })?;
    Ok(())
}

fn count_routed(lines: &mut Vec<Line>, place: usize) {
    if let Some(line) = lines.get_mut(place) {
        line.routed = line.routed.saturating_add(1);
    }
}

/// Counts a publish that was shown.
fn add_shown(
    publish: &Publish,
    places: &BTreeMap<Key, usize>,
    lines: &mut Vec<Line>,
) -> Result<(), AllocError> {
    let key = key_of(publish)?;
    if let Some(place) = places.get(&key)
        && let Some(line) = lines.get_mut(*place)
    {
        line.shown = line.shown.saturating_add(1);
    }
    Ok(())
}

/// Prints the lines, how much is on its way, and how many publishes were refused. Takes no memory.
pub fn write_routes<W: Write>(output: &mut W, routes: &Routes) -> io::Result<()> {
    for line in &routes.lines {
        write_line(output, line)?;
    }
    writeln!(output, "on-way {}", routes.on_way)?;
    writeln!(output, "refused {}", routes.refused)
}

fn write_line<W: Write>(output: &mut W, line: &Line) -> io::Result<()> {
    let kind = if line.publish.retain {
        "copy"
    } else {
        "content"
    };
    write!(
        output,
        "client {} {} {} ",
        line.client, kind, line.publish.qos as u8
    )?;
    write_message(output, &line.publish)?;
    writeln!(output, " routed {} shown {}", line.routed, line.shown)
}
