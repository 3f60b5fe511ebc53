//! A publisher with a window: publishes are asked for until the window is full, and acks come in.

ghost use Rattle.std.specs.Prelude.{◌<◌};

use crate::calls::{ask, hand_in, send_out};
use crate::digest::Digest;
use crate::frames::put_ack;
use crate::made::Made;
use crate::random::Random;
use bytes::Bytes;
use mqtt5_base::Text;
use mqtt5_client::{Client, Event, Outgoing, Publish, QoS, Request, StateError};
use mqtt5_publish::PublishProperties;
use std::alloc::Global;
use std::collections::VecDeque;

/// The order in which a broker acknowledges.
#[derive(Clone, Copy, PartialEq)]
enum Order {
    InTurn,
    Backwards,
    Shuffled,
    /// In turn, but the first one only when a publish waits for its id.
    FirstLate,
}

/// Makes a publish, of which one in five has properties.
pub fn make_publish(
    alloc: Global,
    made: &Made,
    random: &mut Random,
    qos: QoS,
) -> Result<Publish, StateError> {
    let payload = Bytes::copy_from_slice(alloc, made.payload(random))?;
    let properties = if random.chance(1, 5) {
        Some(make_properties(alloc, made, random)?)
    } else {
        None
    };
    Ok(Publish::new(alloc, made.topic(random), qos, payload, properties)?)
}

fn make_properties(
    alloc: Global,
    made: &Made,
    random: &mut Random,
) -> Result<PublishProperties, StateError> {
    let mut properties = PublishProperties::new(alloc);
    properties.message_expiry_interval = Some(u32::from(random.short()));
    properties.content_type = Some(Text::from_str(alloc, "application/json")?);
    for _ in 0..random.below(3) {
        let name = Text::from_str(alloc, made.topic(random))?;
        let value = Text::from_str(alloc, made.topic(random))?;
        properties.user_properties.push((name, value))?;
    }
    Ok(properties)
}

/// A client, and the broker's side of what it sent.
#[derive(Drop)]
struct Window {
    client: Client,
    /// The QoS of each publish that was asked for and isn't sent yet.
    asked: VecDeque<QoS>,
    /// Frames that the broker answers with, as their first bytes and ids.
    answers: Vec<(u8, u16)>,
    /// The answer that is late.
    late: Option<(u8, u16)>,
    frames: Vec<u8>,
}

impl Window {
    fn new(alloc: Global, limit: u16) -> Result<Window, StateError>
        requires { 0 < limit }
    {
        Ok(Window {
            client: Client::new(alloc, limit, false)?,
            asked: VecDeque::new(alloc),
            answers: Vec::new(alloc),
            late: None,
            frames: Vec::new(alloc),
        })
    }

    /// What the broker makes of what the client tells that it sent.
    fn note(&mut self, outgoing: Outgoing, order: Order) -> Result<(), StateError> {
        match outgoing {
            Outgoing::Publish(id) => {
                let qos = self.asked.pop_front().unwrap_or(QoS::AtLeastOnce);
                let first = if qos == QoS::ExactlyOnce { 0x50 } else { 0x40 };
                if order == Order::FirstLate && id == 1 && self.late.is_none() {
                    self.late = Some((first, id));
                } else {
                    self.answers.push((first, id))?;
                }
            }
            Outgoing::PubRel(id) => self.answers.push((0x70, id))?,
            Outgoing::AwaitAck(_) => {
                if let Some(answer) = self.late.take() {
                    self.answers.push(answer)?;
                }
            }
            _other => {}
        }
        Ok(())
    }

    fn take_event(&mut self, order: Order, digest: &mut Digest) -> Result<(), StateError> {
        let Some(event) = self.client.next_event() else {
            return Ok(());
        };
        digest.add_event(&event);
        match event {
            Event::Outgoing(outgoing) => self.note(outgoing, order),
            Event::Incoming(_) => Ok(()),
        }
    }

    fn take_events(&mut self, order: Order, digest: &mut Digest) -> Result<(), StateError> {
        let count = self.client.state.events().len();
        for _ in 0..count {
            self.take_event(order, digest)?;
        }
        Ok(())
    }

    /// Whether another publish may be asked for.
    fn has_room(&self, limit: u16) -> bool {
        self.client.state.inflight() < limit && self.client.state.collision().is_none()
    }

    /// Asks for publishes until the window is full or there were so many, one in four of QoS 2; answers how many.
    fn fill(
        &mut self,
        alloc: Global,
        made: &Made,
        random: &mut Random,
        limit: u16,
        most: usize,
    ) -> Result<usize, StateError> {
        for count in 0..most {
            if !self.has_room(limit) {
                return Ok(count);
            }
            let qos = if random.chance(1, 4) {
                QoS::ExactlyOnce
            } else {
                QoS::AtLeastOnce
            };
            let publish = make_publish(alloc, made, random, qos)?;
            self.asked.push_back(qos)?;
            ask(&mut self.client, Request::Publish(publish))?;
        }
        Ok(most)
    }

    /// The late answer comes, where nothing else does.
    fn end_waiting(&mut self) -> Result<(), StateError> {
        if let Some(answer) = self.late.take() {
            self.answers.push(answer)?;
        }
        Ok(())
    }

    /// Hands in all answers.
    fn answer(
        &mut self,
        random: &mut Random,
        order: Order,
        digest: &mut Digest,
    ) -> Result<(), StateError> {
        arrange(&mut self.answers, random, order);
        self.frames.clear();
        for (first, id) in self.answers.as_slice() {
            put_ack(&mut self.frames, *first, *id)?;
        }
        self.answers.clear();
        for piece in self.frames.as_slice().chunks(1_460) {
            hand_in(&mut self.client, piece, digest)?;
        }
        Ok(())
    }
}

fn arrange(answers: &mut Vec<(u8, u16)>, random: &mut Random, order: Order) {
    match order {
        Order::Backwards => answers.reverse(),
        Order::Shuffled => {
            for end in 1..answers.len() {
                answers.swap(end, random.below(end + 1));
            }
        }
        Order::InTurn | Order::FirstLate => {}
    }
}

/// Fills a window, and hands in what answers it; answers how many publishes it took.
fn turn(
    alloc: Global,
    window: &mut Window,
    made: &Made,
    random: &mut Random,
    course: &Course,
    left: usize,
    digest: &mut Digest,
) -> Result<usize, StateError> {
    let order = course.order;
    let count = window.fill(alloc, made, random, course.limit, left)?;
    send_out(&mut window.client, digest);
    window.take_events(order, digest)?;
    if window.answers.is_empty() {
        window.end_waiting()?;
    }
    window.answer(random, order, digest)?;
    window.take_events(order, digest)?;
    Ok(count)
}

/// How a window is used.
#[derive(Clone, Copy)]
struct Course {
    limit: u16,
    order: Order,
    /// How many publishes go through it.
    total: usize,
}

/// Turns of a window until all is sent and answered.
fn use_window(
    alloc: Global,
    window: &mut Window,
    made: &Made,
    random: &mut Random,
    course: &Course,
    digest: &mut Digest,
) -> Result<(), StateError> {
    let mut left = course.total;
    for _ in 0..course.total.saturating_mul(4) {
        if left == 0 && window.client.state.inflight() == 0 {
            break;
        }
        let count = turn(alloc, window, made, random, course, left, digest)?;
        left = left.saturating_sub(count);
    }
    digest.add(u64::from(window.client.state.inflight()));
    Ok(())
}

/// Sends publishes through a window. In each turn it is filled, and all that it holds is answered.
fn run_window(
    alloc: Global,
    made: &Made,
    random: &mut Random,
    course: &Course,
    digest: &mut Digest,
) -> Result<(), StateError> {
    if course.limit == 0 {
        return Ok(());
    }
    let mut window = Window::new(alloc, course.limit)?;
    use_window(alloc, &mut window, made, random, course, digest)
}

fn run_round(
    alloc: Global,
    made: &Made,
    random: &mut Random,
    round: usize,
    digest: &mut Digest,
) -> Result<(), StateError> {
    let order = order_of(round);
    let courses = [
        Course {
            limit: 1,
            order,
            total: 1_000,
        },
        Course {
            limit: 20,
            order,
            total: 5_000,
        },
        Course {
            limit: 1_000,
            order,
            total: 5_000,
        },
        Course {
            limit: u16::MAX,
            order,
            total: if round % 10 == 9 { 70_000 } else { 0 },
        },
    ];
    for course in &courses {
        run_window(alloc, made, random, course, digest)?;
    }
    Ok(())
}

fn order_of(round: usize) -> Order {
    match round % 4 {
        0 => Order::InTurn,
        1 => Order::Backwards,
        2 => Order::Shuffled,
        _ => Order::FirstLate,
    }
}

/// In each round publishes go through windows of 1, 20 and 1,000, in one of ten through one of 65,535, and the acks come
/// in turn, backwards, shuffled, or with the first one late. Answers a digest of all events and of all that is sent.
pub fn publisher(alloc: Global, seed: u64, rounds: usize) -> Result<u64, StateError> {
    let mut random = Random::new(seed);
    let made = Made::new(alloc, &mut random)?;
    let mut digest = Digest::new();
    for round in 0..rounds {
        run_round(alloc, &made, &mut random, round, &mut digest)?;
    }
    Ok(digest.value())
}
