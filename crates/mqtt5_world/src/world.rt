//! A client's session and a broker, with the packets between them.

ghost use Rattle.std.specs.Prelude.{◌≡◌, ◌<◌, ◌∷◌, ◌++◌, [], IfOk, IfErr, OnOk, drop, length};
ghost use Rattle.std.specs.Option.{option_to_list};
ghost use Rattle.mqtt5_world.specs.World.{start, asks, after_serving, arrives, returns, takes_packet, resumes, happens, run_world, taken_back, with_receive_max};
ghost use Rattle.mqtt5_world.specs.Broker.{serve};
ghost use Rattle.mqtt5_world.specs.Happens.{Happens};

use crate::broker::Broker;
use crate::event::{Report, WorldEvent};
use mqtt5_base::copied;
use mqtt5_codec::Packet;
use mqtt5_control::{ConnAck, ConnAckProperties, ConnectReturnCode};
use mqtt5_publish::Publish;
use mqtt5_session::{MqttState, Request, StateError};
use std::alloc::{AllocError, Global};
use std::collections::VecDeque;
use std::marker::Model;

/// The world: the session, the broker, the packets on their way, and what the session said to the requests.
#[derive(Debug, Drop)]
pub struct World {
    state: MqttState,
    broker: Broker,
    up: VecDeque<Packet>,
    down: VecDeque<Packet>,
    accepted: Vec<Publish>,
    refused: Vec<(Publish, StateError)>,
}

impl Model for World {
    ghost use Rattle.std.specs.Prelude.{[]};
    ghost use Rattle.std.specs.Coded.{codes};
    ghost use Rattle.mqtt5_publish.specs.contracts.publish.Publish as publish;
    ghost use Rattle.mqtt5_codec.specs.contracts.packet.Packet as packet;
    ghost use Rattle.mqtt5_inflight.specs.contracts.error.StateError as error;
    ghost use Rattle.mqtt5_inflight.specs.Codes.{coded_in_use, coded_aliases, coded_incoming};
    ghost use Rattle.mqtt5_inflight.specs.contracts.event.Event as event;
    ghost use Rattle.mqtt5_world.specs.World as model;

    ghost Value = { model.World };

    ghost coded = { Prim.hlevel (codes, coded_in_use, coded_aliases, coded_incoming, event.the_row.coded, packet.the_row.coded, error.the_row.coded, publish.the_row.coded) };

    ghost view = { λ a. record {
      session = a.state;
      broker = a.broker;
      up = a.up.items;
      down = a.down.items;
      accepted = a.accepted.items;
      refused = a.refused.items;
      faults = [];
    } };
}

impl World {
    /// A client that has sent nothing, and a broker that has nothing of it.
    pub fn new(alloc: Global, limit: u16) -> Result<World, StateError>
        requires { 0 < limit }
        ensures ok { IfOk result (λ w. w ≡ start limit) }
        ensures err { IfErr result (λ e. e ≡ StateError.OutOfMemory) }
    {
        Ok(World {
            state: MqttState::new(alloc, limit, false)?,
            broker: Broker::new(alloc),
            up: VecDeque::new(alloc),
            down: VecDeque::new(alloc),
            accepted: Vec::new(alloc),
            refused: Vec::new(alloc),
        })
    }

    /// What came of all.
    pub fn report(self) -> Report
        ensures handed { result.handed.items ≡ self.broker.handed }
        ensures accepted { result.accepted.items ≡ self.accepted }
        ensures refused { result.refused.items ≡ self.refused }
        ensures state { result.state ≡ self.session }
    {
        Report {
            handed: self.broker.into_handed(),
            accepted: self.accepted,
            refused: self.refused,
            state: self.state,
        }
    }

    /// How many packets are on their way up to the broker.
    pub fn packets_up(&self) -> usize
        ensures { result ≡ length self.now.up }
    {
        self.up.len()
    }

    /// How many packets are on their way down to the client.
    pub fn packets_down(&self) -> usize
        ensures { result ≡ length self.now.down }
    {
        self.down.len()
    }

    /// Events, one after another.
    pub fn play_all(&mut self, alloc: Global, events: &[WorldEvent]) -> Result<(), StateError>
        ensures { Happens result self.new (run_world events.now self.old) }
    {
        for event in events {
            self.play(alloc, event)?;
        }
        Ok(())
    }

    /// An event.
    pub fn play(&mut self, alloc: Global, event: &WorldEvent) -> Result<(), StateError>
        ensures { Happens result self.new (happens self.old event.now) }
    {
        match event {
            WorldEvent::Publish(publish) => self.send_request(publish),
            WorldEvent::Up => self.go_up(),
            WorldEvent::Down => self.come_down(),
            WorldEvent::Loss(receive_max) => self.lose(alloc, *receive_max),
        }
    }

    fn send_request(&mut self, publish: &Publish) -> Result<(), StateError>
        ensures { Happens result self.new (asks self.old publish.now) }
    {
        let asked = copied(publish)?;
        let Ok(publish) = copied(publish) else {
            drop(asked);
            return Err(StateError::OutOfMemory);
        };
        match self
            .state
            .handle_outgoing_packet(Request::Publish(publish), 0)
        {
            Ok(reply) => self.accept(asked, reply),
            Err(StateError::OutOfMemory) => {
                drop(asked);
                Err(StateError::OutOfMemory)
            }
            Err(error) => self.refuse(asked, error),
        }
    }

    fn accept(&mut self, publish: Publish, reply: Option<Packet>) -> Result<(), StateError>
        ensures ok { OnOk result
            (self.new
            ≡ record self.old {
              up = self.old.up ++ option_to_list reply;
              accepted = self.old.accepted ++ publish ∷ [];
            }) }
        ensures err { IfErr result (λ e. e ≡ StateError.OutOfMemory) }
    {
        if let Err(refused) = send(&mut self.up, reply) {
            drop(publish);
            return Err(StateError::from(refused));
        }
        self.accepted.push(publish)?;
        Ok(())
    }

    fn refuse(&mut self, publish: Publish, error: StateError) -> Result<(), StateError>
        ensures ok { OnOk result
            (self.new ≡ record self.old { refused = self.old.refused ++ (publish, error) ∷ [] }) }
        ensures err { IfErr result (λ e. e ≡ StateError.OutOfMemory) }
    {
        self.refused.push((publish, error))?;
        Ok(())
    }

    fn go_up(&mut self) -> Result<(), StateError>
        ensures { Happens result self.new (arrives self.old self.old.up) }
    {
        match self.up.pop_front() {
            Some(packet) => {
                let arrived = self.arrive(&packet);
                drop(packet);
                arrived
            }
            None => Ok(()),
        }
    }

    fn arrive(&mut self, packet: &Packet) -> Result<(), StateError>
        ensures { Happens result self.new
            (after_serving self.old (serve self.old.broker packet.now)) }
    {
        let reply = self.broker.serve(packet)?;
        send(&mut self.down, reply)?;
        Ok(())
    }

    fn come_down(&mut self) -> Result<(), StateError>
        ensures { Happens result self.new (returns self.old self.old.down) }
    {
        match self.down.pop_front() {
            Some(packet) => self.take(packet),
            None => Ok(()),
        }
    }

    fn take(&mut self, packet: Packet) -> Result<(), StateError>
        ensures { Happens result self.new (takes_packet self.old packet) }
    {
        let reply = self.state.handle_incoming_packet(packet, 0)?;
        send(&mut self.up, reply)?;
        Ok(())
    }

    fn lose(&mut self, alloc: Global, receive_max: Option<u16>) -> Result<(), StateError>
        ensures { Happens result self.new (happens self.old (WorldEvent.Loss receive_max)) }
    {
        self.up.clear();
        self.down.clear();
        self.take(taken_back(alloc, receive_max))?;
        self.resume()
    }

    fn resume(&mut self) -> Result<(), StateError>
        ensures { Happens result self.new (resumes self.old) }
    {
        let packets = self.state.resume(0)?;
        self.up.append(&mut VecDeque::from(packets))?;
        Ok(())
    }
}

/// Puts a reply at the end of a way, if there is one.
fn send(way: &mut VecDeque<Packet>, reply: Option<Packet>) -> Result<(), AllocError>
    ensures { OnOk result (way.new.items ≡ way.old.items ++ option_to_list reply) }
{
    match reply {
        Some(packet) => {
            if let Err(refused) = way.reserve(1) {
                drop(packet);
                return Err(refused);
            }
            way.push_back_reserved(packet);
            Ok(())
        }
        None => Ok(()),
    }
}

/// The ConnAck by which the broker takes the client back, with its session.
pub fn taken_back(alloc: Global, receive_max: Option<u16>) -> Packet
    ensures { result ≡ taken_back receive_max }
{
    Packet::ConnAck(ConnAck {
        session_present: true,
        code: ConnectReturnCode::Success,
        properties: match receive_max {
            Some(max) => Some(with_receive_max(alloc, max)),
            None => None,
        },
    })
}

/// What says that a broker's receive maximum is this.
fn with_receive_max(alloc: Global, receive_max: u16) -> ConnAckProperties
    ensures { result ≡ with_receive_max receive_max }
{
    let mut properties = ConnAckProperties::new(alloc);
    properties.receive_max = Some(receive_max);
    properties
}
