//! A client's session and a broker, with the bytes between them.

ghost use Rattle.std.specs.Prelude.{◌≡◌, ◌<◌, ◌∷◌, ◌++◌, [], None, length, IfOk, IfErr, IfSome, OnOk, Ok};
ghost use Rattle.mqtt5_codec.specs.Codecs.{Decodes};
ghost use Rattle.mqtt5_streams.specs.declared.event.ByteEvent.TheVariants as events;
ghost use Rattle.mqtt5_streams.specs.ByteWorld.{start_bytes, with_bytes, reply_wire, sends_up, asks_bytes, arrived, drain_up, takes_bytes, drain_down, resumes_bytes, happens_bytes, run_bytes};
ghost use Rattle.mqtt5_streams.specs.Does.{Does};

use crate::event::ByteEvent;
use crate::way::Way;
use mqtt5_base::{Error, copied};
use mqtt5_codec::{Codec, Packet};
use mqtt5_publish::Publish;
use mqtt5_session::{MqttState, Request, StateError};
use mqtt5_world::{Broker, Report, taken_back};
use std::alloc::Global;
use std::marker::Model;

/// The world: the session, the broker, the bytes on their way, and what the session said to the requests.
#[derive(Drop)]
pub struct ByteWorld {
    state: MqttState,
    broker: Broker,
    up: Way,
    down: Way,
    accepted: Vec<Publish>,
    refused: Vec<(Publish, StateError)>,
}

impl Model for ByteWorld {
    ghost use Rattle.std.specs.Coded.{codes};
    ghost use Rattle.mqtt5_publish.specs.contracts.publish.Publish as publish;
    ghost use Rattle.mqtt5_inflight.specs.contracts.error.StateError as error;
    ghost use Rattle.mqtt5_inflight.specs.Codes.{coded_in_use, coded_aliases, coded_incoming};
    ghost use Rattle.mqtt5_inflight.specs.contracts.event.Event as event;
    ghost use Rattle.mqtt5_streams.specs.ByteWorld as model;

    ghost Value = { model.ByteWorld };

    ghost coded = { Prim.hlevel (codes, coded_in_use, coded_aliases, coded_incoming, event.the_row.coded, error.the_row.coded, publish.the_row.coded) };

    ghost view = { λ a. record {
      session = a.state;
      broker = a.broker;
      up = a.up;
      down = a.down;
      accepted = a.accepted.items;
      refused = a.refused.items;
    } };
}

impl ByteWorld {
    /// A client that has sent nothing, and a broker that has nothing of it.
    pub fn new(alloc: Global, limit: u16) -> Result<ByteWorld, StateError>
        requires { 0 < limit }
        ensures ok { IfOk result (λ w. w ≡ start_bytes limit) }
        ensures err { IfErr result (λ e. e ≡ StateError.OutOfMemory) }
    {
        Ok(ByteWorld {
            state: MqttState::new(alloc, limit, false)?,
            broker: Broker::new(alloc),
            up: Way::new(alloc),
            down: Way::new(alloc),
            accepted: Vec::new(alloc),
            refused: Vec::new(alloc),
        })
    }

    /// What came of all.
    pub fn report(self) -> Report
        ensures handed { result.handed.items ≡ self.broker.handed }
        ensures accepted { result.accepted.items ≡ self.accepted }
        ensures refused { result.refused.items ≡ self.refused }
        ensures state { result.state ≡ self.session }
    {
        Report {
            handed: self.broker.into_handed(),
            accepted: self.accepted,
            refused: self.refused,
            state: self.state,
        }
    }

    /// Events, one after another.
    pub fn play_all(
        &mut self,
        alloc: Global,
        codec: &Codec,
        events: &[ByteEvent],
    ) -> Result<(), StateError>
        ensures { Does result (run_bytes codec.now events.now self.old) self.new }
    {
        for event in events {
            self.play(alloc, codec, event)?;
        }
        Ok(())
    }

    /// An event.
    fn play(&mut self, alloc: Global, codec: &Codec, event: &ByteEvent) -> Result<(), StateError>
        ensures { Does result (happens_bytes codec.now self.old event.now) self.new }
    {
        match event {
            ByteEvent::Publish(publish) => self.send_request(codec, publish),
            ByteEvent::Up(n) => self.go_up(alloc, *n),
            ByteEvent::Down(n) => self.come_down(alloc, codec, *n),
            ByteEvent::Loss(receive_max) => self.lose(alloc, codec, *receive_max),
        }
    }

    fn send_request(&mut self, codec: &Codec, publish: &Publish) -> Result<(), StateError>
        ensures { Does result (asks_bytes codec.now self.old publish.now) self.new }
    {
        let asked = copied(publish)?;
        let Ok(publish) = copied(publish) else {
            drop(asked);
            return Err(StateError::OutOfMemory);
        };
        match self
            .state
            .handle_outgoing_packet(Request::Publish(publish), 0)
        {
            Ok(reply) => {
                let accepted = self.accept(codec, asked, &reply);
                drop(reply);
                accepted
            }
            Err(StateError::OutOfMemory) => {
                drop(asked);
                Err(StateError::OutOfMemory)
            }
            Err(error) => self.refuse(asked, error),
        }
    }

    fn accept(
        &mut self,
        codec: &Codec,
        publish: Publish,
        reply: &Option<Packet>,
    ) -> Result<(), StateError>
        ensures { Does result
            (sends_up (record self.old { accepted = self.old.accepted ++ publish ∷ [] })
            (reply_wire codec.now.max_outgoing_size reply.now)) self.new }
    {
        self.accepted.push(publish)?;
        self.up.reply(codec.max_outgoing_size, reply)
    }

    fn refuse(&mut self, publish: Publish, error: StateError) -> Result<(), StateError>
        ensures ok { OnOk result
            (self.new ≡ record self.old { refused = self.old.refused ++ (publish, error) ∷ [] }) }
        ensures err { IfErr result (λ e. e ≡ StateError.OutOfMemory) }
    {
        self.refused.push((publish, error))?;
        Ok(())
    }

    fn go_up(&mut self, alloc: Global, n: usize) -> Result<(), StateError>
        ensures { Does result (drain_up (record self.old { up = with_bytes n self.old.up }))
            self.new }
    {
        self.up.shift(n)?;
        self.drain_up(alloc)
    }

    /// The broker takes each whole frame.
    fn drain_up(&mut self, alloc: Global) -> Result<(), StateError>
        ensures { Does result (drain_up self.old) self.new }
    {
        while let Some(packet) = self.next_up(alloc)? {
            self.arrive(packet)?;
        }
        Ok(())
    }

    fn next_up(&mut self, alloc: Global) -> Result<Option<Packet>, Error>
        ensures decodes { Decodes result None self.old.up.buffer self.new.up.buffer }
        ensures read { self.new
            ≡ record self.old
            { up = record { buffer = self.new.up.buffer; stream = self.old.up.stream } } }
        ensures shorter { IfOk result
            (λ m. IfSome m (λ _. length self.new.up.buffer < length self.old.up.buffer)) }
    {
        self.up.next(alloc, None)
    }

    fn arrive(&mut self, packet: Packet) -> Result<(), StateError>
        ensures does { Does result (arrived self.old (Ok packet)) self.new }
        ensures up { self.new.up ≡ self.old.up }
    {
        let Ok(reply) = self.broker.serve(&packet) else {
            drop(packet);
            return Err(StateError::OutOfMemory);
        };
        drop(packet);
        let sent = self.down.reply(None, &reply);
        drop(reply);
        sent
    }

    fn come_down(&mut self, alloc: Global, codec: &Codec, n: usize) -> Result<(), StateError>
        ensures { Does result
            (drain_down codec.now (record self.old { down = with_bytes n self.old.down }))
            self.new }
    {
        self.down.shift(n)?;
        self.drain_down(alloc, codec)
    }

    /// The session takes each whole frame.
    fn drain_down(&mut self, alloc: Global, codec: &Codec) -> Result<(), StateError>
        ensures { Does result (drain_down codec.now self.old) self.new }
    {
        while let Some(packet) = self.next_down(alloc, codec)? {
            self.take(codec, packet)?;
        }
        Ok(())
    }

    fn next_down(&mut self, alloc: Global, codec: &Codec) -> Result<Option<Packet>, Error>
        ensures decodes { Decodes result codec.now.max_incoming_size self.old.down.buffer
            self.new.down.buffer }
        ensures read { self.new
            ≡ record self.old
            { down = record { buffer = self.new.down.buffer; stream = self.old.down.stream } } }
        ensures shorter { IfOk result
            (λ m. IfSome m (λ _. length self.new.down.buffer < length self.old.down.buffer)) }
    {
        self.down.next(alloc, codec.max_incoming_size)
    }

    fn take(&mut self, codec: &Codec, packet: Packet) -> Result<(), StateError>
        ensures does { Does result (takes_bytes codec.now self.old packet) self.new }
        ensures down { self.new.down ≡ self.old.down }
    {
        let reply = self.state.handle_incoming_packet(packet, 0)?;
        let sent = self.up.reply(codec.max_outgoing_size, &reply);
        drop(reply);
        sent
    }

    fn lose(
        &mut self,
        alloc: Global,
        codec: &Codec,
        receive_max: Option<u16>,
    ) -> Result<(), StateError>
        ensures { Does result (happens_bytes codec.now self.old (events.Loss receive_max))
            self.new }
    {
        self.up.clear();
        self.down.clear();
        self.take(codec, taken_back(alloc, receive_max))?;
        self.resume(codec)
    }

    fn resume(&mut self, codec: &Codec) -> Result<(), StateError>
        ensures { Does result (resumes_bytes codec.now self.old) self.new }
    {
        let packets = self.state.resume(0)?;
        self.up.send_all(codec.max_outgoing_size, &packets)
    }
}
