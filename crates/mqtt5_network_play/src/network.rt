//! A broker and its clients, with the packets between them.

ghost use Rattle.std.specs.Prelude.{◌≡◌, ◌<◌, ◌++◌, [], true, false, None, IfOk, IfErr, IfSome, OnOk};
ghost use Rattle.std.specs.Prelude.{length, map, slice_get};
ghost use Rattle.mqtt5_network.specs.Receiver.{shown};
ghost use Rattle.mqtt5_network.specs.Place.{happens_at, becomes, renewed, gets_at};
ghost use Rattle.mqtt5_network.specs.Network.{start_network, changed, newly, routes, ends_at};
ghost use Rattle.mqtt5_network.specs.Network.{happens_in, run_network, IsReached};
ghost use Rattle.mqtt5_network.specs.Steps.{IsStep, HereAtRest, moves};
ghost use Rattle.mqtt5_network_play.specs.Plays.{RestsBefore, at, is_end};
ghost use Rattle.mqtt5_network_play.specs.Reports.{TakesSteps, told, all_told};

use crate::place::Place;
use crate::profile::Profile;
use crate::report::{ClientReport, NetworkReport};
use mqtt5_base::Sequence;
use mqtt5_network::{ClientEvent, NetworkEvent};
use mqtt5_publish::Publish;
use mqtt5_session::StateError;
use std::alloc::{AllocError, Global};
use std::marker::Model;
use std::mem;

/// A broker and its clients: the clients with the sessions that they have, the sessions that ended, and what the broker handed
/// on, of all of them.
#[derive(Debug, Drop)]
pub struct Network {
    places: Vec<Place>,
    ended: Vec<Place>,
    handed: Vec<Publish>,
}

impl Model for Network {
    ghost use Rattle.std.specs.Coded.{codes};
    ghost use Rattle.mqtt5_base.specs.Codes.{utf8_code};
    ghost use Rattle.mqtt5_base.specs.contracts.quality.QoS as quality;
    ghost use Rattle.mqtt5_publish.specs.contracts.publish.Publish as publish;
    ghost use Rattle.mqtt5_codec.specs.contracts.packet.Packet as packet;
    ghost use Rattle.mqtt5_inflight.specs.Codes.{coded_in_use, coded_aliases, coded_incoming};
    ghost use Rattle.mqtt5_inflight.specs.contracts.event.Event as event;
    ghost use Rattle.mqtt5_network.specs.contracts.subscription.Subscription as subscription;
    ghost use Rattle.mqtt5_network.specs.Network as model;

    ghost Value = { model.Network };

    ghost coded = { Prim.hlevel (codes, coded_in_use, coded_aliases, coded_incoming, utf8_code, quality.the_row.coded, event.the_row.coded, packet.the_row.coded, publish.the_row.coded, subscription.the_row.coded) };

    ghost view = { λ a. record {
      places = a.places.items;
      ended = a.ended.items;
      handed = a.handed.items;
    } };
}

impl Network {
    /// A network in which no client has sent anything, a client for each profile, connected without a will. S12.
    pub fn new(alloc: Global, profiles: &[Profile]) -> Result<Network, StateError>
        ensures ok { IfOk result (λ n. n ≡ start_network profiles.now) }
        ensures memory { IfErr result (λ e. e ≡ StateError.OutOfMemory) }
    {
        let mut places = Vec::new(alloc);
        for profile in profiles {
            places.push(Place::new(alloc, profile)?)?;
        }
        Ok(Network {
            places,
            ended: Vec::new(alloc),
            handed: Vec::new(alloc),
        })
    }

    /// The publishes that a client was shown by the session that it has, in order, and none of a client that isn't there. Err
    /// where memory is refused.
    pub fn shown(&self, alloc: Global, client: usize) -> Result<Vec<Publish>, AllocError>
        ensures shown { IfOk result (λ ps. IfSome (slice_get self.now.places client)
            (λ p. ps.items ≡ shown p.client.session)) }
        ensures none { IfOk result (λ ps. slice_get self.now.places client ≡ None
            → ps.items ≡ []) }
    {
        match self.places.get(client) {
            Some(place) => place.shown(alloc),
            None => Ok(Vec::new(alloc)),
        }
    }

    /// The publishes that the session that a client has accepted, in order, as they were asked for, and none of a client that
    /// isn't there.
    pub fn accepted(&self, client: usize) -> &[Publish]
        ensures accepted { IfSome (slice_get self.now.places client)
            (λ p. result.now ≡ p.client.accepted) }
        ensures none { slice_get self.now.places client ≡ None → result.now ≡ [] }
    {
        match self.places.get(client) {
            Some(place) => place.accepted(),
            None => &[],
        }
    }

    /// What came of all clients so far. Err where memory is refused.
    pub fn report(&self, alloc: Global) -> Result<NetworkReport, AllocError>
        ensures { IfOk result (λ r. r ≡ all_told self.now) }
    {
        let clients = reports(alloc, self.places.as_slice())?;
        let ended = reports(alloc, self.ended.as_slice())?;
        Ok(NetworkReport { clients, ended })
    }

    /// Whether, of each client that is here, nothing is on its way and nothing is in its queue.
    pub fn rests(&self) -> bool
        ensures yes { result ≡ true → HereAtRest self.now }
        ensures no { result ≡ false → HereAtRest self.now → ⊥ }
    {
        match self.next_step() {
            Some(_event) => false,
            None => true,
        }
    }

    /// A step that finds something to do, of the first client that is here and isn't at rest; none where there is no such client.
    pub fn next_step(&self) -> Option<NetworkEvent>
        ensures none { result ≡ None → HereAtRest self.now }
        ensures some { IfSome result (λ _. HereAtRest self.now → ⊥) }
        ensures step { IfSome result (λ e. IsStep e.what) }
        ensures moves { IfSome result
            (λ e. IsReached self.now → moves self.now e ≡ 1) }
    {
        self.step_from(0)
    }

    /// The same, where the clients before a place are at rest.
    fn step_from(&self, from: usize) -> Option<NetworkEvent>
        requires { RestsBefore from self.now }
        ensures none { result ≡ None → HereAtRest self.now }
        ensures some { IfSome result (λ _. HereAtRest self.now → ⊥) }
        ensures step { IfSome result (λ e. IsStep e.what) }
        ensures moves { IfSome result
            (λ e. IsReached self.now → moves self.now e ≡ 1) }
        ensures before { IfSome result (λ e. RestsBefore e.client self.now) }
    {
        for client in from..self.places.len() {
            if self.places[client].rests() {
                continue;
            }
            if let Some(what) = self.places[client].next_step() {
                return Some(NetworkEvent { client, what });
            }
        }
        None
    }

    /// Events, one after another. S12, which leaves them unfinished.
    pub fn play_all(&mut self, alloc: Global, events: &[NetworkEvent]) -> Result<(), StateError>
        ensures ok { OnOk result (self.new ≡ run_network events.now self.old) }
        ensures memory { IfErr result (λ e. e ≡ StateError.OutOfMemory) }
    {
        for event in events {
            self.play(alloc, event)?;
        }
        Ok(())
    }

    /// An event; of a client that isn't there it is none. S12, which leaves it unfinished.
    #[tactic(auto, using(crate::proofs::Placed::happens_past))]
    pub fn play(&mut self, alloc: Global, event: &NetworkEvent) -> Result<(), StateError>
        ensures ok { OnOk result (self.new ≡ happens_in self.old event.now) }
        ensures memory { IfErr result (λ e. e ≡ StateError.OutOfMemory) }
    {
        if event.client >= self.places.len() {
            return Ok(());
        }
        self.play_at(alloc, event.client, &event.what)?;
        Ok(())
    }

    /// An event of a client that is there: what it changes of the client, and then what the broker hands on goes into the
    /// queues.
    #[tactic(auto, using(crate::proofs::Placed::happens_at))]
    fn play_at(
        &mut self,
        alloc: Global,
        client: usize,
        event: &ClientEvent,
    ) -> Result<(), StateError>
        requires { client < length self.old.places }
        ensures ok { OnOk result (self.new
            ≡ happens_in self.old (record { client = client; what = event.now })) }
        ensures err { IfErr result (λ e. e ≡ StateError.OutOfMemory) }
    {
        let copies = self.places[client].copies(alloc, self.handed.as_slice(), event)?;
        let new = self.change(alloc, client, event)?;
        self.put(client, copies)?;
        route(alloc, client, new.as_slice(), &mut self.places)?;
        append(new, &mut self.handed)?;
        Ok(())
    }

    /// What an event changes of a client, but for copies: what the broker hands on.
    #[tactic(auto, using(crate::proofs::Placed::stays_on, crate::proofs::Placed::ends_on, crate::proofs::Placed::changed_long))]
    fn change(
        &mut self,
        alloc: Global,
        client: usize,
        event: &ClientEvent,
    ) -> Result<Vec<Publish>, StateError>
        requires { client < length self.old.places }
        ensures changed { OnOk result (self.new ≡ record self.old {
          places = changed client (λ p. becomes p event.now) self.old.places;
          ended = self.old.ended ++ ends_at client event.now self.old.places;
        }) }
        ensures long { OnOk result (length self.new.places ≡ length self.old.places) }
        ensures new { IfOk result
            (λ ps. ps.items ≡ newly client (λ p. happens_at p event.now) self.old.places) }
        ensures err { IfErr result (λ e. e ≡ StateError.OutOfMemory) }
    {
        let new = self.happen(alloc, client, event)?;
        if is_end(event) {
            self.end(alloc, client)?;
            return Ok(new);
        }
        Ok(new)
    }

    /// An event of the session that a client has: what the broker hands on.
    #[tactic(auto, using(crate::proofs::Placed::happens_on, crate::proofs::Placed::newly_on, crate::proofs::Placed::changed_long))]
    fn happen(
        &mut self,
        alloc: Global,
        client: usize,
        event: &ClientEvent,
    ) -> Result<Vec<Publish>, StateError>
        requires { client < length self.old.places }
        ensures changed { OnOk result (self.new ≡ record self.old {
          places = changed client (λ p. happens_at p event.now) self.old.places;
        }) }
        ensures long { OnOk result (length self.new.places ≡ length self.old.places) }
        ensures new { IfOk result
            (λ ps. ps.items ≡ newly client (λ p. happens_at p event.now) self.old.places) }
        ensures err { IfErr result (λ e. e ≡ StateError.OutOfMemory) }
    {
        let new = self.places[client].play(alloc, event)?;
        Ok(new)
    }

    /// A client's session goes among those that ended, and the client gets a new one.
    #[tactic(auto, using(crate::proofs::Placed::renewed_on, crate::proofs::Placed::changed_long))]
    fn end(&mut self, alloc: Global, client: usize) -> Result<(), StateError>
        requires { client < length self.old.places }
        ensures ok { OnOk result (self.new ≡ record self.old {
          places = changed client renewed self.old.places;
          ended = self.old.ended ++ at client self.old.places;
        }) }
        ensures long { OnOk result (length self.new.places ≡ length self.old.places) }
        ensures err { IfErr result (λ e. e ≡ StateError.OutOfMemory) }
    {
        let next = self.places[client].renewed(alloc)?;
        let last = mem::replace(&mut self.places[client], next);
        self.ended.push(last)?;
        Ok(())
    }

    /// Publishes go to the end of a client's queue as they are.
    #[tactic(auto, using(crate::proofs::Placed::gets_on))]
    fn put(&mut self, client: usize, publishes: Vec<Publish>) -> Result<(), AllocError>
        requires { client < length self.old.places }
        ensures { OnOk result (self.new ≡ record self.old {
          places = changed client (gets_at publishes.items) self.old.places;
        }) }
    {
        self.places[client].put(publishes)?;
        Ok(())
    }

    /// An event of a client, before which all that are here are at rest, and the place before which they are then: what is handed
    /// on goes into the queue of each.
    fn play_on(&mut self, alloc: Global, event: &NetworkEvent) -> Result<usize, StateError>
        requires { RestsBefore event.now.client self.old }
        ensures ok { OnOk result (self.new ≡ happens_in self.old event.now) }
        ensures before { IfOk result (λ from. RestsBefore from self.new) }
        ensures memory { IfErr result (λ e. e ≡ StateError.OutOfMemory) }
    {
        let handed = self.handed.len();
        self.play(alloc, event)?;
        if self.handed.len() == handed {
            return Ok(event.client);
        }
        Ok(0)
    }

    /// Steps until each client that is here is at rest, in a network that events made of one in which no client had sent
    /// anything. S12, which leaves them unfinished.
    pub fn settle(&mut self, alloc: Global) -> Result<(), StateError>
        requires { IsReached self.old }
        ensures rests { OnOk result (HereAtRest self.new) }
        ensures steps { OnOk result (TakesSteps self.old self.new) }
        ensures memory { IfErr result (λ e. e ≡ StateError.OutOfMemory) }
    {
        let mut from = 0;
        while let Some(event) = self.step_from(from) {
            from = self.play_on(alloc, &event)?;
        }
        Ok(())
    }
}

/// Publishes of a client that are handed on go into the queues (3.3.4).
#[tactic(auto, using(crate::proofs::Placed::routes_none, crate::proofs::Placed::routes_next, crate::proofs::Placed::routes_all, crate::proofs::Placed::before_long))]
fn route(
    alloc: Global,
    client: usize,
    publishes: &[Publish],
    places: &mut Vec<Place>,
) -> Result<(), AllocError>
    ensures { OnOk result (places.new.items ≡ routes client publishes.now places.old.items) }
{
    if publishes.is_empty() {
        return Ok(());
    }
    for place in 0..places.len() {
        places[place].queue_up(alloc, place == client, publishes)?;
    }
    Ok(())
}

/// Whether an event is the end of a session.
fn is_end(event: &ClientEvent) -> bool
    ensures { result ≡ is_end event.now }
{
    matches!(event, ClientEvent::Ends)
}

/// What is told of clients.
fn reports(alloc: Global, places: &[Place]) -> Result<Sequence<ClientReport>, AllocError>
    ensures { IfOk result (λ rs. rs ≡ map told places.now) }
{
    let mut reports = Sequence::new(alloc);
    for place in places {
        reports.push(place.report(alloc)?)?;
    }
    Ok(reports)
}

/// Puts publishes behind others.
fn append(mut publishes: Vec<Publish>, all: &mut Vec<Publish>) -> Result<(), AllocError>
    ensures { OnOk result (all.new.items ≡ all.old.items ++ publishes.items) }
{
    all.append(&mut publishes)
}
