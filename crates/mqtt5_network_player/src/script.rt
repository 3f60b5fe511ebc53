//! Scripts of a broker and its clients: the clients, and then what happens, a line each.

use mqtt5_base::{QoS, Sequence, Text};
use mqtt5_network::{ClientEvent, NetworkEvent, Subscription, Will};
use mqtt5_network_play::Profile;
use mqtt5_publish::Publish;
use mqtt5_scripts::{Field, LineError, Script, split_word};
use mqtt5_subscribe::{Filter, RetainForwardRule, Subscribe, Unsubscribe};
use std::alloc::Global;
use std::num::NonZeroU16;

/// How many clients a script may have.
const MOST_CLIENTS: usize = 100;

/// The clients, what happens, whether a client's subscriptions or turns change, one is away, its session ends or a publish expires, and
/// whether all then comes to rest.
#[derive(Debug, Drop)]
pub struct NetworkScript {
    pub profiles: Vec<Profile>,
    pub events: Vec<NetworkEvent>,
    pub changes: bool,
    pub settles: bool,
}

impl Script for NetworkScript {
    fn new(alloc: Global) -> NetworkScript {
        NetworkScript {
            profiles: Vec::new(alloc),
            events: Vec::new(alloc),
            changes: false,
            settles: false,
        }
    }

    /// A client, which stands before all events, an event, or `settle`, after which no line says anything.
    fn add(&mut self, alloc: Global, line: &str) -> Result<(), LineError> {
        match line {
            _ if self.settles => Err(LineError::Bad),
            "settle" => {
                self.settles = true;
                Ok(())
            }
            _ => self.add_fields(alloc, line),
        }
    }
}

impl NetworkScript {
    fn add_fields(&mut self, alloc: Global, line: &str) -> Result<(), LineError> {
        match split_word(line) {
            ("client", Some(fields)) => self.add_client(alloc, fields),
            (word, Some(fields)) => self.add_event(alloc, word, fields),
            _ => Err(LineError::Bad),
        }
    }

    fn add_client(&mut self, alloc: Global, fields: &str) -> Result<(), LineError> {
        if !self.events.is_empty() || self.profiles.len() >= MOST_CLIENTS {
            return Err(LineError::Bad);
        }
        self.profiles.push(parse_profile(alloc, fields)?)?;
        Ok(())
    }

    /// An event of a client that is there.
    fn add_event(&mut self, alloc: Global, word: &str, fields: &str) -> Result<(), LineError> {
        let (client, rest) = split_word(fields);
        let client = parse_client(alloc, client)?;
        if client >= self.profiles.len() {
            return Err(LineError::Bad);
        }
        let what = match parse_event(alloc, word, rest)? {
            Some(what) => what,
            None => {
                self.changes = true;
                parse_change(alloc, word, rest)?
            }
        };
        self.events.push(NetworkEvent { client, what })?;
        Ok(())
    }
}

/// The two limits, and the filters.
fn parse_profile(alloc: Global, fields: &str) -> Result<Profile, LineError> {
    let (limit, rest) = fields.split_once(' ').ok_or(LineError::Bad)?;
    let (sender_limit, filters) = split_word(rest);
    let limit = <NonZeroU16 as Field>::parse(alloc, limit)?;
    let sender_limit = <NonZeroU16 as Field>::parse(alloc, sender_limit)?;
    let subscriptions = match filters {
        Some(filters) => parse_filters(alloc, filters)?,
        None => Sequence::new(alloc),
    };
    Ok(Profile {
        limit,
        sender_limit,
        subscriptions,
    })
}

/// Topic filters, for each of which QoS 2 is granted.
fn parse_filters(alloc: Global, filters: &str) -> Result<Sequence<Subscription>, LineError> {
    let mut subscriptions = Sequence::new(alloc);
    for filter in filters.split(' ') {
        subscriptions.push(parse_filter(alloc, filter)?)?;
    }
    Ok(subscriptions)
}

fn parse_filter(alloc: Global, filter: &str) -> Result<Subscription, LineError> {
    let topic_filter = Text::from(<String as Field>::parse(alloc, filter)?);
    Ok(Subscription {
        topic_filter,
        granted: QoS::ExactlyOnce,
        no_local: false,
        retain_as_published: false,
        identifier: None,
        share: None,
    })
}

/// The number of a client.
fn parse_client(alloc: Global, field: &str) -> Result<usize, LineError> {
    let number = <u64 as Field>::parse(alloc, field)?;
    if number > MOST_CLIENTS as u64 {
        return Err(LineError::Bad);
    }
    Ok(number as usize)
}

/// What a word and the fields behind the client say, if it is one of an event that changes neither subscriptions nor sessions.
fn parse_event(
    alloc: Global,
    word: &str,
    rest: Option<&str>,
) -> Result<Option<ClientEvent>, LineError> {
    match (word, rest) {
        ("pub", Some(fields)) => {
            let publish = <Publish as Field>::parse(alloc, fields)?;
            Ok(Some(ClientEvent::Ask(publish)))
        }
        ("loss", Some(fields)) => {
            let (broker_max, client_max) = parse_maxima(alloc, fields)?;
            Ok(Some(ClientEvent::Back(broker_max, client_max, None)))
        }
        ("loss", None) => Ok(Some(ClientEvent::Back(None, None, None))),
        ("up", None) => Ok(Some(ClientEvent::Up)),
        ("down", None) => Ok(Some(ClientEvent::Down)),
        ("pass", None) => Ok(Some(ClientEvent::PassOn)),
        _ => Ok(None),
    }
}

/// What the word and the fields of another event say.
fn parse_change(alloc: Global, word: &str, rest: Option<&str>) -> Result<ClientEvent, LineError> {
    match (word, rest) {
        ("retain", Some(fields)) => {
            let mut publish = <Publish as Field>::parse(alloc, fields)?;
            publish.retain = true;
            Ok(ClientEvent::Ask(publish))
        }
        ("sub", Some(fields)) => parse_subscribe(alloc, fields),
        ("unsub", Some(fields)) => parse_unsubscribe(alloc, fields),
        ("lost", None) => Ok(ClientEvent::Lost),
        ("due", None) => Ok(ClientEvent::Due),
        ("left", None) => Ok(ClientEvent::Left),
        ("back", fields) => parse_back(alloc, fields),
        ("ends", None) => Ok(ClientEvent::Ends),
        ("expire", None) => Ok(ClientEvent::Expire),
        ("turn", Some(filter)) => parse_turn(alloc, filter, true),
        ("no-turn", Some(filter)) => parse_turn(alloc, filter, false),
        _ => Err(LineError::Bad),
    }
}

/// The topic filter of the shared subscription in which the client has the turn then, or hasn't.
fn parse_turn(alloc: Global, filter: &str, turn: bool) -> Result<ClientEvent, LineError> {
    let topic_filter = Text::from(<String as Field>::parse(alloc, filter)?);
    Ok(ClientEvent::Turn(topic_filter, turn))
}

/// The receive maximum that the broker says, and the one that the client says.
fn parse_maxima(alloc: Global, fields: &str) -> Result<(Option<u16>, Option<u16>), LineError> {
    let (broker_max, client_max) = fields.split_once(' ').ok_or(LineError::Bad)?;
    let broker_max = <u16 as Field>::parse(alloc, broker_max)?;
    let client_max = <u16 as Field>::parse(alloc, client_max)?;
    Ok((Some(broker_max), Some(client_max)))
}

/// Nothing, both receive maxima, or the will.
fn parse_back(alloc: Global, fields: Option<&str>) -> Result<ClientEvent, LineError> {
    let Some(fields) = fields else {
        return Ok(ClientEvent::Back(None, None, None));
    };
    match split_word(fields) {
        ("will", Some(will)) => parse_will(alloc, will, false),
        ("delayed-will", Some(will)) => parse_will(alloc, will, true),
        _maxima => {
            let (broker_max, client_max) = parse_maxima(alloc, fields)?;
            Ok(ClientEvent::Back(broker_max, client_max, None))
        }
    }
}

/// The will of a new connection.
fn parse_will(alloc: Global, fields: &str, delayed: bool) -> Result<ClientEvent, LineError> {
    let publish = <Publish as Field>::parse(alloc, fields)?;
    let will = Will { publish, delayed };
    Ok(ClientEvent::Back(None, None, Some(will)))
}

/// The QoS, the options, and the filters, one at least.
fn parse_subscribe(alloc: Global, fields: &str) -> Result<ClientEvent, LineError> {
    let (qos, rest) = fields.split_once(' ').ok_or(LineError::Bad)?;
    let qos = <QoS as Field>::parse(alloc, qos)?;
    let mut filters = Sequence::new(alloc);
    let mut options = Options::of(qos);
    for word in rest.split(' ') {
        options.take_word(alloc, word, &mut filters)?;
    }
    if filters.is_empty() {
        return Err(LineError::Bad);
    }
    Ok(ClientEvent::Subscribe(Subscribe {
        pkid: 0,
        filters,
        properties: None,
    }))
}

/// The options of the filters behind them (MQTT 5.0 section 3.8.3.1).
#[derive(Drop)]
struct Options {
    qos: QoS,
    nolocal: bool,
    retain_forward_rule: RetainForwardRule,
}

impl Options {
    fn of(qos: QoS) -> Options {
        Options {
            qos,
            nolocal: false,
            retain_forward_rule: RetainForwardRule::OnEverySubscribe,
        }
    }

    /// An option, or a filter with those before it.
    fn take_word(
        &mut self,
        alloc: Global,
        word: &str,
        filters: &mut Sequence<Filter>,
    ) -> Result<(), LineError> {
        match word {
            "no-local" => self.nolocal = true,
            "if-new" => self.retain_forward_rule = RetainForwardRule::OnNewSubscribe,
            "no-copies" => self.retain_forward_rule = RetainForwardRule::Never,
            _ => filters.push(self.filter(alloc, word)?)?,
        }
        Ok(())
    }

    fn filter(&self, alloc: Global, word: &str) -> Result<Filter, LineError> {
        let path = <String as Field>::parse(alloc, word)?;
        let mut filter = Filter::new(alloc, path.as_str(), self.qos)?;
        filter.nolocal = self.nolocal;
        filter.retain_forward_rule = self.retain_forward_rule;
        Ok(filter)
    }
}

/// The filters.
fn parse_unsubscribe(alloc: Global, fields: &str) -> Result<ClientEvent, LineError> {
    let mut filters = Sequence::new(alloc);
    for word in fields.split(' ') {
        filters.push(Text::from(<String as Field>::parse(alloc, word)?))?;
    }
    Ok(ClientEvent::Unsubscribe(Unsubscribe {
        pkid: 0,
        filters,
        properties: None,
    }))
}
