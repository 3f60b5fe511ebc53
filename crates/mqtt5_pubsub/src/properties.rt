//! Properties that the words ask for, by the names and in the form of mosquitto's `-D`: a command, a property, and its value,
//! of a user property its name and its value.

ghost use Rattle.std.specs.Prelude.{◌≡◌, IfOk};
ghost use Rattle.mqtt5_pubsub.specs.Sources.{GivesWith};

use clap::ArgMatches;
use mqtt5_base::{Error, Property, PropertySet, Sequence};
use mqtt5_codec::Packet;
use mqtt5_connect::{Connect, ConnectProperties, LastWill, LastWillProperties};
use mqtt5_properties::{Refusal, bytes_property, number_property, set_of, user_property};
use mqtt5_publish::{Publish, PublishProperties};
use mqtt5_talk::{Source, TalkError, connect_of};
use std::alloc::{AllocError, Global};
use std::io::Write;

/// The identifier of a user property.
const USER_PROPERTY: u32 = 38;

/// The names of properties, and their identifiers (MQTT 5.0 section 2.2.2.2).
const NAMES: [(&str, u32); 17] = [
    ("payload-format-indicator", 1),
    ("message-expiry-interval", 2),
    ("content-type", 3),
    ("response-topic", 8),
    ("correlation-data", 9),
    ("subscription-identifier", 11),
    ("session-expiry-interval", 17),
    ("authentication-method", 21),
    ("authentication-data", 22),
    ("request-problem-information", 23),
    ("will-delay-interval", 24),
    ("request-response-information", 25),
    ("receive-maximum", 33),
    ("topic-alias-maximum", 34),
    ("topic-alias", 35),
    ("user-property", USER_PROPERTY),
    ("maximum-packet-size", 39),
];

/// Which of them each packet of a client has (3.1.2.11, 3.1.3.2, 3.3.2.3, 3.8.2.1, 3.10.2.1).
const COMMANDS: [(&str, &[u32]); 5] = [
    ("connect", &[17, 21, 22, 23, 25, 33, 34, 38, 39]),
    ("will", &[1, 2, 3, 8, 9, 24, 38]),
    ("publish", &[1, 2, 3, 8, 9, 35, 38]),
    ("subscribe", &[11, 38]),
    ("unsubscribe", &[38]),
];

/// How many words stand behind a `-D`: the script that takes the words gives one without a name an empty last word.
pub const WORDS: usize = 4;

/// A property that the words ask for.
#[derive(Clone, Copy)]
struct Wanted<'a> {
    command: &'a str,
    property: &'a str,
    /// The value; of a user property its name.
    value: &'a str,
    /// The value of a user property.
    second: &'a str,
}

/// What stands behind a `-D`.
fn wanted_in<'a>(words: &[&'a str]) -> Option<Wanted<'a>> {
    let [command, property, value, second] = words else {
        return None;
    };
    Some(Wanted {
        command,
        property,
        value,
        second,
    })
}

impl Wanted<'_> {
    /// The property's identifier, where a packet of the command has such a property.
    fn id(self) -> Option<u32> {
        let id = find_id(self.property)?;
        if has_property(self.command, id) {
            Some(id)
        } else {
            None
        }
    }

    /// The property. NotTaken where it is none of a packet of the command, or may not have that value.
    fn property(self, alloc: Global) -> Result<Property, Refusal> {
        let Some(id) = self.id() else {
            return Err(Refusal::NotTaken);
        };
        if id == USER_PROPERTY {
            return user_property(alloc, self.value.as_bytes(), self.second.as_bytes());
        }
        match self.value.parse::<u32>() {
            Ok(number) if is_number(id) => number_of(id, number),
            _other => bytes_property(alloc, id, self.value.as_bytes()),
        }
    }
}

fn find_id(property: &str) -> Option<u32> {
    for (name, id) in NAMES {
        if name == property {
            return Some(id);
        }
    }
    None
}

/// Whether a packet of this command has a property with this identifier.
fn has_property(command: &str, id: u32) -> bool {
    for (name, ids) in COMMANDS {
        if name == command {
            return ids.contains(&id);
        }
    }
    false
}

/// Whether the property with this identifier is a number.
fn is_number(id: u32) -> bool {
    matches!(id, 1 | 2 | 11 | 17 | 23 | 24 | 25 | 33 | 34 | 35 | 39)
}

/// The property of a number, where it isn't a Protocol Error: a flag is 0 or 1 (3.1.2.11.6, 3.1.2.11.7, 3.3.2.3.2), and an
/// identifier, an alias and a maximum of the first kind are over 0 (3.1.2.11.3, 3.1.2.11.4, 3.3.2.3.4, 3.8.2.1.2).
fn number_of(id: u32, number: u32) -> Result<Property, Refusal> {
    let is_allowed = match id {
        1 | 23 | 25 => number < 2,
        11 | 33 | 35 | 39 => number > 0,
        _other => true,
    };
    if !is_allowed {
        return Err(Refusal::NotTaken);
    }
    number_property(id, number).ok_or(Refusal::NotTaken)
}

/// Whether a `-D` asks for a property that there isn't, or of another packet than those that are sent, of which the log tells.
pub fn refuses_properties<E: Write>(
    alloc: Global,
    matches: &ArgMatches<'_>,
    commands: &[&str],
    log: &mut E,
) -> bool {
    let words = matches.get_strs("properties").unwrap_or(&[]);
    for group in words.chunks(WORDS) {
        if !is_wanted(alloc, group, commands) {
            tell_refused(group, log);
            return true;
        }
    }
    false
}

fn tell_refused<E: Write>(words: &[&str], log: &mut E) {
    let _ = write!(log, "error: no property:");
    for word in words {
        let _ = write!(log, " {word}");
    }
    let _ = writeln!(log, "");
}

/// Whether these words ask for a property of a packet that is sent.
fn is_wanted(alloc: Global, words: &[&str], commands: &[&str]) -> bool {
    match wanted_in(words) {
        Some(wanted) => is_among(commands, wanted.command) && is_taken(alloc, wanted),
        None => false,
    }
}

fn is_among(names: &[&str], name: &str) -> bool {
    for other in names {
        if *other == name {
            return true;
        }
    }
    false
}

/// Whether a property may be what it is wanted to be; so it is said to be where memory is refused.
fn is_taken(alloc: Global, wanted: Wanted<'_>) -> bool {
    !matches!(wanted.property(alloc), Err(Refusal::NotTaken))
}

/// The properties that the words ask for in the packets of a command, where there are some. E18 of one that may not stand
/// there, E21.
pub fn properties_of<P: PropertySet>(
    alloc: Global,
    matches: &ArgMatches<'_>,
    command: &str,
) -> Result<Option<P>, Error> {
    let listed = match list_of(alloc, matches, command) {
        Ok(list) => set_of(alloc, list),
        Err(refusal) => Err(refusal),
    };
    match listed {
        Ok(set) => Ok(set),
        Err(Refusal::NotTaken) => Err(Error::InvalidPropertyType(0)),
        Err(Refusal::OutOfMemory) => Err(Error::OutOfMemory),
    }
}

fn list_of(
    alloc: Global,
    matches: &ArgMatches<'_>,
    command: &str,
) -> Result<Sequence<Property>, Refusal> {
    let mut list = Sequence::new(alloc);
    let words = matches.get_strs("properties").unwrap_or(&[]);
    for group in words.chunks(WORDS) {
        push_wanted(alloc, group, command, &mut list)?;
    }
    Ok(list)
}

/// Adds the property that these words ask for, where it is of this command.
fn push_wanted(
    alloc: Global,
    words: &[&str],
    command: &str,
    list: &mut Sequence<Property>,
) -> Result<(), Refusal> {
    match wanted_in(words) {
        Some(wanted) if wanted.command == command => {
            let property = wanted.property(alloc)?;
            Ok(push(list, property)?)
        }
        _other => Ok(()),
    }
}

fn push(list: &mut Sequence<Property>, property: Property) -> Result<(), AllocError> {
    list.push(property)?;
    Ok(())
}

/// The Connect that the words ask for, with its properties and those of its will. E21.
pub fn connect_with(alloc: Global, matches: &ArgMatches<'_>) -> Result<Packet, Error> {
    match connect_of(alloc, matches)? {
        Packet::Connect(connect, will, login) => {
            let connect = with_properties(alloc, matches, connect)?;
            let will = will_with(alloc, matches, will)?;
            Ok(Packet::Connect(connect, will, login))
        }
        other => Ok(other),
    }
}

/// A Connect with the properties that the words ask for. A session expiry interval among them counts, else that of `-x`.
fn with_properties(
    alloc: Global,
    matches: &ArgMatches<'_>,
    connect: Connect,
) -> Result<Connect, Error> {
    let Some(mut set) = properties_of::<ConnectProperties>(alloc, matches, "connect")? else {
        return Ok(connect);
    };
    let mut connect = connect;
    if let Some(before) = &connect.properties {
        set.session_expiry_interval = set
            .session_expiry_interval
            .or(before.session_expiry_interval);
    }
    connect.properties = Some(set);
    Ok(connect)
}

fn will_with(
    alloc: Global,
    matches: &ArgMatches<'_>,
    will: Option<LastWill>,
) -> Result<Option<LastWill>, Error> {
    let Some(mut will) = will else {
        return Ok(None);
    };
    will.properties = properties_of::<LastWillProperties>(alloc, matches, "will")?;
    Ok(Some(will))
}

/// A copy of a message's properties. Err for want of memory.
pub fn copy_of(
    properties: &Option<PublishProperties>,
) -> Result<Option<PublishProperties>, AllocError>
    ensures { IfOk result (λ copy. copy ≡ properties.now) }
{
    match properties {
        Some(set) => Ok(Some(set.clone()?)),
        None => Ok(None),
    }
}

/// The messages of a source, with these properties.
#[derive(Drop)]
pub struct WithProperties<'p, S> {
    pub source: S,
    pub properties: &'p Option<PublishProperties>,
}

impl<S: Source> Source for WithProperties<'_, S> {
    ghost gives = { λ old message new. (new.properties ≡ old.properties)
        × GivesWith S.gives old.properties.now old.source message new.source };

    fn is_late(&self) -> bool {
        self.source.is_late()
    }

    fn next(&mut self, pkid: u16) -> Result<Option<Publish>, TalkError> {
        let Some(mut message) = self.source.next(pkid)? else {
            return Ok(None);
        };
        message.properties = copy_of(self.properties)?;
        Ok(Some(message))
    }
}
