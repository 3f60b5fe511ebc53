//! A client, call by call.

ghost use Rattle.std.specs.Prelude.{OnOk};
ghost use Rattle.mqtt5_client.specs.Client.{IsReady};

use super::drive::drives;
use super::{add_bytes, bytes_of, cut, number_of, publish_hi, quality_of};
use crate::first::{hear, publish_first};
use bytes::Bytes;
use mqtt5_base::{Error, QoS, Text};
use mqtt5_client::{Client, Event, Request, StateError, error_number, state_error_number};
use mqtt5_connect::LastWill;
use mqtt5_control::{
    Auth, AuthProperties, AuthReasonCode, Disconnect, DisconnectProperties, DisconnectReasonCode,
};
use mqtt5_options::MqttOptions;
use mqtt5_publish::Publish;
use std::alloc::{AllocError, Global};
use std::test::Fail;
use std::time::Duration;

/// A client of ten ids. `connect` is of client "c" with keep alive 60 and clean start (3.1); `parts` adds a will of "m" to
/// "w", QoS 1, retain, and the login "u", "p"; `again` has no clean start, a keep alive of 70,000 seconds and a maximum
/// packet size of 100 (3.1.2.11.4). `ask` is a publish of "hi" to "a/b" at a quality of service (3.3), `hear` a piece that
/// comes in, `fill` one that is put at the end of the input, and `limit` takes the limit of the ConnAcks that were told;
/// `clean` asks again for what is given back last, and `end` asks for a Disconnect (3.14.4). `leave` says one with this reason
/// and the reason string "r" (3.14.2), `auth` an Auth of this code with the method "m" (3.15.2), and `bare` one without it.
/// `limits` are those of what comes in and what is sent, `maxima` those of publishes in flight and of topic aliases.
const CALLS: &str = "connect; output=100E00044D5154540502003C00000163; limits=None/None
connect:parts; output=101B00044D51545405EE003C000001630000017700016D000175000170; limits=None/None
connect:again; output=101300044D5154540500FFFF052700000064000163; limits=Some(100)/None
hear:200E00000B21000227; hear:0000000B220003; maxima=2/3; limits=None/Some(11); ask:1=S9(12,11)
ask:0; hear:-; hear:-; output=30080003612F62006869; ids=0
ask:1; hear:400200; hear:01; output=320A0003612F620001006869; ids=0
ask:2; hear:50020001; hear:70020001; output=340A0003612F62000100686962020001; ids=0
hear:3005000161; hear:0078; output=-; ids=0
hear:3207000161; hear:00070078; output=40020007; ids=0
hear:340700016100070078; hear:62020007; output=5002000770020007; ids=0
hear:3207; fill:00016100070078; held=-; output=40020007; ids=0
fill:3207000161; held=3207000161; output=-; fill:00070078; held=-; output=40020007; ids=0
fill:200E00000B210002270000000B220003; maxima=2/3; limits=None/None; limit; limits=None/Some(11)
fill:40020005=S2(5); held=-
ask:1; sent:0; output=320A0003612F620001006869
ask:1; sent:5; output=2F620001006869
ask:1; sent:12; output=-
ask:1; sent:100; output=-
ask:1; sent:5; hear:4002; connect:again; output=101300044D5154540500FFFF052700000064000163; sent:21; hear:2003010000; resume; output=3A0A0003612F620001006869; ids=1; hear:40020001; ids=0
end; ask:0=S13; ask:1=S13; end=S13; event=Disconnect; event=; ids=0; hear:3207000161; hear:00070078; output=E00040020007; connect:again; sent:21; ask:0; output=30080003612F62006869
ask:1; clean=S1; event=Publish(1); clean; output=3A0A0003612F620001006869; ids=1
out:1000; big:1=S9(2011,1000); ids=0; event=; output=-; ask:1; event=Publish(1); output=320A0003612F620001006869; hear:40020001; ids=0
out:1000; big:0=S9(2009,1000); event=; output=-; ask:0; output=30080003612F62006869
long:1=S7E11; long:0=S7E11; ids=0; event=; ask:2; ids=1; output=340A0003612F620001006869
ask:1; ask:1; ask:1; ask:1; ask:1; ask:1; ask:1; ask:1; ask:1; ask:1; sent:200; out:1000; big:1=S9(2011,1000); ask:1; output=-; ids=10; hear:40020001; output=320A0003612F620001006869; ids=10
out:1000; big:1=S9(2011,1000); ask:1; sent:12; connect:again; sent:21; hear:2003010000; resume; output=3A0A0003612F620001006869; ids=1
big:1; ask:1; sent:3000; connect:again; sent:21; hear:20080100052700; hear:0003E8; resume=S9(2011,1000); output=-; take:1=1; output=620200013A0A0003612F620002006869; ids=2; hear:70020001; ids=1; hear:40020002; ids=0
ask:1; ask:1; sent:100; connect:again; sent:21; hear:2009000006210002220003; take:0=S1; event=Publish(1); event=Publish(2); event=; take:0=2; ids=0; maxima=2/3; output=-; ask:1; event=Publish(1); output=320A0003612F620001006869
hear:40020005=S2(5); held=-
hear:C000=S4; held=-
leave:4; event=Disconnect; event=; output=E00604041F000172; ask:0=S13; leave:0=S13; auth:24=S13; connect; output=100E00044D5154540502003C00000163
leave:137=S1; event=; output=-; out:7; leave:4=S9(8,7); event=; output=-; ask:0=S9(10,7); out:8; leave:4; output=E00604041F000172
hear:F0061804150001; hear:6D; event=; event=; output=-; auth:24; event=Auth; output=F00618041500016D; hear:2003000000; auth:25; output=F00618041500016DF00619041500016D; ids=0
auth:0=S1; bare:24=S1; out:7; auth:24=S9(8,7); event=; output=-
hear:30FFFFFFFF=S7E17; held=-
hear:E0028B00=S10; held=-
hear:2003008700=S11; held=-
";

/// Adds a will and a login.
fn add_parts(alloc: Global, options: &mut MqttOptions) -> Result<(), Error> {
    let message = Vec::from_slice(alloc, b"m")?;
    let will = LastWill::new(alloc, "w", message, QoS::AtLeastOnce, true, None)?;
    options.set_last_will(will);
    options.set_credentials("u", "p")
}

fn change(options: &mut MqttOptions) {
    options.set_clean_start(false);
    options.set_keep_alive(Duration::from_secs(70000));
    options.set_max_packet_size(Some(100));
}

/// Makes the settings those of this name.
fn set(alloc: Global, options: &mut MqttOptions, name: &str) -> Result<(), Error> {
    match name {
        "parts" => add_parts(alloc, options),
        "again" => Ok(change(options)),
        _plain => Ok(()),
    }
}

fn begins(
    alloc: Global,
    client: &mut Client,
    options: &mut MqttOptions,
    name: &str,
) -> Result<(), StateError> {
    set(alloc, options, name)?;
    client.connect(options)
}

fn connects(alloc: Global, client: &mut Client, name: &str) -> Result<(), StateError> {
    let mut options = MqttOptions::new(alloc, "c", "localhost", 1883)?;
    let begun = begins(alloc, client, &mut options, name);
    drop(options);
    begun
}

fn asks(alloc: Global, client: &mut Client, quality: &str) -> Result<(), StateError>
    requires { IsReady client.old }
{
    let publish = publish_hi(alloc, quality_of(quality))?;
    client.request(Request::Publish(publish), 1)
}

/// A publish that many brokers refuse: with a payload of 2,000 bytes, or a topic of 70,000.
fn large(alloc: Global, name: &str, quality: &str) -> Result<Publish, Error> {
    let mut publish = publish_hi(alloc, quality_of(quality))?;
    if name == "big" {
        publish.payload = Bytes::copy_from_slice(alloc, &[0x78; 2000])?;
    } else {
        publish.topic = Bytes::copy_from_slice(alloc, &[0x78; 70000])?;
    }
    Ok(publish)
}

fn asks_large(
    alloc: Global,
    client: &mut Client,
    name: &str,
    quality: &str,
) -> Result<(), StateError>
    requires { IsReady client.old }
{
    let publish = large(alloc, name, quality)?;
    client.request(Request::Publish(publish), 1)
}

fn hears(alloc: Global, client: &mut Client, digits: &str) -> Result<(), StateError>
    requires { IsReady client.old }
{
    let piece = bytes_of(alloc, digits)?;
    client.receive(piece.as_slice(), 5)
}

/// Puts bytes at the end of the input, and has them taken.
fn fills(alloc: Global, client: &mut Client, digits: &str) -> Result<(), StateError> {
    let piece = bytes_of(alloc, digits)?;
    client.input.extend_from_slice(piece.as_slice())?;
    client.take_input(5)
}

/// What a clean gives back last.
fn given_back(client: &mut Client) -> Result<Option<Request>, StateError>
    ensures { OnOk result (IsReady client.new) }
{
    let mut requests = client.clean()?;
    let last = requests.pop();
    drop(requests);
    Ok(last)
}

/// That is asked for again.
fn cleans(client: &mut Client) -> Result<(), StateError> {
    match given_back(client)? {
        Some(request) => client.request(request, 2),
        None => Ok(()),
    }
}

fn leaves(alloc: Global, client: &mut Client, reason: &str) -> Result<(), StateError> {
    let mut properties = DisconnectProperties::new(alloc);
    properties.reason_string = Some(Text::from_str(alloc, "r")?);
    let reason_code = match reason {
        "4" => DisconnectReasonCode::DisconnectWithWillMessage,
        "137" => DisconnectReasonCode::ServerBusy,
        _normal => DisconnectReasonCode::NormalDisconnection,
    };
    let disconnect = Disconnect {
        reason_code,
        properties: Some(properties),
    };
    client.disconnect(disconnect, 3)
}

fn authenticates(
    alloc: Global,
    client: &mut Client,
    name: &str,
    code: &str,
) -> Result<(), StateError> {
    let mut properties = AuthProperties::new(alloc);
    if name == "auth" {
        properties.method = Some(Text::from_str(alloc, "m")?);
    }
    let code = match code {
        "24" => AuthReasonCode::Continue,
        "25" => AuthReasonCode::ReAuthentivate,
        _success => AuthReasonCode::Success,
    };
    client.authenticate(Auth::new(code, Some(properties)), 3)
}

/// Makes a call.
fn calls(alloc: Global, client: &mut Client, name: &str, argument: &str) -> Result<(), StateError>
    requires { IsReady client.old }
{
    match name {
        "connect" => connects(alloc, client, argument),
        "ask" => asks(alloc, client, argument),
        "big" | "long" => asks_large(alloc, client, name, argument),
        "hear" => hears(alloc, client, argument),
        "fill" => fills(alloc, client, argument),
        "resume" => client.resume(4),
        "clean" => cleans(client),
        "end" => client.request(Request::Disconnect, 3),
        "leave" => leaves(alloc, client, argument),
        "auth" | "bare" => authenticates(alloc, client, name, argument),
        _drive => drives(alloc, client, argument),
    }
}

/// Sets a limit of the codec, or takes bytes out of the output.
fn sets(client: &mut Client, name: &str, number: u32) {
    match name {
        "in" => client.codec.max_incoming_size = Some(number),
        "out" => client.codec.max_outgoing_size = Some(number),
        _sent => client.sent(number as usize),
    }
}

/// Adds a fault by its number, with what it carries.
fn add_fault(fault: &StateError, text: &mut String) -> Result<(), AllocError> {
    write!(text, "=S{}", state_error_number(fault))?;
    match fault {
        StateError::Unsolicited(id) => write!(text, "({id})"),
        StateError::OutgoingPacketTooLarge { pkt_size, max } => write!(text, "({pkt_size},{max})"),
        StateError::Deserialization(error) => add_error(error, text),
        _other => Ok(()),
    }
}

fn add_error(error: &Error, text: &mut String) -> Result<(), AllocError> {
    write!(text, "E{}", error_number(error))?;
    match error {
        Error::PayloadSizeLimitExceeded { pkt_size, max } => write!(text, "({pkt_size},{max})"),
        _other => Ok(()),
    }
}

/// Makes a call, and adds its fault.
fn makes(
    alloc: Global,
    client: &mut Client,
    name: &str,
    argument: &str,
    text: &mut String,
) -> Result<(), AllocError>
    requires { IsReady client.old }
{
    let ended = calls(alloc, client, name, argument);
    let added = match &ended {
        Ok(()) => Ok(()),
        Err(fault) => add_fault(fault, text),
    };
    drop(ended);
    added
}

/// Takes the oldest event out, and adds it where it says what was sent.
fn add_event(client: &mut Client, text: &mut String) -> Result<(), AllocError> {
    let event = client.next_event();
    let added = match &event {
        Some(Event::Outgoing(sent)) => write!(text, "={sent:?}"),
        _other => text.push('='),
    };
    drop(event);
    added
}

/// Takes the session up, and adds how many requests are given back, or the fault.
fn add_taken(client: &mut Client, present: &str, text: &mut String) -> Result<(), AllocError> {
    let taken = client.take_up(present == "1", 4);
    let added = match &taken {
        Ok(given) => write!(text, "={}", given.len()),
        Err(fault) => add_fault(fault, text),
    };
    drop(taken);
    added
}

/// Adds what is asked for of a client.
fn looks(alloc: Global, client: &Client, name: &str, text: &mut String) -> Result<(), AllocError> {
    let state = &client.state;
    let codec = &client.codec;
    match name {
        "output" => add_bytes(alloc, client.output(), text),
        "held" => add_bytes(alloc, client.input.as_slice(), text),
        "ids" => write!(text, "={}", state.inflight()),
        "maxima" => write!(
            text,
            "={}/{}",
            state.max_outgoing_inflight(),
            state.broker_topic_alias_max()
        ),
        _limits => write!(
            text,
            "={:?}/{:?}",
            codec.max_incoming_size, codec.max_outgoing_size
        ),
    }
}

/// Makes a call of a row, and adds its answer.
fn takes(alloc: Global, client: &mut Client, call: &str, text: &mut String) -> Result<(), Error> {
    let (name, argument) = cut(call, ':');
    match name {
        "in" | "out" | "sent" => sets(client, name, number_of(argument)?),
        "limit" => client.take_limit(0),
        "event" => add_event(client, text)?,
        "take" => add_taken(client, argument, text)?,
        "output" | "held" | "ids" | "maxima" | "limits" => looks(alloc, client, name, text)?,
        _call if client.needs_more() => makes(alloc, client, name, argument, text)?,
        _call => text.push('!')?,
    }
    Ok(())
}

/// Makes the calls of a row, and writes it anew.
fn walks(alloc: Global, client: &mut Client, row: &str, text: &mut String) -> Result<(), Error> {
    for (i, part) in row.split("; ").enumerate() {
        if i > 0 {
            text.push_str("; ")?;
        }
        let (call, _answer) = cut(part, '=');
        text.push_str(call)?;
        takes(alloc, client, call, text)?;
    }
    Ok(())
}

/// Whether each call of a row has its answer.
pub(super) fn is_row(alloc: Global, row: &str) -> Result<bool, Error> {
    let Ok(mut client) = Client::new(alloc, 10, false) else {
        return Err(Error::OutOfMemory);
    };
    let mut text = String::new(alloc);
    let walked = walks(alloc, &mut client, row, &mut text);
    drop(client);
    walked?;
    Ok(text.as_str() == row)
}

#[test]
fn clients(rt: HostRuntime) -> Result<(), Fail> {
    for row in CALLS.lines() {
        assert!(rt; is_row(rt.alloc(), row)?, "of {row}");
    }
    Ok(())
}

/// The first message of a client, and its ack in two pieces (3.4).
fn is_acked(alloc: Global, client: &mut Client) -> Result<bool, StateError>
    requires { IsReady client.old }
{
    publish_first(alloc, client)?;
    let awaited = hear(client, &[0x40, 0x02])?;
    Ok(awaited == 1 && hear(client, &[0x00, 0x01])? == 0)
}

#[test]
fn first_message(rt: HostRuntime) -> Result<(), Fail> {
    let mut client = Client::new(rt.alloc(), 10, false)?;
    assert!(rt; is_acked(rt.alloc(), &mut client)?);
    Ok(())
}
