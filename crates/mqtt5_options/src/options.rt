//! The settings of a client.

ghost use Rattle.std.specs.Prelude.{◌≡◌, ◌*◌, ◌≤◌, Some, IfErr, OnOk, OnErr};
ghost use Rattle.std.specs.Borrow.{Lends, sem};
ghost use Rattle.std.specs.Duration.{as_nanos};
ghost use Rattle.mqtt5_base.specs.Texts.{text_of};
ghost use Rattle.mqtt5_base.specs.Answers.{Answers};
ghost use Rattle.mqtt5_connect.specs.Connects.{login_of};
ghost use Rattle.mqtt5_connect.specs.contracts.connect.ConnectProperties.{the_row as properties_row};
ghost use Rattle.mqtt5_options.specs.Options.{defaults, seconds, properties_of, with_properties};
ghost use Rattle.mqtt5_options.specs.contracts.options.MqttOptions.{the_row};

use mqtt5_base::{Error, Text, copied};
use mqtt5_connect::{ConnectProperties, LastWill, Login};
use std::alloc::{AllocError, Global};
use std::fmt;
use std::marker::Model;
use std::time::Duration;

/// The most requests that are taken at once. Nothing sets it, and only Debug shows it.
const MAX_REQUEST_BATCH: usize = 0;

/// The settings of a client. Each is kept as it was set, and nothing acts on it. A call is refused
/// for want of memory alone (E21).
#[derive(Drop)]
pub struct MqttOptions {
    pub(crate) alloc: Global,
    broker_addr: Text,
    port: u16,
    keep_alive: Duration,
    clean_start: bool,
    client_id: Text,
    credentials: Option<Login>,
    request_channel_capacity: usize,
    pending_throttle: Duration,
    last_will: Option<LastWill>,
    conn_timeout: u64,
    pub(crate) connect_properties: Option<ConnectProperties>,
    manual_acks: bool,
    outgoing_inflight_upper_limit: Option<u16>,
}

impl Model for MqttOptions {
    ghost use Rattle.mqtt5_options.specs.Options.{Settings};

    ghost Value = { Settings };

    ghost view = { λ a. record {
      broker_address = (a.broker_addr, a.port);
      client_id = a.client_id;
      last_will = a.last_will;
      credentials = a.credentials;
      keep_alive = a.keep_alive;
      clean_start = a.clean_start;
      connect_properties = a.connect_properties;
      request_channel_capacity = a.request_channel_capacity;
      pending_throttle = a.pending_throttle;
      connection_timeout = a.conn_timeout;
      manual_acks = a.manual_acks;
      outgoing_inflight_upper_limit = a.outgoing_inflight_upper_limit;
    } };
}

impl Clone for MqttOptions {
    ghost is_clone = { λ s copy. copy ≡ s };

    fn clone(&self) -> Result<MqttOptions, AllocError> {
        Ok(MqttOptions {
            alloc: self.alloc,
            broker_addr: self.broker_addr.clone()?,
            port: self.port,
            keep_alive: self.keep_alive,
            clean_start: self.clean_start,
            client_id: self.client_id.clone()?,
            credentials: copied(&self.credentials)?,
            request_channel_capacity: self.request_channel_capacity,
            pending_throttle: self.pending_throttle,
            last_will: copied(&self.last_will)?,
            conn_timeout: self.conn_timeout,
            connect_properties: copied(&self.connect_properties)?,
            manual_acks: self.manual_acks,
            outgoing_inflight_upper_limit: self.outgoing_inflight_upper_limit,
        })
    }
}

impl fmt::Debug for MqttOptions {
    fn fmt<W: fmt::Write>(&self, f: &mut fmt::Formatter<W>) -> fmt::Result {
        f.debug_struct("MqttOptions")
            .field("broker_addr", &self.broker_addr)
            .field("port", &self.port)
            .field("keep_alive", &self.keep_alive)
            .field("clean_start", &self.clean_start)
            .field("client_id", &self.client_id)
            .field("credentials", &self.credentials)
            .field("request_channel_capacity", &self.request_channel_capacity)
            .field("max_request_batch", &MAX_REQUEST_BATCH)
            .field("pending_throttle", &self.pending_throttle)
            .field("last_will", &self.last_will)
            .field("conn_timeout", &self.conn_timeout)
            .field("manual_acks", &self.manual_acks)
            .field("connect properties", &self.connect_properties)
            .finish()
    }
}

/// A span of whole seconds.
fn whole_seconds(secs: u64) -> Duration
    ensures { result ≡ seconds secs }
{
    Duration::from_secs(secs)
}

/// A copy of a text.
#[tactic(auto, using(mqtt5_base::specs::Codes::text_back))]
fn copy_of(alloc: Global, text: &str) -> Result<Text, Error>
    ensures { Answers result (text_of text.now) }
{
    Ok(Text::from(String::from_str(alloc, text)?))
}

/// A login of these texts.
#[tactic(auto, using(mqtt5_base::specs::Codes::text_back))]
fn login(alloc: Global, username: &str, password: &str) -> Result<Login, Error>
    ensures { Answers result (login_of username.now password.now) }
{
    Login::new(alloc, username, password)
}

impl MqttOptions {
    /// The settings of the client `id`, whose broker is at `host` and `port`: keep alive 60 seconds,
    /// clean start, request channel capacity 10, pending throttle 0, connection timeout 5 seconds, no
    /// manual acks; nothing else is set. `id` may be empty. E21.
    pub fn new(alloc: Global, id: &str, host: &str, port: u16) -> Result<MqttOptions, Error>
        ensures { Answers result (defaults (text_of id.now) (text_of host.now) port) }
    {
        Ok(MqttOptions {
            alloc,
            broker_addr: copy_of(alloc, host)?,
            port,
            keep_alive: whole_seconds(60),
            clean_start: true,
            client_id: copy_of(alloc, id)?,
            credentials: None,
            request_channel_capacity: 10,
            pending_throttle: whole_seconds(0),
            last_will: None,
            conn_timeout: 5,
            connect_properties: None,
            manual_acks: false,
            outgoing_inflight_upper_limit: None,
        })
    }

    /// The connect properties, empty ones where there were none.
    pub(crate) fn connect(&mut self) -> &mut ConnectProperties
        ensures* writes_back { sem 𝓛 (Lends the_row properties_row self.entry result
            (with_properties self.old)) }
        ensures value { result.now ≡ properties_of self.old }
    {
        let empty = ConnectProperties::new(self.alloc);
        self.connect_properties.get_or_insert(empty)
    }

    /// The broker's host and port. E21.
    pub fn broker_address(&self) -> Result<(Text, u16), Error>
        ensures { Answers result self.now.broker_address }
    {
        Ok((copied(&self.broker_addr)?, self.port))
    }

    /// The client identifier. E21.
    pub fn client_id(&self) -> Result<Text, Error>
        ensures { Answers result self.now.client_id }
    {
        Ok(copied(&self.client_id)?)
    }

    /// Sets the client identifier, which may be empty. Takes no memory.
    pub fn set_client_id(&mut self, client_id: Text) -> &mut Self
        ensures same { result.ghost_name ≡ self.entry.ghost_name }
        ensures set { result.now ≡ record (self.old) { client_id = client_id } }
    {
        self.client_id = client_id;
        self
    }

    /// The will; None where it isn't set. E21.
    pub fn last_will(&self) -> Result<Option<LastWill>, Error>
        ensures { Answers result self.now.last_will }
    {
        Ok(copied(&self.last_will)?)
    }

    /// Sets the will. Takes no memory.
    pub fn set_last_will(&mut self, will: LastWill) -> &mut Self
        ensures same { result.ghost_name ≡ self.entry.ghost_name }
        ensures set { result.now ≡ record (self.old) { last_will = Some will } }
    {
        self.last_will = Some(will);
        self
    }

    /// The user name and the password; None where they aren't set. E21.
    pub fn credentials(&self) -> Result<Option<Login>, Error>
        ensures { Answers result self.now.credentials }
    {
        Ok(copied(&self.credentials)?)
    }

    /// Sets the user name and the password. E21; then the settings are unchanged.
    pub fn set_credentials(&mut self, username: &str, password: &str) -> Result<(), Error>
        ensures ok { OnOk result
            (self.new
            ≡ record (self.old) { credentials = Some (login_of username.now password.now) }) }
        ensures kept { OnErr result (self.new ≡ self.old) }
        ensures err { IfErr result (λ e. e ≡ Error.OutOfMemory) }
    {
        let login = login(self.alloc, username, password)?;
        self.credentials = Some(login);
        Ok(())
    }

    /// The longest time without a packet from the client. Takes no memory.
    pub fn keep_alive(&self) -> Duration
        ensures { result ≡ self.now.keep_alive }
    {
        self.keep_alive
    }

    /// Sets the longest time without a packet from the client, at least 5 seconds. Takes no memory.
    pub fn set_keep_alive(&mut self, duration: Duration) -> &mut Self
        requires { 5 * 1_000_000_000 ≤ as_nanos duration }
        ensures same { result.ghost_name ≡ self.entry.ghost_name }
        ensures set { result.now ≡ record (self.old) { keep_alive = duration } }
    {
        self.keep_alive = duration;
        self
    }

    /// The time between two packets that are sent again. Takes no memory.
    pub fn pending_throttle(&self) -> Duration
        ensures { result ≡ self.now.pending_throttle }
    {
        self.pending_throttle
    }

    /// Sets the time between two packets that are sent again. Takes no memory.
    pub fn set_pending_throttle(&mut self, duration: Duration) -> &mut Self
        ensures same { result.ghost_name ≡ self.entry.ghost_name }
        ensures set { result.now ≡ record (self.old) { pending_throttle = duration } }
    {
        self.pending_throttle = duration;
        self
    }

    /// Whether the server forgets the client's last session. Takes no memory.
    pub fn clean_start(&self) -> bool
        ensures { result ≡ self.now.clean_start }
    {
        self.clean_start
    }

    /// Sets whether the server forgets the client's last session. Takes no memory.
    pub fn set_clean_start(&mut self, clean_start: bool) -> &mut Self
        ensures same { result.ghost_name ≡ self.entry.ghost_name }
        ensures set { result.now ≡ record (self.old) { clean_start = clean_start } }
    {
        self.clean_start = clean_start;
        self
    }

    /// Whether the user sends the acks. Takes no memory.
    pub fn manual_acks(&self) -> bool
        ensures { result ≡ self.now.manual_acks }
    {
        self.manual_acks
    }

    /// Sets whether the user sends the acks. Takes no memory.
    pub fn set_manual_acks(&mut self, manual_acks: bool) -> &mut Self
        ensures same { result.ghost_name ≡ self.entry.ghost_name }
        ensures set { result.now ≡ record (self.old) { manual_acks = manual_acks } }
    {
        self.manual_acks = manual_acks;
        self
    }

    /// How many requests may wait to be taken. Takes no memory.
    pub fn request_channel_capacity(&self) -> usize
        ensures { result ≡ self.now.request_channel_capacity }
    {
        self.request_channel_capacity
    }

    /// Sets how many requests may wait to be taken. Takes no memory.
    pub fn set_request_channel_capacity(&mut self, capacity: usize) -> &mut Self
        ensures same { result.ghost_name ≡ self.entry.ghost_name }
        ensures set { result.now ≡ record (self.old) { request_channel_capacity = capacity } }
    {
        self.request_channel_capacity = capacity;
        self
    }

    /// How many seconds a connection may take to open. Takes no memory.
    pub fn connection_timeout(&self) -> u64
        ensures { result ≡ self.now.connection_timeout }
    {
        self.conn_timeout
    }

    /// Sets how many seconds a connection may take to open. Takes no memory.
    pub fn set_connection_timeout(&mut self, timeout: u64) -> &mut Self
        ensures same { result.ghost_name ≡ self.entry.ghost_name }
        ensures set { result.now ≡ record (self.old) { connection_timeout = timeout } }
    {
        self.conn_timeout = timeout;
        self
    }

    /// The most outgoing publishes that may be without an ack; None where it isn't set. Takes no memory.
    pub fn get_outgoing_inflight_upper_limit(&self) -> Option<u16>
        ensures { result ≡ self.now.outgoing_inflight_upper_limit }
    {
        self.outgoing_inflight_upper_limit
    }

    /// Sets the most outgoing publishes that may be without an ack. Takes no memory.
    pub fn set_outgoing_inflight_upper_limit(&mut self, limit: u16) -> &mut Self
        ensures same { result.ghost_name ≡ self.entry.ghost_name }
        ensures set { result.now
            ≡ record (self.old) { outgoing_inflight_upper_limit = Some limit } }
    {
        self.outgoing_inflight_upper_limit = Some(limit);
        self
    }

    /// The connect properties, all nine of them; None where none was set. E21.
    pub fn connect_properties(&self) -> Result<Option<ConnectProperties>, Error>
        ensures { Answers result self.now.connect_properties }
    {
        Ok(copied(&self.connect_properties)?)
    }

    /// Sets the connect properties, all nine of them. Takes no memory.
    pub fn set_connect_properties(&mut self, properties: ConnectProperties) -> &mut Self
        ensures same { result.ghost_name ≡ self.entry.ghost_name }
        ensures set { result.now ≡ record (self.old) { connect_properties = Some properties } }
    {
        self.connect_properties = Some(properties);
        self
    }
}
