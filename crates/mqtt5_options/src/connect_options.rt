//! The settings that are properties of the Connect (MQTT 5.0 section 3.1.2.11). Where no properties
//! are set a getter shows those of an empty set, and a setter makes one.

ghost use Rattle.std.specs.Prelude.{◌≡◌};
ghost use Rattle.mqtt5_base.specs.Answers.{Answers};
ghost use Rattle.mqtt5_options.specs.Options.{properties_of, with_properties};

use crate::options::MqttOptions;
use bytes::Bytes;
use mqtt5_base::{Error, Sequence, Text, copied};

impl MqttOptions {
    /// After how many seconds the server forgets the session of a lost connection; None where it
    /// isn't set. Takes no memory.
    pub fn session_expiry_interval(&self) -> Option<u32>
        ensures { result ≡ (properties_of self.now).session_expiry_interval }
    {
        match &self.connect_properties {
            Some(properties) => properties.session_expiry_interval,
            None => None,
        }
    }

    /// Sets after how many seconds the server forgets the session of a lost connection. Takes no
    /// memory.
    pub fn set_session_expiry_interval(&mut self, interval: Option<u32>) -> &mut Self
        ensures same { result.ghost_name ≡ self.entry.ghost_name }
        ensures set { result.now ≡ with_properties self.old
            (record (properties_of self.old) { session_expiry_interval = interval }) }
    {
        self.connect().session_expiry_interval = interval;
        self
    }

    /// How many publishes of QoS 1 and 2 the server may send ahead of their acks; None where it
    /// isn't set. Takes no memory.
    pub fn receive_maximum(&self) -> Option<u16>
        ensures { result ≡ (properties_of self.now).receive_maximum }
    {
        match &self.connect_properties {
            Some(properties) => properties.receive_maximum,
            None => None,
        }
    }

    /// Sets how many publishes of QoS 1 and 2 the server may send ahead of their acks. Takes no
    /// memory.
    pub fn set_receive_maximum(&mut self, recv_max: Option<u16>) -> &mut Self
        ensures same { result.ghost_name ≡ self.entry.ghost_name }
        ensures set { result.now ≡ with_properties self.old
            (record (properties_of self.old) { receive_maximum = recv_max }) }
    {
        self.connect().receive_maximum = recv_max;
        self
    }

    /// The longest packet that the server may send, in bytes; None where it isn't set. Takes no
    /// memory.
    pub fn max_packet_size(&self) -> Option<u32>
        ensures { result ≡ (properties_of self.now).max_packet_size }
    {
        match &self.connect_properties {
            Some(properties) => properties.max_packet_size,
            None => None,
        }
    }

    /// Sets the longest packet that the server may send, in bytes. Takes no memory.
    pub fn set_max_packet_size(&mut self, max_size: Option<u32>) -> &mut Self
        ensures same { result.ghost_name ≡ self.entry.ghost_name }
        ensures set { result.now ≡ with_properties self.old
            (record (properties_of self.old) { max_packet_size = max_size }) }
    {
        self.connect().max_packet_size = max_size;
        self
    }

    /// The greatest topic alias that the server may use; None where it isn't set. Takes no memory.
    pub fn topic_alias_max(&self) -> Option<u16>
        ensures { result ≡ (properties_of self.now).topic_alias_max }
    {
        match &self.connect_properties {
            Some(properties) => properties.topic_alias_max,
            None => None,
        }
    }

    /// Sets the greatest topic alias that the server may use. Takes no memory.
    pub fn set_topic_alias_max(&mut self, topic_alias_max: Option<u16>) -> &mut Self
        ensures same { result.ghost_name ≡ self.entry.ghost_name }
        ensures set { result.now ≡ with_properties self.old
            (record (properties_of self.old) { topic_alias_max = topic_alias_max }) }
    {
        self.connect().topic_alias_max = topic_alias_max;
        self
    }

    /// Whether the server may answer with response information: 0 or 1; None where it isn't set.
    /// Takes no memory.
    pub fn request_response_info(&self) -> Option<u8>
        ensures { result ≡ (properties_of self.now).request_response_info }
    {
        match &self.connect_properties {
            Some(properties) => properties.request_response_info,
            None => None,
        }
    }

    /// Sets whether the server may answer with response information: 0 or 1. Takes no memory.
    pub fn set_request_response_info(&mut self, request_response_info: Option<u8>) -> &mut Self
        ensures same { result.ghost_name ≡ self.entry.ghost_name }
        ensures set { result.now ≡ with_properties self.old
            (record (properties_of self.old) { request_response_info = request_response_info }) }
    {
        self.connect().request_response_info = request_response_info;
        self
    }

    /// Whether the server may add reasons and user properties to any packet: 0 or 1; None where it
    /// isn't set. Takes no memory.
    pub fn request_problem_info(&self) -> Option<u8>
        ensures { result ≡ (properties_of self.now).request_problem_info }
    {
        match &self.connect_properties {
            Some(properties) => properties.request_problem_info,
            None => None,
        }
    }

    /// Sets whether the server may add reasons and user properties to any packet: 0 or 1. Takes no
    /// memory.
    pub fn set_request_problem_info(&mut self, request_problem_info: Option<u8>) -> &mut Self
        ensures same { result.ghost_name ≡ self.entry.ghost_name }
        ensures set { result.now ≡ with_properties self.old
            (record (properties_of self.old) { request_problem_info = request_problem_info }) }
    {
        self.connect().request_problem_info = request_problem_info;
        self
    }

    /// The user properties, in their order. E21.
    pub fn user_properties(&self) -> Result<Sequence<(Text, Text)>, Error>
        ensures { Answers result (properties_of self.now).user_properties }
    {
        match &self.connect_properties {
            Some(properties) => Ok(copied(&properties.user_properties)?),
            None => Ok(Sequence::new(self.alloc)),
        }
    }

    /// Sets the user properties, in their order. Takes no memory.
    pub fn set_user_properties(&mut self, user_properties: Sequence<(Text, Text)>) -> &mut Self
        ensures same { result.ghost_name ≡ self.entry.ghost_name }
        ensures set { result.now ≡ with_properties self.old
            (record (properties_of self.old) { user_properties = user_properties }) }
    {
        self.connect().user_properties = user_properties;
        self
    }

    /// The authentication method; None where it isn't set. E21.
    pub fn authentication_method(&self) -> Result<Option<Text>, Error>
        ensures { Answers result (properties_of self.now).authentication_method }
    {
        match &self.connect_properties {
            Some(properties) => Ok(copied(&properties.authentication_method)?),
            None => Ok(None),
        }
    }

    /// Sets the authentication method. Takes no memory.
    pub fn set_authentication_method(&mut self, authentication_method: Option<Text>) -> &mut Self
        ensures same { result.ghost_name ≡ self.entry.ghost_name }
        ensures set { result.now ≡ with_properties self.old
            (record (properties_of self.old) { authentication_method = authentication_method }) }
    {
        self.connect().authentication_method = authentication_method;
        self
    }

    /// The authentication data; None where it isn't set. E21.
    pub fn authentication_data(&self) -> Result<Option<Bytes>, Error>
        ensures { Answers result (properties_of self.now).authentication_data }
    {
        match &self.connect_properties {
            Some(properties) => Ok(copied(&properties.authentication_data)?),
            None => Ok(None),
        }
    }

    /// Sets the authentication data. Takes no memory.
    pub fn set_authentication_data(&mut self, authentication_data: Option<Bytes>) -> &mut Self
        ensures same { result.ghost_name ≡ self.entry.ghost_name }
        ensures set { result.now ≡ with_properties self.old
            (record (properties_of self.old) { authentication_data = authentication_data }) }
    {
        self.connect().authentication_data = authentication_data;
        self
    }
}
