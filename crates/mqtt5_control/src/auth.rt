//! The exchange of authentication data.

ghost use Rattle.std.specs.Prelude.{◌≡◌, ◌+◌, ◌≤◌, true, Some, drop, length, min, nat_lt, option_map};
ghost use Rattle.mqtt5_base.specs.Grammar.{u8, number, plain, checked};
ghost use Rattle.mqtt5_base.specs.Answers.{Finds, Gives, ReadsRow};
ghost use Rattle.mqtt5_base.specs.Reading.{judged, optional_at, values_in};
ghost use Rattle.mqtt5_base.specs.Puts.{Puts, Writes};
ghost use Rattle.mqtt5_base.specs.Layout.{block_fits, body_bytes, layout, writing, content_of_packet};
ghost use Rattle.mqtt5_control.specs.Rows.{auth_table, auth_codes, auth_row};
ghost use Rattle.mqtt5_control.specs.Auths.{auth_code, auth_found, auth_packet, no_auth_properties};

use crate::optional::read_block_if;
use bytes::{Bytes, BytesMut};
use mqtt5_base::{
    Error, FieldValue, FixedHeader, Property, PropertyBlock, PropertySet, Sequence, Tagged, Text,
    block_fits, block_len, frame_size, put_block, read_u8, start_frame,
};
use std::alloc::{AllocError, Global};

/// What an Auth says of the exchange: codes 0, 24 and 25, in this order (MQTT 5.0 section 3.15.2.1).
#[derive(Debug, Clone, PartialEq, Eq, Drop)]
pub enum AuthReasonCode {
    Success,
    Continue,
    ReAuthentivate,
}

impl AuthReasonCode {
    /// Its code. Takes no memory.
    pub fn code(&self) -> u8
        ensures { result ≡ auth_code self.now }
    {
        match self {
            AuthReasonCode::Success => 0,
            AuthReasonCode::Continue => 24,
            AuthReasonCode::ReAuthentivate => 25,
        }
    }
}

/// The properties of an Auth (MQTT 5.0 section 3.15.2.2).
#[derive(Debug, Clone, PartialEq, Eq, Drop)]
pub struct AuthProperties {
    /// The name of the method of authentication.
    pub method: Option<Text>,
    /// Data of that method.
    pub auth_data: Option<Bytes>,
    /// Why, as a text for people.
    pub reason: Option<Text>,
    /// Names and values, in order; a name may stand often.
    pub user_properties: Sequence<(Text, Text)>,
}

impl AuthProperties {
    /// The set without values. Takes no memory.
    pub fn new(alloc: Global) -> AuthProperties
        ensures { result ≡ no_auth_properties }
    {
        AuthProperties {
            method: None,
            auth_data: None,
            reason: None,
            user_properties: Sequence::new(alloc),
        }
    }
}

impl PropertySet for AuthProperties {
    ghost table = { auth_table };

    ghost found = { auth_found };

    fn empty(alloc: Global) -> AuthProperties {
        AuthProperties::new(alloc)
    }

    fn may_have(id: u8) -> bool {
        matches!(id, 21 | 22 | 31 | 38)
    }

    fn add(&mut self, property: Property) -> Result<(), AllocError> {
        match property {
            Property::AuthenticationMethod(text) => self.method = Some(text),
            Property::AuthenticationData(content) => self.auth_data = Some(content),
            Property::ReasonString(text) => self.reason = Some(text),
            Property::UserProperty(key, value) => self.user_properties.push((key, value))?,
            other => drop(other),
        }
        Ok(())
    }

    fn set_fits(&self) -> bool {
        self.method.values_fit()
            && self.auth_data.values_fit()
            && self.reason.values_fit()
            && self.user_properties.values_fit()
    }

    fn set_len(&self) -> usize {
        self.method
            .values_len(21)
            .saturating_add(self.auth_data.values_len(22))
            .saturating_add(self.reason.values_len(31))
            .saturating_add(self.user_properties.values_len(38))
    }

    fn put_set(&self, out: &mut BytesMut) {
        self.method.put_values(21, out);
        self.auth_data.put_values(22, out);
        self.reason.put_values(31, out);
        self.user_properties.put_values(38, out);
    }

    fn set_known(&self) {
        self.method.values_known();
        self.auth_data.values_known();
        self.reason.values_known();
        self.user_properties.values_known();
    }
}

impl PropertyBlock for AuthProperties {}

/// An Auth (MQTT 5.0 section 3.15).
#[derive(Debug, Clone, PartialEq, Eq, Drop)]
pub struct Auth {
    /// Of an empty body Success.
    pub code: AuthReasonCode,
    /// An empty set is read again as None.
    pub properties: Option<AuthProperties>,
}

/// The reason code of a number; E16 of another.
fn reason(num: u8) -> Result<AuthReasonCode, Error>
    ensures { Finds (λ r. number (auth_code r)) result
        (judged auth_codes (λ _. Error.MalformedPacket) (number num)) }
{
    Ok(match num {
        0 => AuthReasonCode::Success,
        24 => AuthReasonCode::Continue,
        25 => AuthReasonCode::ReAuthentivate,
        _ => return Err(Error::MalformedPacket),
    })
}

/// The reason code of a body of so many bytes.
fn read_reason(len: usize, body: &mut Bytes) -> Result<AuthReasonCode, Error>
    ensures { Gives (λ r. (plain (number (auth_code r)), body.new)) result
        (optional_at (nat_lt 0 len) (checked u8 auth_codes (λ _. Error.MalformedPacket))
        (plain (number 0)) body.old) }
{
    if len == 0 {
        return Ok(AuthReasonCode::Success);
    }
    reason(read_u8(body)?)
}

impl Auth {
    /// An Auth of this code and these properties. Takes no memory.
    pub fn new(code: AuthReasonCode, properties: Option<AuthProperties>) -> Auth
        ensures { result ≡ record { code = code; properties = properties } }
    {
        Auth { code, properties }
    }

    /// What the row gives of a frame's bytes.
    fn read_values(alloc: Global, header: FixedHeader, bytes: Bytes) -> Result<Auth, Error>
        requires { length bytes ≡ header.fixed_header_len + header.remaining_len }
        ensures { Gives (λ a. content_of_packet (auth_packet a)) result
            (values_in auth_row header.byte1 header.remaining_len
            (drop header.fixed_header_len bytes)) }
    {
        let mut stream = bytes;
        stream.advance(header.fixed_header_len);
        let code = read_reason(header.remaining_len, &mut stream)?;
        let properties = read_block_if(alloc, header.remaining_len > 0, &mut stream)?;
        Ok(Auth { code, properties })
    }

    /// The Auth of a frame's bytes, of which the header is. E16 of a reason code that an Auth doesn't
    /// have, E14 to E18 of a field that can't be read; E21.
    #[tactic(auto, using(mqtt5_base::proofs::AnswersLemmas::row_said))]
    pub fn read(alloc: Global, header: FixedHeader, bytes: Bytes) -> Result<Auth, Error>
        requires { length bytes ≡ header.fixed_header_len + header.remaining_len }
        ensures row { ReadsRow (λ a. content_of_packet (auth_packet a)) auth_row header bytes
            result }
        ensures values { Gives (λ a. content_of_packet (auth_packet a)) result
            (values_in auth_row header.byte1 header.remaining_len
            (drop header.fixed_header_len bytes)) }
    {
        Auth::read_values(alloc, header, bytes)
    }

    fn body_len(&self) -> usize
        ensures { result ≡ min (length (body_bytes auth_row (auth_packet self.now))) usize.MAX }
    {
        block_len(&self.properties).saturating_add(1)
    }

    fn put_body(&self, out: &mut BytesMut)
        requires fits { block_fits auth_table (option_map auth_found self.now.properties) ≡ true }
        requires room { length (body_bytes auth_row (auth_packet self.now)) ≤ out.old.spare }
        ensures { Puts out.old out.new (body_bytes auth_row (auth_packet self.now)) }
    {
        self.code.code().put_field(out);
        put_block(&self.properties, out);
    }

    /// Appends the Auth and answers its length. E11 where a text or bytes are over 65,535 bytes, or the
    /// properties or the body over 268,435,455; E21. The buffer is then unchanged.
    pub fn write(&self, buffer: &mut BytesMut) -> Result<usize, Error>
        ensures { Writes length (writing auth_row (auth_packet self.now)) result buffer.old.items
            buffer.new.items }
    {
        if !block_fits(&self.properties) {
            return Err(Error::PayloadTooLong);
        }
        let len = self.body_len();
        if !len.fits() {
            return Err(Error::PayloadTooLong);
        }
        let size = start_frame(0xF0, len, buffer)?;
        self.put_body(buffer);
        Ok(size)
    }

    /// How many bytes it takes, or the greatest `usize` where they are more. Takes no memory.
    pub fn size(&self) -> usize
        ensures { result ≡ min (length (layout auth_row (auth_packet self.now))) usize.MAX }
    {
        frame_size(self.body_len())
    }
}
