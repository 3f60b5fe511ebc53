//! The user name and the password of a client.

ghost use Rattle.std.specs.Prelude.{◌≡◌, ◌≤◌, [], OnErr};
ghost use Rattle.mqtt5_base.specs.Grammar.{plain, content, one, text};
ghost use Rattle.mqtt5_base.specs.Answers.{Answers, Gives, ReadsPart};
ghost use Rattle.mqtt5_base.specs.Reading.{optional_at, part_at};
ghost use Rattle.mqtt5_base.specs.Puts.{Writes};
ghost use Rattle.mqtt5_base.specs.Layout.{group_of, just, steps_writing};
ghost use Rattle.mqtt5_connect.specs.Rows.{login_steps, login_part};
ghost use Rattle.mqtt5_connect.specs.Connects.{login_values, login_of, text_flag, login_flags, login_group, under_flags};
ghost use Rattle.mqtt5_connect.specs.Short.{login_short};

use crate::connect_part::{ConnectPart, write_part};
use bytes::{Bytes, BytesMut};
use mqtt5_base::{Error, FieldValue, Text, read_text};
use std::alloc::Global;

/// The user name and the password of a client (MQTT 5.0 sections 3.1.3.5 and 3.1.3.6).
#[derive(Debug, Clone, PartialEq, Eq, Drop)]
pub struct Login {
    /// Absent where it is empty.
    pub username: Text,
    /// Absent where it is empty.
    pub password: Text,
}

/// A text, where it is there; else an empty one.
fn read_optional(alloc: Global, is_there: bool, bytes: &mut Bytes) -> Result<Text, Error>
    ensures { Gives (λ t. (plain (content t.bytes), bytes.new)) result
        (optional_at is_there (one text) (plain (content [])) bytes.old) }
{
    if is_there {
        read_text(alloc, bytes)
    } else {
        Ok(Text::from(String::new(alloc)))
    }
}

impl Login {
    /// A login of these texts. E21.
    #[tactic(auto, using(mqtt5_base::specs::Codes::text_back))]
    pub fn new(alloc: Global, u: &str, p: &str) -> Result<Login, Error>
        ensures { Answers result (login_of u.now p.now) }
    {
        Ok(Login {
            username: Text::from(String::from_str(alloc, u)?),
            password: Text::from(String::from_str(alloc, p)?),
        })
    }

    /// What the part gives of the bytes.
    pub(crate) fn read_part(
        alloc: Global,
        flags: u8,
        bytes: &mut Bytes,
    ) -> Result<Option<Login>, Error>
        ensures read { Gives (λ l. (group_of (login_group l), bytes.new)) result
            (part_at (login_part 0) (under_flags flags) bytes.old) }
        ensures kept { OnErr result (bytes.new ≡ bytes.old) }
    {
        let mut rest = bytes.clone()?;
        let username = read_optional(alloc, flags / 128 % 2 > 0, &mut rest)?;
        let password = read_optional(alloc, flags / 64 % 2 > 0, &mut rest)?;
        *bytes = rest;
        if username.as_bytes().is_empty() && password.as_bytes().is_empty() {
            return Ok(None);
        }
        Ok(Some(Login { username, password }))
    }

    /// The login at the front of the bytes, under the connect flags: a user name where 0x80 is set, a
    /// password where 0x40 is; none where both are empty. E14 to E16 of a text that can't be read;
    /// E21. After a refusal the bytes are unchanged.
    #[tactic(auto, using(mqtt5_base::proofs::AnswersLemmas::part_said))]
    pub fn read(alloc: Global, flags: u8, bytes: &mut Bytes) -> Result<Option<Login>, Error>
        ensures read { ReadsPart (λ l. (group_of (login_group l), bytes.new)) (login_part 0)
            (under_flags flags) bytes.old result }
        ensures kept { OnErr result (bytes.new ≡ bytes.old) }
    {
        Login::read_part(alloc, flags, bytes)
    }

    /// Appends the user name and the password, each unless it is empty, and answers the connect
    /// flags: 0x80 for a user name, 0x40 for a password. E11 where one is over 65,535 bytes, E21; then
    /// the buffer is unchanged.
    pub fn write(&self, buffer: &mut BytesMut) -> Result<u8, Error>
        ensures { Writes (λ _. login_flags self.now)
            (steps_writing login_steps (login_flags self.now) (just (login_values self.now))) result
            buffer.old.items buffer.new.items }
    {
        write_part(self, buffer)
    }
}

/// The flag of a text, which an empty one doesn't have.
fn flag_of(text: &Text, worth: u8) -> u8
    ensures value { result ≡ text_flag worth text.now }
    ensures small { result ≤ worth }
{
    if text.as_bytes().is_empty() { 0 } else { worth }
}

impl ConnectPart for Login {
    ghost steps = { login_steps };

    ghost values = { login_values };

    ghost own_flags = { login_flags };

    ghost most = { 192 };

    ghost short = { login_short };

    fn own_flags(&self) -> u8 {
        flag_of(&self.username, 128) + flag_of(&self.password, 64)
    }

    fn part_fits(&self) -> bool {
        self.username.fits() && self.password.fits()
    }

    fn part_len(&self, flags: u8) -> usize {
        let username = if flags / 128 % 2 > 0 {
            self.username.field_len()
        } else {
            0
        };
        let password = if flags / 64 % 2 > 0 {
            self.password.field_len()
        } else {
            0
        };
        username.saturating_add(password)
    }

    fn put_part(&self, flags: u8, out: &mut BytesMut) {
        if flags / 128 % 2 > 0 {
            self.username.put_field(out);
        }
        if flags / 64 % 2 > 0 {
            self.password.put_field(out);
        }
    }
}
