//! What a Subscribe asks for: a topic filter and its options.

ghost use Rattle.std.specs.Prelude.{◌≡◌, ◌*◌, [], OnErr, IfOk, IfErr, false};
ghost use Rattle.mqtt5_base.specs.Grammar.{one, text, number};
ghost use Rattle.mqtt5_base.specs.Answers.{Finds, Gives, ReadsPart};
ghost use Rattle.mqtt5_base.specs.Reading.{judged, part_at};
ghost use Rattle.mqtt5_base.specs.Puts.{Writes};
ghost use Rattle.mqtt5_subscribe.specs.Rows.{is_rule, option_steps};
ghost use Rattle.mqtt5_subscribe.specs.Subscribes.{rule_number, filter_options, filter_written, filters_part, filters_group, filter_writing};

use crate::listed::{Listed, read_list};
use bytes::{Bytes, BytesMut};
use mqtt5_base::{Error, FieldValue, QoS, Sequence, Text, read_qos, read_text, read_u8};
use std::alloc::Global;

/// Which retained messages are sent when a subscription is made: options 0, 1 and 2, in this order (MQTT
/// 5.0 section 3.8.3.1).
#[derive(Debug, Clone, Copy, Default, PartialEq, Eq)]
pub enum RetainForwardRule {
    #[default]
    OnEverySubscribe,
    OnNewSubscribe,
    Never,
}

impl RetainForwardRule {
    /// The option's number.
    pub fn code(self) -> u8
        ensures { result ≡ rule_number self }
    {
        match self {
            RetainForwardRule::OnEverySubscribe => 0,
            RetainForwardRule::OnNewSubscribe => 1,
            RetainForwardRule::Never => 2,
        }
    }
}

/// A topic filter and its subscription options (MQTT 5.0 section 3.8.3).
#[derive(Debug, Clone, PartialEq, Eq, Drop)]
pub struct Filter {
    /// The topic filter, which isn't judged, up to 65,535 bytes to be written.
    pub path: Text,
    /// The greatest QoS of what is sent.
    pub qos: QoS,
    /// Whether the client's own messages aren't sent back.
    pub nolocal: bool,
    /// Whether messages keep their retain flag.
    pub preserve_retain: bool,
    /// Which retained messages are sent.
    pub retain_forward_rule: RetainForwardRule,
}

/// The rule of a retain handling option.
fn read_rule(num: u8) -> Result<RetainForwardRule, Error>
    ensures { Finds (λ r. number (rule_number r)) result
        (judged is_rule Error.InvalidRetainForwardRule (number num)) }
{
    match num {
        0 => Ok(RetainForwardRule::OnEverySubscribe),
        1 => Ok(RetainForwardRule::OnNewSubscribe),
        2 => Ok(RetainForwardRule::Never),
        _ => Err(Error::InvalidRetainForwardRule(num)),
    }
}

/// A rule where it stands in the byte of the options: bits 4 and 5.
fn rule_bits(rule: RetainForwardRule) -> u8
    ensures { result ≡ 16 * rule_number rule }
{
    match rule {
        RetainForwardRule::OnEverySubscribe => 0,
        RetainForwardRule::OnNewSubscribe => 16,
        RetainForwardRule::Never => 32,
    }
}

impl Listed for Filter {
    ghost first = { one text };

    ghost others = { option_steps };

    ghost written = { filter_written };

    ghost settled = { λ f. f };

    #[tactic(auto, using(mqtt5_base::proofs::Bits::bit_of_mod))]
    fn read_item(alloc: Global, stream: &mut Bytes) -> Result<Filter, Error> {
        let path = read_text(alloc, stream)?;
        let options = read_u8(stream)?;
        let retain_forward_rule = read_rule(options / 16 % 4)?;
        let qos = read_qos(options % 4)?;
        Ok(Filter {
            path,
            qos,
            nolocal: options / 4 % 2 == 1,
            preserve_retain: options / 8 % 2 == 1,
            retain_forward_rule,
        })
    }

    fn item_fits(&self) -> bool {
        self.path.fits()
    }

    fn item_len(&self) -> usize {
        self.path.field_len().saturating_add(1)
    }

    fn put_item(&self, out: &mut BytesMut) {
        self.path.put_field(out);
        self.options().put_field(out);
    }
}

impl Filter {
    /// A Filter of this path and QoS, without no local and retain as published, with retained
    /// messages on every subscribe. E21.
    pub fn new(alloc: Global, path: &str, qos: QoS) -> Result<Filter, Error>
        ensures ok { IfOk result (λ f. (f.path.bytes ≡ path.now)
            × (f ≡ record {
              path = f.path;
              qos = qos;
              nolocal = false;
              preserve_retain = false;
              retain_forward_rule = RetainForwardRule.OnEverySubscribe;
            })) }
        ensures err { IfErr result (λ e. e ≡ Error.OutOfMemory) }
    {
        Ok(Filter {
            path: Text::from(String::from_str(alloc, path)?),
            qos,
            nolocal: false,
            preserve_retain: false,
            retain_forward_rule: RetainForwardRule::OnEverySubscribe,
        })
    }

    /// The byte of its options.
    fn options(&self) -> u8
        ensures { result ≡ filter_options self.now }
    {
        let nolocal: u8 = if self.nolocal { 4 } else { 0 };
        let preserve_retain: u8 = if self.preserve_retain { 8 } else { 0 };
        (self.qos as u8) + nolocal + preserve_retain + rule_bits(self.retain_forward_rule)
    }

    fn read_all(alloc: Global, bytes: &mut Bytes) -> Result<Sequence<Filter>, Error>
        ensures read { Gives (λ fs. (filters_group fs, bytes.new)) result
            (part_at filters_part [] bytes.old) }
        ensures kept { OnErr result (bytes.new ≡ bytes.old) }
    {
        let filters = read_list(alloc, bytes.clone()?)?;
        bytes.clear();
        Ok(filters)
    }

    /// All Filters to the end of the bytes, of which none is left; of no bytes an empty list. E14 to
    /// E16 of a path or options that can't be read, E6 of a retain handling option of 3, else E7 of a
    /// QoS of 3; E21. After a refusal the bytes are unchanged.
    #[tactic(auto, using(mqtt5_base::proofs::AnswersLemmas::part_said))]
    pub fn read(alloc: Global, bytes: &mut Bytes) -> Result<Sequence<Filter>, Error>
        ensures read { ReadsPart (λ fs. (filters_group fs, bytes.new)) filters_part [] bytes.old
            result }
        ensures kept { OnErr result (bytes.new ≡ bytes.old) }
    {
        Filter::read_all(alloc, bytes)
    }

    /// Appends the path and the options. E11 of a path over 65,535 bytes, E21; then the buffer is
    /// unchanged.
    pub fn write(&self, buffer: &mut BytesMut) -> Result<(), Error>
        ensures { Writes (λ _. tt) (filter_writing self.now) result buffer.old.items
            buffer.new.items }
    {
        if !self.item_fits() {
            return Err(Error::PayloadTooLong);
        }
        buffer.reserve(self.item_len())?;
        self.put_item(buffer);
        Ok(())
    }
}
