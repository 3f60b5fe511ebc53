//! The topics that the broker's aliases stand for (MQTT 5.0 section 3.3.2.3.4).

ghost use Rattle.std.specs.Prelude.{◌≡◌, OnOk, OnErr};
ghost use Rattle.std.specs.FinMap as map;
ghost use Rattle.std.specs.Option.{option_copied};
ghost use Rattle.mqtt5_inflight.specs.Aliases.{alias_of, alias_over};

use bytes::Bytes;
use mqtt5_publish::Publish;
use std::alloc::{AllocError, Global};
use std::collections::BTreeMap;
use std::marker::Model;

/// The topic of each alias. Contracts see a finite map.
#[derive(Debug, Drop)]
pub struct Aliases {
    topics: BTreeMap<u16, Bytes>,
}

impl Model for Aliases {
    ghost use Rattle.std.specs.Prelude.{List, ℕ};
    ghost use Rattle.std.specs.Ordering.{nat_cmp};
    ghost use Rattle.std.specs.FinMap as map;
    ghost use Rattle.mqtt5_inflight.specs.Codes.{coded_aliases};

    ghost Value = { map.FinMap nat_cmp (List ℕ) };

    ghost coded = { coded_aliases };

    ghost view = { λ a. map.from_entries a.topics.entries };
}

impl Aliases {
    /// No aliases.
    pub fn new(alloc: Global) -> Aliases
        ensures { result ≡ map.empty }
    {
        Aliases {
            topics: BTreeMap::new(alloc),
        }
    }

    /// The topic that an alias stands for.
    pub fn get(&self, alias: u16) -> Option<&Bytes>
        ensures { option_copied result ≡ map.get self.now alias }
    {
        self.topics.get(&alias)
    }

    /// Lets an alias stand for a topic, in place of any before. Only a new alias takes memory.
    pub fn insert(&mut self, alias: u16, topic: Bytes) -> Result<(), AllocError>
        ensures ok { OnOk result (self.new ≡ map.insert self.old alias topic) }
        ensures err { OnErr result (self.new ≡ self.old) }
    {
        self.topics.insert(alias, topic)?;
        Ok(())
    }
}

impl Clone for Aliases {
    ghost is_clone = { λ a copy. copy ≡ a };

    fn clone(&self) -> Result<Aliases, AllocError> {
        Ok(Aliases {
            topics: self.topics.clone()?,
        })
    }
}

/// The alias of a publish.
pub fn alias_of(publish: &Publish) -> Option<u16>
    ensures { result ≡ alias_of publish.now }
{
    match &publish.properties {
        Some(properties) => properties.topic_alias,
        None => None,
    }
}

/// The alias of a publish, where it is above the maximum.
pub fn alias_over(publish: &Publish, max: u16) -> Option<u16>
    ensures { result ≡ alias_over max (alias_of publish.now) }
{
    match alias_of(publish) {
        Some(alias) if alias > max => Some(alias),
        _ => None,
    }
}
