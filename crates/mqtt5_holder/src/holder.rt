//! A client with what its packets have, and what its session let go.

ghost use Rattle.std.specs.Prelude.{◌≡◌, [], ◌∷◌, ◌++◌, OnOk, OnErr, IfOk, IfErr};
ghost use Rattle.mqtt5_base.specs.Texts.{text_of};
ghost use Rattle.mqtt5_options.specs.Options.{defaults};

use crate::dropped::Dropped;
use mqtt5_base::{Error, Property, Sequence};
use mqtt5_client::Client;
use mqtt5_options::MqttOptions;
use mqtt5_subscribe::Filter;
use std::alloc::{AllocError, Global};

/// A client, what its Connects say, what its next packets have, and what its session let go.
#[derive(Drop)]
pub struct Holder {
    /// The client.
    pub client: Client,
    /// Its login and its will, and the rest of the last Connect.
    pub settings: MqttOptions,
    /// The properties of the next packet, in their order.
    pub properties: Sequence<Property>,
    /// The filters of the next Subscribe, in their order.
    pub filters: Sequence<Filter>,
    /// The requests that the last end or resumption of its session let go, but those that were taken out.
    pub dropped: Dropped,
}

impl Holder {
    /// A holder of a client, with the settings of a client without identifier, with nothing for its next packets, and with
    /// nothing that was let go. E21.
    pub fn new(alloc: Global, client: Client) -> Result<Holder, Error>
        ensures ok { IfOk result (λ h. h ≡ record {
          client = client;
          settings = defaults (text_of []) (text_of []) 0;
          properties = [];
          filters = [];
          dropped = [];
        }) }
        ensures err { IfErr result (λ e. e ≡ Error.OutOfMemory) }
    {
        let settings = match MqttOptions::new(alloc, "", "", 0) {
            Ok(settings) => settings,
            Err(error) => {
                drop(client);
                return Err(error);
            }
        };
        Ok(Holder {
            client,
            settings,
            properties: Sequence::new(alloc),
            filters: Sequence::new(alloc),
            dropped: Dropped::new(alloc),
        })
    }

    /// Adds a property of the next packet. Err where memory is refused; nothing is changed then.
    pub fn add_property(&mut self, property: Property) -> Result<(), AllocError>
        ensures ok { OnOk result (self.new
            ≡ record self.old { properties = self.old.properties ++ property ∷ [] }) }
        ensures err { OnErr result (self.new ≡ self.old) }
    {
        self.properties.push(property)?;
        Ok(())
    }

    /// Adds a filter of the next Subscribe. Err where memory is refused; nothing is changed then.
    pub fn add_filter(&mut self, filter: Filter) -> Result<(), AllocError>
        ensures ok { OnOk result (self.new
            ≡ record self.old { filters = self.old.filters ++ filter ∷ [] }) }
        ensures err { OnErr result (self.new ≡ self.old) }
    {
        self.filters.push(filter)?;
        Ok(())
    }

    /// Takes the properties of the next packet out. Takes no memory.
    pub fn take_properties(&mut self, alloc: Global) -> Sequence<Property>
        ensures taken { result ≡ self.old.properties }
        ensures left { self.new ≡ record self.old { properties = [] } }
    {
        std::mem::replace(&mut self.properties, Sequence::new(alloc))
    }

    /// Takes the filters of the next Subscribe out. Takes no memory.
    pub fn take_filters(&mut self, alloc: Global) -> Sequence<Filter>
        ensures taken { result ≡ self.old.filters }
        ensures left { self.new ≡ record self.old { filters = [] } }
    {
        std::mem::replace(&mut self.filters, Sequence::new(alloc))
    }
}
