//! What MQTT 5 packets are made of: fields, property blocks, the fixed header, and the grammar that
//! says what their bytes stand for.
#![tactic(auto)]

mod ack_properties;
mod error;
mod exact;
mod fields;
mod frame;
mod header;
mod lanes;
mod laws;
mod mqttbytes;
mod property;
mod quality;
mod sequence;
mod stream;
mod tagged;
mod text;
mod value;

pub use ack_properties::AckProperties;
pub use error::Error;
pub use exact::{Exact, copied, same};
pub use fields::{read_bytes, read_text, read_u8, read_u16, read_u32, read_varint};
pub use frame::{frame_size, start_frame};
pub use header::{FixedHeader, PacketType};
pub use laws::{error_equality, grammar_laws, qos_laws, shortest_form};
pub use mqttbytes::{
    has_wildcards, matches, matching_laws, qos, read_qos, valid_filter, valid_topic,
};
pub use property::{
    Property, PropertyBlock, PropertySet, block_fits, block_known, block_len, put_block, read_block,
};
pub use quality::QoS;
pub use sequence::Sequence;
pub use stream::{check, front_laws};
pub use tagged::Tagged;
pub use text::Text;
pub use value::{FieldValue, varint_len};
