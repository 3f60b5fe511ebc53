//! What the standard says of a fault.

use mqtt5_base::Error;

/// What the standard calls the fault of a frame, what is wrong with it, and the section of MQTT 5.0.
pub fn meaning_of(error: &Error) -> &'static str {
    match error.number() {
        1 => "Malformed Packet, a reason code that the packet doesn't have (2.4)",
        2 => "Unsupported Protocol Version, the protocol name isn't MQTT (3.1.2.1)",
        3 => "Unsupported Protocol Version, the protocol version isn't 5 (3.1.2.2)",
        4 => "Malformed Packet, flags of a will without a will (3.1.2.5 to 3.1.2.7)",
        5 => "Malformed Packet, a packet type that is reserved (2.1.2)",
        6 => "Protocol Error, a retain handling of 3 (3.8.3.1)",
        7 => "Malformed Packet, a QoS of 3 (3.3.1.2), in a SUBSCRIBE Protocol Error (3.8.3.1)",
        8 => "Malformed Packet, a reason code that the packet doesn't have (3.9.3, 3.11.3)",
        9 => "Protocol Error, a packet identifier of 0 (2.2.1)",
        10 => "Protocol Error, no topic filter (3.8.3)",
        12 => "Packet too large, for the limit that was given (3.1.2.11.4)",
        13 => "Malformed Packet, the packet has nothing behind its fixed header (2.2)",
        14 => "Malformed Packet, a text that isn't UTF-8 (1.5.4)",
        15 => "Malformed Packet, fewer bytes than a length says (1.5.4, 1.5.6, 2.2.2.1)",
        16 => "Malformed Packet, a field that is cut short, or a value that is reserved (4.13.1)",
        17 => "Malformed Packet, a variable byte integer of over four bytes (1.5.5)",
        18 => "Malformed Packet, a property that the packet doesn't have (2.2.2.2)",
        21 => "Quota exceeded, memory ran out (4.13.1)",
        _other => "Implementation specific error (4.13.1)",
    }
}
