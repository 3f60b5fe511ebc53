//! What happens to a client of a network, by what the broker keeps for it.

ghost use Rattle.std.specs.Prelude.{◌≡◌, ◌++◌};
ghost use Rattle.mqtt5_codec.specs.declared.packet.Packet.{Packet};
ghost use Rattle.mqtt5_network.specs.Connection.{is_sending};
ghost use Rattle.mqtt5_network.specs.Asking.{is_ack};
ghost use Rattle.mqtt5_network.specs.Client.{Client, comes_to, passes_on, takes_out};
ghost use Rattle.mqtt5_router.specs.Kept.{kept_of, without_first, after_packet, after_pass};

/// A law, which does nothing when it is called: the calls of `Kept` do what happens to each client of a network, whatever is on
/// its way, was handed on of it and was sent to it before (MQTT 5.0 sections 3.8, 3.10 and 4.3).
pub fn kept_law()
    // After a packet of the client the same is kept.
    ensures packet { (c : Client) (x : Packet) → kept_of (comes_to (is_sending x) (is_ack x) c x)
        ≡ kept_of (after_packet (kept_of c) x) }
    // The reply goes behind what is on its way down.
    ensures reply { (c : Client) (x : Packet) → (comes_to (is_sending x) (is_ack x) c x).down
        ≡ c.down ++ (after_packet (kept_of c) x).down }
    // What is handed on goes behind what was.
    ensures handed { (c : Client) (x : Packet)
        → (comes_to (is_sending x) (is_ack x) c x).receiver.handed
        ≡ c.receiver.handed ++ (after_packet (kept_of c) x).receiver.handed }
    // After the first of its queue is passed on the same is kept.
    ensures pass { (c : Client)
        → kept_of (passes_on c c.queue) ≡ kept_of (after_pass (kept_of c)) }
    // What is sent goes behind what is on its way down.
    ensures sent { (c : Client)
        → (passes_on c c.queue).down ≡ c.down ++ (after_pass (kept_of c)).down }
    // And the publish that the sender took on goes behind those before it.
    ensures taken { (c : Client)
        → (passes_on c c.queue).taken ≡ c.taken ++ (after_pass (kept_of c)).taken }
    // After the first of its queue has expired the same is kept.
    ensures expire { (c : Client) → kept_of (takes_out c) ≡ without_first (kept_of c) }
{}
