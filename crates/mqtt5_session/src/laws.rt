//! What holds over any calls of a session.

ghost use Rattle.std.specs.Prelude.{◌≡◌, ◌+◌, ℕ, Bool, List, ◌∷◌, IsSome};
ghost use Rattle.mqtt5_base.specs.declared.quality.QoS.TheVariants.{ExactlyOnce};
ghost use Rattle.mqtt5_publish.specs.declared.publish.Publish.{Publish};
ghost use Rattle.mqtt5_codec.specs.declared.packet.Packet.TheVariants as packets;
ghost use Rattle.mqtt5_session.specs.Session.{Session};
ghost use Rattle.mqtt5_session.specs.Packets.{topic_of};
ghost use Rattle.mqtt5_session.specs.Ledger.{Call, Hear, IsLedger, after};
ghost use Rattle.mqtt5_session.specs.Once.{IsOnce, kept_id, notified_by, released_by};

/// A law, which does nothing when it is called: over any calls of a new session, between which events are
/// taken out and the acks are made the user's or not, what is owed (the ids in use and the publish that waits)
/// and what was taken are together what was added.
pub fn ledger_law()
    ensures { (limit : ℕ) (manual : Bool) (calls : List Call) → IsLedger limit manual calls }
{}

/// A law, which does nothing when it is called: a publish of QoS 2 from the broker is handed on once, whether
/// its event is taken out before it comes again or not.
pub fn once_law()
    // Over any calls, each id that is kept or was released was kept before or handed on.
    ensures counts { (s : Session) (calls : List Call) → IsOnce s calls }
    // A publish of QoS 2 whose topic is known is handed on once, then or before, however often it comes
    // again before its PubRel, over resumes too.
    ensures once { (s : Session) (p : Publish) (at : ℕ) (calls : List Call) → p.qos ≡ ExactlyOnce
        → IsSome (topic_of s p)
        → released_by p.pkid (after s (Hear (packets.Publish p) at)) calls ≡ 0
        → kept_id p.pkid s.core + notified_by p.pkid s (Hear (packets.Publish p) at ∷ calls) ≡ 1 }
{}
