//! What is written is read again.

ghost use Rattle.mqtt5_base.specs.Sets.{IsBlockOf};
ghost use Rattle.mqtt5_connect.specs.Rows.{will_table};
ghost use Rattle.mqtt5_connect.specs.Short.{will_block};
ghost use Rattle.mqtt5_codec.specs.Norms.{IsReadBack};

use crate::packet::Packet;
use mqtt5_base::block_known;
use mqtt5_connect::{Connect, LastWill, Login};
use mqtt5_control::{Auth, ConnAck, Disconnect};
use mqtt5_publish::{PubAck, PubComp, PubRec, PubRel, Publish};
use mqtt5_subscribe::{SubAck, Subscribe, UnsubAck, Unsubscribe};

/// Says of a will's properties what the types of their fields do.
fn will_known(will: &Option<LastWill>)
    ensures { IsBlockOf will_table (will_block will.now) }
{
    if let Some(will) = will {
        block_known(&will.properties);
    }
}

/// What is written for a Connect is a whole frame of its norm, whatever follows it.
fn connect_reads_back(connect: &Connect, will: &Option<LastWill>, login: &Option<Login>)
    ensures { IsReadBack (Packet.Connect connect.now will.now login.now) }
{
    let _time = connect.keep_alive;
    block_known(&connect.properties);
    will_known(will);
}

/// What is written for a ConnAck is a whole frame of its norm, whatever follows it.
fn connack_reads_back(p: &ConnAck)
    ensures { IsReadBack (Packet.ConnAck p.now) }
{
    block_known(&p.properties);
}

/// What is written for a Publish is a whole frame of its norm, whatever follows it.
fn publish_reads_back(p: &Publish)
    ensures { IsReadBack (Packet.Publish p.now) }
{
    let _id = p.pkid;
    block_known(&p.properties);
}

/// What is written for a PubAck is a whole frame of its norm, whatever follows it.
fn puback_reads_back(p: &PubAck)
    ensures { IsReadBack (Packet.PubAck p.now) }
{
    let _id = p.pkid;
    block_known(&p.properties);
}

/// What is written for a PubRec is a whole frame of its norm, whatever follows it.
fn pubrec_reads_back(p: &PubRec)
    ensures { IsReadBack (Packet.PubRec p.now) }
{
    let _id = p.pkid;
    block_known(&p.properties);
}

/// What is written for a PubRel is a whole frame of its norm, whatever follows it.
fn pubrel_reads_back(p: &PubRel)
    ensures { IsReadBack (Packet.PubRel p.now) }
{
    let _id = p.pkid;
    block_known(&p.properties);
}

/// What is written for a PubComp is a whole frame of its norm, whatever follows it.
fn pubcomp_reads_back(p: &PubComp)
    ensures { IsReadBack (Packet.PubComp p.now) }
{
    let _id = p.pkid;
    block_known(&p.properties);
}

/// What is written for a Subscribe is a whole frame of its norm, whatever follows it.
fn subscribe_reads_back(p: &Subscribe)
    ensures { IsReadBack (Packet.Subscribe p.now) }
{
    let _id = p.pkid;
    block_known(&p.properties);
}

/// What is written for a SubAck is a whole frame of its norm, whatever follows it.
fn suback_reads_back(p: &SubAck)
    ensures { IsReadBack (Packet.SubAck p.now) }
{
    let _id = p.pkid;
    block_known(&p.properties);
}

/// What is written for an Unsubscribe is a whole frame of its norm, whatever follows it.
fn unsubscribe_reads_back(p: &Unsubscribe)
    ensures { IsReadBack (Packet.Unsubscribe p.now) }
{
    let _id = p.pkid;
    block_known(&p.properties);
}

/// What is written for an UnsubAck is a whole frame of its norm, whatever follows it.
fn unsuback_reads_back(p: &UnsubAck)
    ensures { IsReadBack (Packet.UnsubAck p.now) }
{
    let _id = p.pkid;
    block_known(&p.properties);
}

/// What is written for a Disconnect is a whole frame of its norm, whatever follows it.
fn disconnect_reads_back(p: &Disconnect)
    ensures { IsReadBack (Packet.Disconnect p.now) }
{
    block_known(&p.properties);
}

/// What is written for an Auth is a whole frame of its norm, whatever follows it.
fn auth_reads_back(p: &Auth)
    ensures { IsReadBack (Packet.Auth p.now) }
{
    block_known(&p.properties);
}

impl Packet {
    /// What is written for the packet is a whole frame of its norm, whatever follows it; of a norm the
    /// norm is itself. A law: the body only looks at the fields, which says what their types do.
    pub fn reads_back(&self)
        ensures { IsReadBack self.now }
    {
        match self {
            Packet::Auth(p) => auth_reads_back(p),
            Packet::Connect(connect, will, login) => connect_reads_back(connect, will, login),
            Packet::ConnAck(p) => connack_reads_back(p),
            Packet::Publish(p) => publish_reads_back(p),
            Packet::PubAck(p) => puback_reads_back(p),
            Packet::PingReq(_) => {}
            Packet::PingResp(_) => {}
            Packet::Subscribe(p) => subscribe_reads_back(p),
            Packet::SubAck(p) => suback_reads_back(p),
            Packet::PubRec(p) => pubrec_reads_back(p),
            Packet::PubRel(p) => pubrel_reads_back(p),
            Packet::PubComp(p) => pubcomp_reads_back(p),
            Packet::Unsubscribe(p) => unsubscribe_reads_back(p),
            Packet::UnsubAck(p) => unsuback_reads_back(p),
            Packet::Disconnect(p) => disconnect_reads_back(p),
        }
    }
}
