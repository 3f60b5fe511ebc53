//! Calls one after another in a new session, and what comes of them, in the words of `walk`.

use super::walk::wrong_row;
use crate::mqttbytes::Error;
use std::alloc::Global;
use std::test::Fail;

/// The courses: the greatest id of the session and what it shows, and then its rows.
const COURSES: &str = "1: A failed publish lets another go.
*2 2 Publish(1) 2/1
*w - AwaitAck(1) 2+w/1
<r w r,Publish(1) w/1

1: Pings while a publish waits.
*B B Publish(1) B/1
*B - AwaitAck(1) B+B/1
>P P PingReq B+B/1p1c1
>P S5 - B+B/1p1c2
<A B A,Publish(1) B/1p1

1: A publish that waits over a resume isn't sent by it, and goes without `dup` later.
*B B Publish(1) B/1
*Q - AwaitAck(1) B+Q/1
~ B' Publish(1) B'+Q/1
<A Q A,Publish(1) Q/1

2: Acks and a release that nothing asked for.
<x S2(0) x =
<y S2(3) y =
<z S2(65535) z =
<R S2(1) R =
<C S2(1) C =
<L c L,PubComp(1) =

2: Requests that a client never sends.
>C S1 - =
>p S1 - =
>s S1 - =
>u S1 - =
? 0,0 - =

2: Publishes with an id above the limit, and with an alias above the maximum.
>3 S2(3) - =
>4 S8(1,0) - =

2: A publish of QoS 2, its acks out of order and again.
*2 2 Publish(1) 2./1@1
<C S2(1) C =
<R L R,PubRel(1) r./1@1
<R S2(1) R =
<A S2(1) A =

2: A publish of QoS 2, acked as one of QoS 1.
*2 2 Publish(1) 2./1@1
<A - A ../0@1

2: A Subscribe and an Unsubscribe without filters.
*S S6 - =
>E E Unsubscribe(1) ../0@1

2: An id above the limit.
>G S2(3) - =

2: Both ids are in use: one publish waits, another is refused, and acks let them go.
*2 2 Publish(1) 2./1@1
*o o Publish(2) 2o/2
*w - AwaitAck(1) 2o+w/2@1
*B S1 - =
<A w A,Publish(1) wo/2@1
<b - b w./1@1
*o o Publish(2) wo/2

2: A completed release lets a publish go.
*2 2 Publish(1) 2./1@1
*o o Publish(2) 2o/2
*w - AwaitAck(1) 2o+w/2@1
<R L R,PubRel(1) ro+w/2@1
<C w C,Publish(1) wo/2@1

2: Releases under the next id, an id in use and one above the limit.
*L L PubRel(1) r./1@1
>L L PubRel(1) =
>e S2(3) - =

2: A publish that is sent again has `dup`.
*{ { Publish(1) {./1@1
~ } Publish(1) }./1@1

2: A release of an id that a publish is sent under.
*2 2 Publish(1) 2./1@1
>L S1 - =

3: Ids of subscriptions.
>S S Subscribe(1) .../0@1
>U % Unsubscribe(2) .../0@2
>S $ Subscribe(3) .../0
*S S6 - =
>U U Unsubscribe(1) .../0@1

3: Acks of subscriptions.
<s - s =
<u - u =
? 4,0 - =

3: Packets that a broker never sends.
<N S4 N =
<P S4 P =
? 0,0 - =

3: A receive maximum of 0.
<X - X .../0m0
*B B Publish(1) B../1m0
*Q - AwaitAck(1) B..+Q/1m0

3: A receive maximum below the limit, and one above.
<M - M .../0m2
<Y - Y .../0

3: Disconnects of the client: for an error of the broker, and by itself.
! O Disconnect =
? 0,0 - =
>D D Disconnect =
? 0,3 - =

3: A clean gives publishes, then releases.
*2 2 Publish(1) 2../1@1
*F F Publish(2) 2F./2@2
<R L R,PubRel(1) rF./2@2
^ F',L - .../0@2
^ - - =

3: A resume sends a publish and a release again.
*B B Publish(1) B../1@1
*o o Publish(2) Bo./2@2
<W m W,PubRel(2) Br./2@2
~ B',m Publish(1),PubRel(2) B'r./2@2

3: A publish of QoS 2 that is taken before the second resume is released then.
*B B Publish(1) B../1@1
*o o Publish(2) Bo./2@2
~ B',o' Publish(1),Publish(2) B'o'./2@2
<W m W,PubRel(2) B'r./2@2
~ B',m Publish(1),PubRel(2) =
^ B',m - .../0@2

5: Four publishes, a receive maximum below them, three publishes, an ack, and one more publish.
*B B Publish(1) B..../1@1
*F F Publish(2) BF.../2@2
*G G Publish(3) BFG../3@3
*I I Publish(4) BFGI./4@4
<M - M BFGI./4@4m2
*J J Publish(5) BFGIJ/5m2
*Q - AwaitAck(1) BFGIJ+Q/5@1m2
*T S1 - =
<A Q A,Publish(1) QFGIJ/5@1m2
*V - AwaitAck(2) QFGIJ+V/5m2

10: An ack frees its id; the events are taken.
*B B Publish(1) B..../1@1
? 0,3 - =
<A - A ...../0@1
? 4,3 - =
. Publish(1) - =
. A - =
. - - =

10: A ping that isn't answered, and one that is.
>P P PingReq ...../0p1
*B B Publish(1) B..../1@1p1
<A - A ...../0@1p1
>P S3 - =
<p - p ...../0@1
>P P PingReq ...../0@1p1

10: An alias above the broker's greatest.
<j - j ...../0b4
>9 S8(5,4) - =

10: An alias at the broker's greatest, and a resume after it fell.
<Z - Z ...../0b5
>9 9 Publish(7) ...../1b5
<j - j ...../1b4
~ S8(5,4) - =

10: A publish of QoS 2 comes again, and after its release, with a clean between them.
<& ( &,PubRec(7) ...../0i7
<& ( PubRec(7) =
^ - - =
<) [ ),PubComp(7) ...../0
<& ( &,PubRec(7) ...../0i7

10: A publish of QoS 2 comes again under an alias that nobody gave a topic.
<& ( &,PubRec(7) ...../0i7
<] O Disconnect =

10: A publish of QoS 2 comes again where the user acks.
+ - - ...../0u1
<& - & ...../0i7u1
<& - - =

65535: Acks of ids that nothing was sent under.
<i S2(101) i =
<x S2(0) x =
? 0,0 - =

65535: Publishes of each quality, and their acks.
>0 0 Publish(0) =
*B B Publish(1) B..../1@1
*o o Publish(2) Bo.../2@2
<A - A .o.../1@2
<b - b ...../0@2

65535: A received publish is released.
*B B Publish(1) B..../1@1
*o o Publish(2) Bo.../2@2
<W m W,PubRel(2) Br.../2@2

65535: A completed release frees its id.
*2 2 Publish(1) 2..../1@1
<C S2(1) C =
<R L R,PubRel(1) r..../1@1
<R S2(1) R =
<C - C ...../0@1

65535: Publishes from the broker are acked.
<0 - 0 =
<F b F,PubAck(2) =
<f t f,PubRec(3) ...../0i3

65535: A release from the broker, and again.
<2 R 2,PubRec(1) ...../0i1
<L C L,PubComp(1) ...../0
<L c L,PubComp(1) =

65535: A release from the broker whose id it has lost.
<2 R 2,PubRec(1) ...../0i1
<l - l ...../0

65535: Acks by the user.
+ - - ...../0u1
<F - F =
<f - f ...../0i3u1
>b b PubAck(2) =
>t t PubRec(3) =
<e g e,PubComp(3) ...../0u1

65535: An alias is learnt, used and learnt again.
<6 q 6,PubAck(7) =
# 3 - =
<7 q 6,PubAck(7) =
<8 q 8,PubAck(7) =
# 4 - =

65535: An alias that nobody gave a topic.
<7 O 7,Disconnect =
# - - =";

fn wrong_in(alloc: Global, course: &'static str) -> Result<&'static str, Error> {
    let (head, rows) = course.split_once('\n').unwrap_or((course, ""));
    let (limit, _what) = head.split_once(':').unwrap_or((head, ""));
    match limit.parse::<u16>() {
        Ok(limit) => wrong_row(alloc, limit, "", rows),
        Err(_) => Ok(head),
    }
}

#[test]
fn courses(rt: HostRuntime) -> Result<(), Fail> {
    for course in COURSES.split("\n\n") {
        let wrong = wrong_in(rt.alloc(), course)?;
        assert!(rt; wrong.is_empty(), "{wrong} in {course}");
    }
    Ok(())
}
