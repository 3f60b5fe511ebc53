//! The loop, over the parts of a client.

ghost use Rattle.mqtt5_client.specs.Client.{IsReady};

use super::client::is_row;
use super::{bytes_of, publish_hi, quality_of};
use bytes::Bytes;
use mqtt5_base::Error;
use mqtt5_client::{Client, Request, StateError};
use mqtt5_drive::{Input, Step, drive};
use std::alloc::Global;
use std::test::Fail;

/// A call of the loop has its steps between `/`: a quality of service is a publish of "hi" to "a/b", and others are pieces.
/// The first rows have a publish out and its ack in, by one call and by two, and frames over a limit; then come a publish of
/// QoS 2 and its PubRel at each cut and byte by byte; the last take the limit of what was told where it was 7: a ConnAck
/// with a maximum packet size of 10, one without (3.2), and a publish.
const STEPS: &str = "drive:1/40/0200/01; output=320A0003612F620001006869; ids=0
drive:1/400200; held=400200; drive:01; ids=0
in:3; drive:4004=S7E12(4,3); output=-; ids=0
out:11; drive:1=S9(12,11); output=-; ids=1
drive:-/34070001610007007862020007; output=5002000770020007
drive:34/070001610007007862020007; output=5002000770020007
drive:3407/0001610007007862020007; output=5002000770020007
drive:340700/01610007007862020007; output=5002000770020007
drive:34070001/610007007862020007; output=5002000770020007
drive:3407000161/0007007862020007; output=5002000770020007
drive:340700016100/07007862020007; output=5002000770020007
drive:34070001610007/007862020007; output=5002000770020007
drive:3407000161000700/7862020007; output=5002000770020007
drive:340700016100070078/62020007; output=5002000770020007
drive:34070001610007007862/020007; output=5002000770020007
drive:3407000161000700786202/0007; output=5002000770020007
drive:340700016100070078620200/07; output=5002000770020007
drive:34070001610007007862020007/-; output=5002000770020007
drive:34/07/00/01/61/00/07/00/78/62/02/00/07; output=5002000770020007
drive:2008000005270000000A; out:7; limit; limits=None/Some(10)
drive:2003000000; out:7; limit; limits=None/None
drive:300400016100; out:7; limit; limits=None/Some(7)
";

fn input(alloc: Global, word: &str) -> Result<Input, Error> {
    match word {
        "1" => Ok(Input::Request(Request::Publish(publish_hi(alloc, quality_of(word))?))),
        digits => Ok(Input::Bytes(Bytes::from_vec(bytes_of(alloc, digits)?)?)),
    }
}

fn add_steps(alloc: Global, steps: &mut Vec<Step>, words: &str) -> Result<(), Error> {
    for word in words.split('/') {
        let input = input(alloc, word)?;
        steps.push(Step { at: 1, input })?;
    }
    Ok(())
}

fn run(alloc: Global, client: &mut Client, steps: &[Step]) -> Result<(), StateError>
    requires { IsReady client.old }
{
    drive(
        alloc,
        &mut client.state,
        &mut client.codec,
        &mut client.input,
        &mut client.output,
        steps,
    )
}

/// One call of the loop.
pub(super) fn drives(alloc: Global, client: &mut Client, words: &str) -> Result<(), StateError>
    requires { IsReady client.old }
{
    let mut steps = Vec::new(alloc);
    let ended = match add_steps(alloc, &mut steps, words) {
        Ok(()) => run(alloc, client, steps.as_slice()),
        Err(error) => Err(StateError::from(error)),
    };
    drop(steps);
    ended
}

#[test]
fn steps_of_the_loop(rt: HostRuntime) -> Result<(), Fail> {
    for row in STEPS.lines() {
        assert!(rt; is_row(rt.alloc(), row)?, "of {row}");
    }
    Ok(())
}
