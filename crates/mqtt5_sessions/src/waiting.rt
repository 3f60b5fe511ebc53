//! The clients for which something may wait, so that not all are looked at: each for which something does is among them.

ghost use Rattle.std.specs.Prelude.{◌≡◌, ◌<◌, ℕ, true, length, OnOk};
ghost use Rattle.std.specs.Ordering.{nat_cmp};
ghost use Rattle.std.specs.BTreeSet.{contains};
ghost use Rattle.mqtt5_sessions.specs.Waiting.{waits_at, IsFirst};
ghost use Rattle.mqtt5_sessions.specs.Followed.{IsNoted};

use crate::client::ClientState;
use std::alloc::AllocError;
use std::collections::BTreeSet;

/// Puts a client among them. Err where memory is refused, and all is as it was.
pub(super) fn note(noted: &mut BTreeSet<usize>, client: usize) -> Result<(), AllocError>
    ensures there { OnOk result (contains nat_cmp noted.new client ≡ true) }
    ensures others { (n : ℕ) → contains nat_cmp noted.old n ≡ true
        → contains nat_cmp noted.new n ≡ true }
{
    noted.insert(client)?;
    Ok(())
}

/// Takes out a client that is among them. Takes no memory.
fn take_out(noted: &mut BTreeSet<usize>, client: usize)
    requires { contains nat_cmp noted.old client ≡ true }
    ensures others { (n : ℕ) → (n ≡ client → ⊥) → contains nat_cmp noted.old n ≡ true
        → contains nat_cmp noted.new n ≡ true }
    ensures fewer { length noted.new.keys < length noted.old.keys }
{
    noted.remove(&client);
}

/// The first of them from a number on, if there is one.
fn first_from(noted: &BTreeSet<usize>, from: usize) -> Option<usize>
    ensures { IsFirst (contains nat_cmp noted.now) from result }
{
    match noted.range(from..).next() {
        Some(number) => Some(*number),
        None => None,
    }
}

/// Whether something waits for the client of a number.
fn waits_at(clients: &[ClientState], number: usize) -> bool
    ensures { result ≡ waits_at number clients.now }
{
    number < clients.len() && clients[number].waits()
}

/// The first client, from a number on, for which something waits, if there is one. Those before it for which nothing does any more
/// are taken out. Takes no memory.
pub(super) fn next_waiting(
    noted: &mut BTreeSet<usize>,
    from: usize,
    clients: &[ClientState],
) -> Option<usize>
    requires { IsNoted noted.old clients.now }
    ensures next { IsFirst (λ i. waits_at i clients.now) from result }
    ensures noted { IsNoted noted.new clients.now }
{
    let mut next = first_from(noted, from);
    while let Some(number) = next {
        if waits_at(clients, number) {
            return Some(number);
        }
        take_out(noted, number);
        next = first_from(noted, from);
    }
    None
}
