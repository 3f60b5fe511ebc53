//! Screens before a screen: one that leaves some messages out, and one that counts.

ghost use Rattle.std.specs.Prelude.{◌≡◌, ◌⊎◌, false};
ghost use Rattle.mqtt5_pubsub.specs.Screens.{Counts};

use mqtt5_base::matches;
use mqtt5_publish::Publish;
use mqtt5_talk::{Screen, TalkError};

/// A screen, and which messages aren't shown on it.
#[derive(Drop)]
pub struct Hiding<'a, S> {
    pub screen: S,
    /// Whether those aren't that the broker had retained (MQTT 5.0 section 3.3.1.3).
    pub retained: bool,
    /// Those aren't whose topic matches one of these filters (4.7).
    pub filters: &'a [&'a str],
}

impl<S> Hiding<'_, S> {
    /// Whether a message isn't shown.
    fn hides(&self, publish: &Publish) -> bool {
        if self.retained && publish.retain {
            return true;
        }
        match str::from_utf8(publish.topic.as_slice()) {
            Ok(topic) => self.filters.iter().any(|filter| matches(topic, filter)),
            Err(_) => false,
        }
    }
}

impl<S: Screen> Screen for Hiding<'_, S> {
    ghost shows = { λ old p is_shown new. (is_shown ≡ false) × (new ≡ old) ⊎ S.shows old.screen p is_shown new.screen };

    fn show(&mut self, publish: &Publish) -> Result<bool, TalkError> {
        if self.hides(publish) {
            return Ok(false);
        }
        self.screen.show(publish)
    }
}

/// A screen, and how many messages it showed.
#[derive(Drop)]
pub struct Counting<S> {
    pub screen: S,
    pub shown: u64,
}

impl<S: Screen> Screen for Counting<S> {
    ghost shows = { λ old p is_shown new. S.shows old.screen p is_shown new.screen
        × Counts is_shown old.shown new.shown };

    fn show(&mut self, publish: &Publish) -> Result<bool, TalkError> {
        let is_shown = self.screen.show(publish)?;
        self.shown = self.shown.saturating_add(is_shown as u64);
        Ok(is_shown)
    }
}
