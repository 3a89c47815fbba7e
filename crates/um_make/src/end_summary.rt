//! The counters of one side of a session.
ghost use Rattle.std.specs.Prelude.{◌≡◌, ◌^◌, ◌≤◌, [], ◌∷◌, length, sum};

use um_link::Notice;

/// The counters of one side of a session, on SAPI 0.
#[derive(Clone, Copy, Debug, PartialEq, Eq)]
pub struct EndpointSummary {
    /// How many messages this side delivered.
    pub messages_got: u64,
    /// The total number of octets in the messages that this side delivered.
    pub octets: u64,
    /// The sum of all octets, as numbers 0 to 255, in the messages that this side delivered.
    pub octet_sum: u64,
    /// How many messages that this side sent were acknowledged.
    pub acked_messages: u64,
}

impl EndpointSummary {
    ghost use Rattle.um_make.specs.Counting.{CountsNotices, EndpointCountersGrowAtMost, EndpointCountersAreAtMost};

    pub(crate) fn new() -> EndpointSummary
        ensures { result ≡ record { messages_got = 0; octets = 0; octet_sum = 0; acked_messages = 0 } }
    {
        EndpointSummary {
            messages_got: 0,
            octets: 0,
            octet_sum: 0,
            acked_messages: 0,
        }
    }

    fn count_notice(&mut self, notice: &Notice)
        requires { EndpointCountersAreAtMost (2 ^ 60) self.old }
        ensures counts { CountsNotices (notice.now ∷ []) self.old self.new }
        ensures most { EndpointCountersGrowAtMost 64005 self.old self.new }
    {
        match notice {
            Notice::Got(message) => {
                let octets = message.octets();
                self.messages_got += 1;
                self.octets += octets.len() as u64;
                self.octet_sum += octet_sum(octets);
            }
            Notice::Acked(_) => self.acked_messages += 1,
            _ => {}
        }
    }

    pub(crate) fn count_notices(&mut self, notices: &[Notice])
        requires counters_bounded { EndpointCountersAreAtMost (2 ^ 59) self.old }
        requires size { length notices.now ≤ 3 }
        ensures counts { CountsNotices notices.now self.old self.new }
        ensures most { EndpointCountersGrowAtMost 192015 self.old self.new }
    {
        for notice in notices {
            self.count_notice(notice);
        }
    }
}

fn octet_sum(octets: &[u8]) -> u64
    requires { length octets.now ≤ 251 }
    ensures value { result ≡ sum octets.now }
    ensures most { result ≤ 64005 }
{
    let mut total = 0;
    for octet in octets {
        total += u64::from(*octet);
    }
    total
}
