//! The counters of a session.
ghost use Rattle.std.specs.Prelude.{◌≡◌, ◌^◌, ◌+◌, ◌≤◌, if◌then◌else◌, [], length};
ghost use Rattle.um_link.specs.lapdm_window.declared.Sapi.TheVariants as S;
ghost use Rattle.um_link.specs.lapdm_window.Ends as R;
ghost use Rattle.um_link.specs.lapdm_link.Claims.{is_same_sapi};
ghost use Rattle.um_link.specs.um_air.Air as A;
ghost use Rattle.um_link.specs.Naming.{spec_event_of, spec_answer_of, spec_step_of, result_with_step};
ghost use Rattle.um_make.specs.Summaries.{is_loss_event};

use crate::end_summary::EndpointSummary;
use um_link::{Air, Event, No, Notice, Received, Sapi, Step, Who};

/// The counters of a session.
#[derive(Clone, Copy, Debug, PartialEq, Eq)]
pub struct Summary {
    /// How many events there were.
    pub steps: u64,
    pub sent_blocks: u64,
    /// How many blocks were received with a good CRC.
    pub good_blocks: u64,
    /// How many blocks were received with a bad CRC.
    pub bad_blocks: u64,
    /// The number of events that lose a block, including refused ones.
    pub lost_blocks: u64,
    pub mobile: EndpointSummary,
    pub network: EndpointSummary,
}

impl Summary {
    ghost use Rattle.um_make.specs.Summaries.{session_summary, crc_passes, crc_fails};
    ghost use Rattle.um_make.specs.Counting.{CountsAnswer, CountsStep, CountersGrowAtMost, CountersAreAtMost, EndpointCountersAreAtMost};
    ghost use Rattle.um_make.specs.Counting.{CountsNotices, EndpointCountersGrowAtMost, sapi0_notices_in_answer, one_if_true};

    pub(crate) fn new() -> Summary
        ensures counts { result ≡ session_summary [] [] }
        ensures counters_bounded { CountersAreAtMost 0 result }
    {
        Summary {
            steps: 0,
            sent_blocks: 0,
            good_blocks: 0,
            bad_blocks: 0,
            lost_blocks: 0,
            mobile: EndpointSummary::new(),
            network: EndpointSummary::new(),
        }
    }

    /// Adds an event and its answer to the counters. If the event was not refused, `step` holds its result.
    pub(crate) fn count_step(&mut self, event: &Event<'_>, outcome: &Result<(), No>, step: &Step)
        requires { CountersAreAtMost (2 ^ 58) self.old }
        ensures counts { CountsStep (spec_event_of event.now) (spec_answer_of (result_with_step outcome.now step.now)) self.old self.new }
        ensures rises { CountersGrowAtMost 192015 self.old self.new }
    {
        self.steps += 1;
        if is_loss_event(event) {
            self.lost_blocks += 1;
        }
        if outcome.is_ok() {
            self.count_accepted_step(step);
        }
    }

    fn count_accepted_step(&mut self, step: &Step)
        requires { CountersAreAtMost (2 ^ 59) self.old }
        ensures adds { CountsAnswer (A.Accepts (spec_step_of step.now)) self.old self.new }
        ensures rises { CountersGrowAtMost 192015 self.old self.new }
    {
        self.sent_blocks += step.effects.frames.as_slice().len() as u64;
        self.count_received_block(&step.received);
        self.count_notice(step);
    }

    /// Counts the received block, if there is one, as good or bad by its CRC.
    fn count_received_block(&mut self, received: &Option<Received>)
        requires { CountersAreAtMost (2 ^ 60) self.old }
        ensures { self.new ≡ record self.old {
          good_blocks = self.old.good_blocks + one_if_true (crc_passes received.now);
          bad_blocks = self.old.bad_blocks + one_if_true (crc_fails received.now);
        } }
    {
        if let Some(report) = received {
            if report.accepted.is_some() {
                self.good_blocks += 1;
            } else {
                self.bad_blocks += 1;
            }
        }
    }

    /// Adds the notices of the side that acted to the counters of that side.
    fn count_notice(&mut self, step: &Step)
        requires mobile_bounded { EndpointCountersAreAtMost (2 ^ 59) self.old.mobile }
        requires network_bounded { EndpointCountersAreAtMost (2 ^ 59) self.old.network }
        ensures mobile { CountsNotices (sapi0_notices_in_answer R.Mobile (A.Accepts (spec_step_of step.now))) self.old.mobile
            self.new.mobile }
        ensures network { CountsNotices (sapi0_notices_in_answer R.Network (A.Accepts (spec_step_of step.now))) self.old.network
            self.new.network }
        ensures same { self.new ≡ record self.old { mobile = self.new.mobile; network = self.new.network } }
        ensures mobile_growth { EndpointCountersGrowAtMost 192015 self.old.mobile self.new.mobile }
        ensures network_growth { EndpointCountersGrowAtMost 192015 self.old.network self.new.network }
    {
        let notices = sapi0_notices(step);
        match step.who {
            Who::Mobile => self.mobile.count_notices(notices),
            Who::Network => self.network.count_notices(notices),
            Who::Rival | Who::Nobody => {}
        }
    }
}

fn sapi0_notices(step: &Step) -> &[Notice]
    ensures zero { result.now ≡ (if is_same_sapi S.Zero step.now.sapi then step.now.effects.notices else []) }
    ensures size { length result.now ≤ 3 }
{
    match step.sapi {
        Sapi::Zero => step.effects.notices.as_slice(),
        Sapi::Three => &[],
    }
}

fn is_loss_event(event: &Event<'_>) -> bool
    ensures { result ≡ is_loss_event (spec_event_of event.now) }
{
    matches!(event, Event::Air(_, Air::Lose))
}
