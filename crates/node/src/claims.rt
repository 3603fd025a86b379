// The request table (Table 10-1 of ITU-T G.8032): which request is the highest.
ghost use Rattle.std.specs.Prelude.{◌≡◌};
ghost use Rattle.node.specs.Claims.{claim_of, claim_rank, fail_stands, reaches};

use crate::ports::some;
use crate::types::{NodeValues, State};
use frame::{Ranked, Request, highest};

// A request of the table, highest first, so that the lesser in the derived order stands higher. The Heard ones are
// received messages.
#[derive(Clone, Copy, PartialEq, Eq, PartialOrd, Ord, Debug)]
pub enum Claim {
    Clear,
    Forced,
    HeardForced,
    LocalFail,
    LocalClearFail,
    HeardFail,
    HeardManual,
    Manual,
    WtrExpires,
    WtrRunning,
    WtbExpires,
    WtbRunning,
    HeardRplBlocked,
    HeardNoRequest,
}

impl Ranked for Claim {
    ghost rank = { claim_rank };

    fn outranks(&self, other: &Claim) -> bool {
        self < other
    }
}

// The claim that a received request makes.
impl From<Request> for Claim {
    ghost from_gives = { λ q r. r ≡ claim_of q };

    fn from(request: Request) -> Claim {
        match request {
            Request::NoRequest => Claim::HeardNoRequest,
            Request::RplBlocked => Claim::HeardRplBlocked,
            Request::ManualSwitch => Claim::HeardManual,
            Request::SignalFail => Claim::HeardFail,
            Request::ForcedSwitch => Claim::HeardForced,
        }
    }
}

impl NodeValues {
    // Whether a new request is the highest, among equals the first: then it reaches its row.
    pub(crate) fn reaches(self, claim: Claim) -> bool
        ensures { result ≡ reaches self claim }
    {
        let claims = [
            Some(claim),
            some(self.commands.forced).then_some(Claim::Forced),
            self.fail_stands().then_some(Claim::LocalFail),
            self.commands.manual.is_some().then_some(Claim::Manual),
            (self.timers.wtr > 0).then_some(Claim::WtrRunning),
            (self.timers.wtb > 0).then_some(Claim::WtbRunning),
        ];
        highest(&claims) == Some(0)
    }

    // In forced switch local SF is not counted.
    fn fail_stands(self) -> bool
        ensures { result ≡ fail_stands self }
    {
        match self.state {
            State::ForcedSwitch => false,
            _ => some(self.failed),
        }
    }
}
