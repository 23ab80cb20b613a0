// The relay's round (document 01: gateway): the users of its cluster report. Frames of the next round are counted ahead.
ghost use Rattle.std.specs.Prelude.{◌≡◌, true, ◌≤◌};
ghost use Rattle.std.specs.Result.{result_unwrap_or};
ghost use Rattle.refusals.specs.Codes.{accepted, first_of, code_of_result};
ghost use Rattle.lists.specs.Search.{one_of};
ghost use Rattle.rounds.specs.Ledger.{frame};
ghost use Rattle.rounds.specs.Rounds.{no_round, open_code};
ghost use Rattle.rounds.specs.Relays.{relay_round, nothing, held_of, held_as, relay_known, relay_opened, relay_contents, relay_checks};
ghost use Rattle.rounds.specs.Relays.{is_next, relay_code, relay_next, move_code, moved, relay_give_code, relay_sums};
ghost use Rattle.plans.specs.Plans.{max_length};

use crate::machine::{check_opening, no_sums};
use crate::{Held, RelayRound, Round};
use arithmetic::Symbol;
use plans::one_of;
use refusals::{Refusal, Step, refuse_unless};

impl Held {
    // Nobody has reported.
    fn nothing() -> Held
        ensures { result ≡ nothing }
    {
        Held {
            reported: 0,
            sums: no_sums(),
        }
    }

    // Who has reported to a round, and its sums.
    fn of(round: Round) -> Held
        ensures { result ≡ held_of round }
    {
        let sums = round.sums;
        Held {
            reported: round.reported,
            sums,
        }
    }
}

impl RelayRound {
    // The last round's number: there is no next.
    const LAST: u32 = 4_294_967_295;

    // A relay's round, to which nobody has reported.
    pub fn open(
        clusters: usize,
        size: usize,
        q: Symbol,
        length: usize,
        cluster: usize,
        number: u32,
    ) -> Result<RelayRound, Refusal>
        ensures code { code_of_result result ≡ open_code clusters size q length (one_of clusters cluster) }
        ensures round { result_unwrap_or result (relay_round 0 no_round nothing) ≡ relay_opened clusters size q length cluster number }
    {
        let known = one_of(clusters, cluster);
        let round = Round::open(clusters, size, q, length, number, known)?;
        Ok(RelayRound {
            cluster,
            round,
            ahead: Held::nothing(),
        })
    }

    // Whether its cluster is one of the plan's.
    fn is_known(self) -> bool
        ensures { result ≡ relay_known self }
    {
        one_of(self.round.clusters, self.cluster)
    }

    // What is held for the next round, as a round of this number.
    fn held(self, number: u32) -> Round
        ensures { result ≡ held_as self.round number self.ahead }
    {
        let round = self.round;
        let sums = self.ahead.sums;
        Round {
            clusters: round.clusters,
            size: round.size,
            q: round.q,
            length: round.length,
            number,
            reported: self.ahead.reported,
            sums,
        }
    }

    // Who has reported, here and ahead, and the sums: 8, 3.
    fn check_contents(self) -> Result<(), Refusal>
        requires { (self.round.size ≤ 8) × (self.round.length ≤ max_length) }
        ensures { code_of_result result ≡ first_of (relay_contents self) }
    {
        let round = self.round;
        let ahead = self.held(0);
        refuse_unless(round.bits_fit(round.size), Refusal::UnknownNumber)?;
        refuse_unless(ahead.bits_fit(round.size), Refusal::UnknownNumber)?;
        refuse_unless(round.sums_fit(), Refusal::NotASymbol)?;
        refuse_unless(ahead.sums_fit(), Refusal::NotASymbol)
    }

    // A state that is handed in: 1, 2, 9, 8, 3. Who keeps a round's state outside asks it too.
    pub fn check_state(self) -> Result<(), Refusal>
        ensures { code_of_result result ≡ first_of (relay_checks self) }
    {
        let round = self.round;
        let known = self.is_known();
        check_opening(round.clusters, round.size, round.q, round.length, known)?;
        self.check_contents()
    }

    // Whether a frame's number is that of the next round.
    fn is_ahead(self, number: u32) -> bool
        ensures { result ≡ is_next self.round.number number }
    {
        self.round.number < RelayRound::LAST && number == self.round.number + 1
    }

    // Counts a user's upload. A frame that is refused leaves the round as it was.
    pub fn count(mut self, sender: usize, number: u32, block: &[Symbol]) -> Step<RelayRound>
        ensures code { code_of_result result.answer ≡ relay_code self (frame sender number block.now) }
        ensures round { result.state ≡ relay_next self (frame sender number block.now) }
    {
        match self.check_state() {
            Ok(()) => self.heard(sender, number, block),
            Err(refusal) => Step::refused(refusal, self),
        }
    }

    // A frame into a round whose state is good.
    fn heard(mut self, sender: usize, number: u32, block: &[Symbol]) -> Step<RelayRound>
        requires { accepted ≡ first_of (relay_checks self) }
        ensures code { code_of_result result.answer ≡ relay_code self (frame sender number block.now) }
        ensures round { result.state ≡ relay_next self (frame sender number block.now) }
    {
        if self.is_ahead(number) {
            let ahead = self.held(number);
            let step = ahead.hear(self.round.size, sender, number, block);
            self.ahead = Held::of(step.state);
            return Step {
                answer: step.answer,
                state: self,
            };
        }
        let step = self.round.hear(self.round.size, sender, number, block);
        self.round = step.state;
        Step {
            answer: step.answer,
            state: self,
        }
    }

    // Moving on: 14, 12, after the state's checks.
    fn check_advance(self) -> Result<(), Refusal>
        ensures { code_of_result result ≡ move_code self }
    {
        self.check_state()?;
        let round = self.round;
        refuse_unless(round.number < RelayRound::LAST, Refusal::OtherRound)?;
        refuse_unless(round.is_full(round.size), Refusal::NotFull)
    }

    // Moves on to the next round with what is held for it, and holds nothing further.
    pub fn advance(mut self) -> Step<RelayRound>
        ensures code { code_of_result result.answer ≡ move_code self }
        ensures round { result.state ≡ moved self }
    {
        match self.check_advance() {
            Ok(()) => {
                self.round = self.held(self.round.number + 1);
                self.ahead = Held::nothing();
                Step::made(self)
            }
            Err(refusal) => Step::refused(refusal, self),
        }
    }

    // Gives the sums out, once everyone has reported.
    pub fn give(mut self, out: &mut [Symbol]) -> Step<RelayRound>
        ensures { (code_of_result result.answer ≡ relay_give_code self out.old)
            × (out.new ≡ relay_sums self out.old)
            × (result.state ≡ self) }
    {
        match self.check_state() {
            Ok(()) => {
                let answer = self.round.hand_out(self.round.size, out);
                Step {
                    answer,
                    state: self,
                }
            }
            Err(refusal) => Step::refused(refusal, self),
        }
    }
}
