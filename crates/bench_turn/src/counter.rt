ghost use Rattle.std.specs.Prelude.{◌≡◌, ◌+◌, ◌<◌, ◌^◌};

use kp_turn::Storied;

/// A count of events, whose step also mixes a word as often as `work` says.
#[derive(Drop)]
pub struct Counter {
    pub calls: u64,
    work: u64,
    mix: u64,
}

impl Counter {
    pub fn new(work: u64) -> Counter
        ensures { result.calls ≡ 0 }
    {
        Counter {
            calls: 0,
            work,
            mix: 1,
        }
    }
}

impl Storied for Counter {
    type Event = u64;

    type Said = u64;

    ghost events = { λ counter. counter.calls };

    ghost steps = { λ before event said after. said ≡ before.calls };

    fn step(&mut self, event: u64) -> u64 {
        let said = self.calls;
        let mut mix = self.mix;
        for _ in 0..self.work {
            mix = (mix ^ event)
                .rotate_left(7)
                .wrapping_mul(6_364_136_223_846_793_005);
        }
        self.mix = mix;
        self.calls += 1;
        said
    }
}
