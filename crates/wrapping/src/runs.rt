// Methods of runs of records.
ghost use Rattle.std.specs.Prelude.{◌≡◌, ◌+◌, ◌^◌, ◌≤◌, ◌<◌, length};
ghost use Rattle.wrapping.specs.RunsExtra.{empty_run, append_run, push_run, run_of, glyphs_in, drop_run};

use crate::{Rule, Run};

impl Run {
    pub fn empty() -> Run
        ensures { result ≡ empty_run }
    {
        Run {
            first: 0,
            end: 0,
            width: 0,
        }
    }

    // Appends the other run to this one.
    #[tactic(auto, unfolding(crate::specs::RunsExtra::append_run))]
    pub fn append(self, other: Run) -> Run
        requires { self.width + other.width < 2 ^ 32 }
        ensures { result ≡ append_run self other }
    {
        if self.end == 0 {
            return other;
        }
        if other.end == 0 {
            return self;
        }
        Run {
            first: self.first,
            end: other.end,
            width: self.width + other.width,
        }
    }

    // Appends the record at `at`, of width w.
    #[tactic(auto, unfolding(crate::specs::RunsExtra::push_run))]
    pub fn push(self, at: usize, w: usize) -> Run
        requires { (self.width + w < 2 ^ 32) × (at + 1 < 2 ^ 64) }
        ensures { result ≡ push_run self at w }
    {
        let width = self.width + w;
        let end = at + 1;
        if self.end == 0 {
            return Run {
                first: at,
                end,
                width,
            };
        }
        Run {
            first: self.first,
            end,
            width,
        }
    }

    // Drops glyphs from the front while each fits in `room` less those dropped, and returns the remaining run.
    pub fn after_fitting(self, records: &[u32], rule: Rule, room: usize) -> Run
        requires { (self.end ≤ length records.now) × (self ≡ run_of (glyphs_in rule records.now self)) }
        ensures { result ≡ drop_run rule records.now self room }
    {
        let end = self.end;
        let mut left = room;
        for i in self.first..end {
            let w = rule.width(records[i]) as usize;
            if rule.limit < w {
                continue;
            }
            if left < w {
                let dropped = room - left;
                let width = self.width - dropped;
                return Run {
                    first: i,
                    end,
                    width,
                };
            }
            left -= w;
        }
        Run::empty()
    }
}
