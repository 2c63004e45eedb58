// Numbers that look drawn, and are the same in every run.
ghost use Rattle.std.specs.Prelude.{◌<◌, ◌≤◌, unsigned_abs};

#[derive(Drop)]
pub struct Chance {
    state: u64,
}

impl Chance {
    pub fn new(seed: u64) -> Chance {
        Chance { state: seed }
    }

    // A number below n; 0 where n is 0.
    pub fn below(&mut self, n: u32) -> u32
        ensures within { result ≤ n }
        ensures below { 0 < n → result < n }
    {
        self.state = self
            .state
            .wrapping_mul(6364136223846793005)
            .wrapping_add(1442695040888963407);
        let high = (self.state >> 33) as u32;
        if n == 0 { 0 } else { high % n }
    }

    // A number from low to high; low where high is less.
    pub fn between(&mut self, low: u16, high: u16) -> u16
        ensures least { low ≤ result }
        ensures most { low ≤ high → result ≤ high }
    {
        if high <= low {
            return low;
        }
        low + self.below(u32::from(high - low) + 1) as u16
    }

    // A number from -n to n.
    pub fn swing(&mut self, n: u16) -> i32
        ensures { unsigned_abs result ≤ n }
    {
        self.below(2 * u32::from(n) + 1) as i32 - i32::from(n)
    }

    // True once in n times.
    pub fn once_in(&mut self, n: u32) -> bool {
        self.below(n) == 0
    }

    // Any byte.
    pub fn byte(&mut self) -> u8 {
        self.below(256) as u8
    }

    // A number about a limit: at its edges, around twice as large, or far off.
    pub fn about(&mut self, limit: u32) -> u32 {
        match self.below(8) {
            0 => 0,
            1 => 1,
            2 => limit.saturating_sub(1),
            3 => limit,
            4 => limit.saturating_add(1),
            5 => u32::MAX,
            _ => self.below(limit.saturating_mul(2)),
        }
    }
}
