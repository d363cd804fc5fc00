// The object of these tests: two parts, of which each station names its own.
use test_counters::{Watch, Watched};

// One that sees nothing.
#[derive(Drop)]
pub struct Nobody;

impl Watch for Nobody {
    fn sees(&self, _call: u32) {}
}

pub type Quiet = Watched<Nobody>;
