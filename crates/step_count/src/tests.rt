// A caller that counts nothing picks a ledger at its call.
ghost use Rattle.std.specs.Prelude.{◌≡◌, ◌<◌};

use crate::Steps;
use std::marker::Brand;
use std::sync::ledger::{Blank, Ledger};

// Two steps on a counter of any ledger.
fn two_steps<L: Ledger>(blank: Blank)
    requires { (blank.name ≡ L.name) × (blank.parts ≡ L.parts) × (0 < blank.parts) }
{
    let mut steps = Steps::<L>::new(blank);
    steps.tick();
    steps.tick();
}

#[test]
fn takes_steps_with_a_brand() {
    two_steps::<Brand>(Blank::new(1));
}
