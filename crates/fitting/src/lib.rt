// THE TEST OF 20: whether the program that is handed in is sound, and the configuration is one of it. The configuration is laid into the engine's
// arrays, and tested there.
#![tactic(auto)]

ghost use Rattle.std.specs.Prelude.{◌≡◌};
ghost use Rattle.soundness.specs.Sound.{Sound};
ghost use Rattle.tables.specs.Decode.{program_of};
ghost use Rattle.handed.specs.Handed.{fit};

use configs::{Config, Flat};
use tables::Program;

// The test of a sound program's configuration.
fn fit_sound(program: &Program, c: &Config) -> bool
    requires { Sound (program_of program.now) }
    ensures { result ≡ fit program.now c.now }
{
    let mut flat = Flat::new();
    laying::lay(c, &mut flat);
    admitting::admitted(program, &flat)
}

// Nothing of 20 holds.
pub fn fit(program: &Program, c: &Config) -> bool
    ensures { result ≡ fit program.now c.now }
{
    soundly::sound(program) && fit_sound(program, c)
}
