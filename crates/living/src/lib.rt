// The machines left in a configuration.
#![tactic(auto)]

ghost use Rattle.std.specs.Prelude.{◌≡◌};
ghost use Rattle.programs.specs.Program.{Program as Definition};
ghost use Rattle.machines.specs.Rooms.{live};
ghost use Rattle.configs.specs.Decode.{config_of};

use configs::Config;
use tables::Program;

// How many machines are live.
pub fn live_machines(c: Config) -> usize
    ensures { (p : Definition) → result ≡ live (config_of p c) }
{
    c.rooms.iter().filter(|room| room.this.0 != 0).count()
}
