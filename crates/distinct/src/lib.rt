// Whether the live numbers of what is handed in are distinct: no two rooms hold the same number other than 0.
#![tactic(auto)]

ghost use Rattle.std.specs.Prelude.{◌≡◌, ◌<◌};
ghost use Rattle.lists.specs.Tells.{Tells};
ghost use Rattle.programs.specs.Program.{Program as Lines};
ghost use Rattle.acceptance.specs.Accepted.{Distinct};
ghost use Rattle.configs.specs.declared.Flat.{Flat};
ghost use Rattle.configs.specs.Flat.{flat_config};
ghost use Rattle.distinct.specs.Distinct.{Single};

use tables::Program;

// Room i is free, or no later room holds its number.
fn single(ids: &[u32; Program::ROOMS], i: usize) -> bool
    requires { i < 32 }
    ensures { Tells result (Single ids.now i) }
{
    let this = ids[i];
    this == 0 || !ids[i + 1..].contains(&this)
}

// THE LIVE NUMBERS of all rooms.
pub fn distinct_ok(ids: &[u32; Program::ROOMS]) -> bool
    ensures { (p : Lines) (f : Flat) → f.ids ≡ ids.now → Tells result (Distinct (flat_config p f).rooms) }
{
    (0..Program::ROOMS).all(|i| single(ids, i))
}
