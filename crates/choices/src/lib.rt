// The accessors of a choice, which is lent as one number: any number is a choice.
// stays: the C interface: choices are lent as numbers of 32 bits, machine and bits in one
#![tactic(auto)]

ghost use Rattle.std.specs.Prelude.{◌≡◌};
ghost use Rattle.choices.specs.Choices.{choice_of};

use values::Live;

// The live number of the machine that a choice names.
pub fn machine_of(choice: u32) -> Live
    ensures { result.0 ≡ (choice_of choice).machine }
{
    Live(choice / 256)
}

// The bits of a choice.
pub fn bits_of(choice: u32) -> u8
    ensures { result ≡ (choice_of choice).bits }
{
    (choice % 256) as u8
}
