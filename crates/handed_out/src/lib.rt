// What the loader hands out, and what that starts with. The laws stand in specs/.
#![tactic(auto)]

ghost use Rattle.std.specs.Prelude.{◌≡◌, IfErr, IfOk, Ok, Err};
ghost use Rattle.texts.specs.Answered.{answered};
ghost use Rattle.gathering.specs.Gathered.{no_lines};
ghost use Rattle.handed_out.specs.Starts.{started, starts_as};

use answers::Refusal;
use configs::Config;
use gathering::Lines;
use tabled::Loaded;

// A loaded text, and its start configuration.
#[derive(Clone, Copy)]
pub struct TextStart {
    pub loaded: Loaded,
    pub config: Config,
}

// A text, loaded into lent lines and started: a program that is loaded is sound, so that it starts. What is loaded stays in the lines, so that a caller runs it
// with no copy between. Not inlined, so that what loading needs of the stack is gone by then.
#[inline(never)]
pub fn start_in(text: &[u8], lines: &mut Lines) -> Result<Config, Refusal>
    requires { lines.old ≡ no_lines }
    ensures refused { IfErr result (λ r. Err r ≡ starts_as (answered text.now)) }
    ensures handed { IfOk result (λ c. Ok (started lines.new c) ≡ starts_as (answered text.now)) }
{
    loading::load_in(text, lines)?;
    let Ok(config) = starting::start(&lines.program) else {
        unreachable!()
    };
    Ok(config)
}

// A text, loaded and started.
pub fn start_text(text: &[u8]) -> Result<TextStart, Refusal>
    ensures { result ≡ starts_as (answered text.now) }
{
    let mut lines = Lines::new();
    let config = start_in(text, &mut lines)?;
    Ok(TextStart {
        loaded: Loaded {
            program: lines.program,
            choices: lines.choices,
            count: lines.count,
        },
        config,
    })
}
