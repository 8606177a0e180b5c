// THE LOADER: a text read from the first line to the last, judged, and handed out as the tables of its program and its choices; on a refusal nothing is loaded.
// What it answers stands in crates/texts; the time is linear in the text, and for the passes 4 to 9 in the lines and pairs times the kinds (crates/judging).
#![tactic(auto)]

ghost use Rattle.std.specs.Prelude.{◌≡◌, ◌≤◌, length, IfErr, Ok, Err};
ghost use Rattle.programs.specs.Sizes.{TEXT};
ghost use Rattle.texts.specs.Answered.{answered};
ghost use Rattle.gathering.specs.Gathered.{no_lines};
ghost use Rattle.reading.specs.Whole.{Begun};
ghost use Rattle.tabled.specs.Tabled.{handed, loads, load_of};

use answers::{Answer, Refusal};
use gathering::Lines;
use tabled::Loaded;
use tables::Program;

// What a text that is not too long holds, read and judged.
fn read_whole(text: &[u8], lines: &mut Lines) -> Result<(), Refusal>
    requires short { length text.now ≤ TEXT }
    requires begun { Begun text.now lines.old }
    ensures refused { IfErr result (λ r. Err r ≡ loads (answered text.now)) }
    ensures handed { result ≡ Ok (record {}) → Ok (record { program = lines.new.program; choices = lines.new.choices; count = lines.new.count }) ≡ loads (answered text.now) }
{
    let start = reading::read_lines(text, lines)?;
    if let Some(i) = lines.absent {
        let events = tables::event_count(&lines.program.event_types);
        return Err(Refusal {
            answer: Answer::NotThere,
            line: events + lines.kinds + i,
        });
    }
    lines.program.kinds = lines.kinds as u8;
    lines.program.start = start;
    judging::judge(&lines.program)?;
    Ok(())
}

// THE LOADER over lent lines, for any bytes: 1, then what the lines say. What is loaded stays in the lines, so that a caller hands it out with no copy between.
pub fn load_in(text: &[u8], lines: &mut Lines) -> Result<(), Refusal>
    requires { lines.old ≡ no_lines }
    ensures refused { IfErr result (λ r. Err r ≡ loads (answered text.now)) }
    ensures handed { result ≡ Ok (record {}) → Ok (record { program = lines.new.program; choices = lines.new.choices; count = lines.new.count }) ≡ loads (answered text.now) }
{
    if Program::TEXT < text.len() {
        // stays: may not change: load_of, which has line 0 here
        return Err(Refusal {
            answer: Answer::TextTooLong,
            line: 0,
        });
    }
    read_whole(text, lines)
}

// THE LOADER, for any bytes.
pub fn load(text: &[u8]) -> Result<Loaded, Refusal>
    ensures handed { handed result ≡ load_of text.now }
    ensures said { result ≡ loads (answered text.now) }
{
    let mut lines = Lines::new();
    load_in(text, &mut lines)?;
    Ok(Loaded {
        program: lines.program,
        choices: lines.choices,
        count: lines.count,
    })
}
