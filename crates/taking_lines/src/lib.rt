// One line of a text taken into the loader's arrays, where it is in range (answer 3): by its form to the function of its kind.
// stays: may not change: line_at, which tells a line by the number of its form, `row` here
#![tactic(auto)]

ghost use Rattle.std.specs.Prelude.{◌+◌};
ghost use Rattle.texts.specs.Reading.{put, ranged};
ghost use Rattle.spoken.specs.Spoken.{line_at};
ghost use Rattle.spoken.specs.Took.{Took};
ghost use Rattle.putting.specs.Asked.{MoveRoom};
ghost use Rattle.taking.specs.Lines.{move_at};
ghost use Rattle.taking_lines.specs.Asked.{MovedAsked, Moved, Gathered, LineAsked};

use gathering::Lines;
use tables::Program;

// A step, a call or an act.
fn take_moved(
    s: &[u8],
    row: usize,
    places: [usize; 5],
    moves: &mut [u8; 3 * Program::MOVES],
    steps: &mut usize,
    calls: &mut usize,
    acts: &mut usize,
)
    requires { MovedAsked row moves.old steps.old calls.old acts.old }
    ensures { (h : MoveRoom moves.old (steps.old + (calls.old + acts.old))) → Moved row h.rows (move_at s.now places)
        steps.old calls.old acts.old moves.new steps.new calls.new acts.new }
{
    let n = *steps + (*calls + *acts);
    match row {
        38 => taking::take_move(s, places, moves, n, steps),
        39 => taking::take_move(s, places, moves, n, calls),
        _ => taking::take_move(s, places, moves, n, acts),
    }
}

// Any line.
pub fn take_line(s: &[u8], row: usize, places: [usize; 5], lines: &mut Lines) -> bool
    requires { LineAsked s.now row places lines.old }
    ensures { (h : LineAsked s.now row places lines.old)
        → Took result (ranged h.lines (line_at s.now places row)) (Gathered (put (line_at s.now places row) h.lines) lines.new) (Gathered h.lines lines.new) }
{
    let program = &mut lines.program;
    match row {
        0..=4 => taking::take_event(s, row, places, &mut program.event_types),
        5 => taking::take_machine(s, places, &mut lines.kinds),
        6..=9 => taking::take_variable(
            s,
            row,
            places,
            lines.kinds,
            &mut program.variable_of,
            &mut program.variable_type,
            &mut lines.rooms,
            &mut lines.variables,
            &mut lines.absent,
        ),
        10..=23 => taking_exprs::take_expr(s, row, places, &mut program.exprs),
        24..=35 => taking_stmts::take_stmt(
            s,
            row,
            places,
            &mut program.stmts,
            &mut program.inits,
            &mut lines.pairs,
        ),
        36 => taking::take_action(s, places, &mut program.action_of, &mut program.action_body),
        37 => taking_states::take_state(
            s,
            places,
            &mut program.state_of,
            &mut program.state_entry,
            &mut program.state_exit,
            &mut program.defers,
        ),
        38..=40 => {
            take_moved(
                s,
                row,
                places,
                &mut program.moves,
                &mut program.steps,
                &mut program.calls,
                &mut program.acts,
            );
            true
        }
        41 => {
            taking::take_start(s, places, &mut lines.start);
            true
        }
        _ => taking::take_choice(s, row, places, &mut lines.choices, &mut lines.count),
    }
}
