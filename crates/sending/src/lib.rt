// SEND: a pair is put to another machine's queue, or to one's own, and the sender moves on. Where it is refused nothing is changed.
// stays: no plainer: these functions are lent the arrays that they touch, so that no contract need say that the others stay
#![tactic(auto)]

ghost use Rattle.std.specs.Prelude.{ℕ, List};
ghost use Rattle.machines.specs.Config.{Reply};
ghost use Rattle.sending.specs.Asked.{SendAsked, ToAsked, Sent, SentTo};

use answers::Answer;
use codes::REST;
use engine::Outcome;
use rules::Rule;
use tables::Program;
use values::Value;

// Event e with the payload a is sent to machine i, under the bits that the target left.
fn send_to(
    program: &Program,
    places: &[u8; Program::ALL_VARIABLES + 1],
    ids: &[u32; Program::ROOMS],
    values: &[u64; (Program::VARIABLES + 3) * Program::ROOMS],
    counts: &mut [usize; Program::ROOMS],
    parts: &mut [u16; Program::ROOMS * Program::ROW],
    held: &[u64; Program::ROOMS],
    waiting: &mut [usize; Program::ROOMS],
    pairs: &mut [u64; Program::ROOMS * Program::QUEUE],
    k: usize,
    i: u32,
    e: u8,
    a: u16,
    rest: u64,
) -> Outcome
    requires { ToAsked k i e a rest program.now.exprs places.now program.now.event_types ids.now values.now counts.old parts.old held.now waiting.old pairs.old }
    ensures { (q : ToAsked k i e a rest program.now.exprs places.now program.now.event_types ids.now values.now counts.old parts.old held.now waiting.old pairs.old) → SentTo q result counts.new parts.new waiting.new pairs.new }
{
    let to = rooms::find_room(ids, i).ok_or(Answer::SendToNotLive)?;
    let x = evaluation::number(&program.exprs, places, values, k, a, rest);
    let ty = tables::event_type(&program.event_types, usize::from(e));
    if !values::suits(ty, codes::value_of(x)) {
        return Err(Answer::WrongType);
    }
    let pair = codes::pair_number(e, x);
    if !queues::put_on(pairs, waiting, to, pair) {
        return Err(Answer::QueueFull);
    }
    remaining::finish_head(counts, parts, k, held[k] != 0);
    Ok(Rule::SEND)
}

// THE HEAD `send t e a` of the machine in room k, under the bits w.
pub fn send_on(
    program: &Program,
    places: &[u8; Program::ALL_VARIABLES + 1],
    ids: &[u32; Program::ROOMS],
    values: &[u64; (Program::VARIABLES + 3) * Program::ROOMS],
    counts: &mut [usize; Program::ROOMS],
    parts: &mut [u16; Program::ROOMS * Program::ROW],
    held: &[u64; Program::ROOMS],
    waiting: &mut [usize; Program::ROOMS],
    pairs: &mut [u64; Program::ROOMS * Program::QUEUE],
    k: usize,
    t: u16,
    e: u8,
    a: u16,
    w: u64,
) -> Outcome
    requires { SendAsked k t e a w program.now.exprs places.now program.now.event_types ids.now values.now counts.old parts.old held.now waiting.old pairs.old }
    ensures { (q : SendAsked k t e a w program.now.exprs places.now program.now.event_types ids.now values.now counts.old parts.old held.now waiting.old pairs.old) (n : ℕ) (α : List Reply) → Sent q n α result counts.new parts.new waiting.new pairs.new }
{
    let at = k * (Program::VARIABLES + 3);
    let u = evaluation::eval(&program.exprs, places, values, at, usize::from(t), w);
    match codes::value_of(u % REST) {
        Value::Undefined => Err(Answer::SendToUndefined),
        Value::Bool(_) | Value::Int(_) | Value::Event(_) => Err(Answer::WrongType),
        Value::Id(i) => send_to(
            program,
            places,
            ids,
            values,
            counts,
            parts,
            held,
            waiting,
            pairs,
            k,
            i.0,
            e,
            a,
            u / REST,
        ),
    }
}
